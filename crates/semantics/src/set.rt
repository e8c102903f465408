//! Sets of atoms as masks: atom x has the weight 2^x.
ghost use Rattle.std.specs.Prelude.{◌≡◌, ℕ, not, ◌&&◌, Decides, MatchOption, ◌==◌};
ghost use Rattle.semantics.specs.Sets.{width, has, within, disjoint, adding, others, Sub, Apart, Lowest, Highest};

use crate::atom::Atom;

/// A set of atoms. One number and no struct: bodies and sets come and go as numbers, and lie so in the tables.
pub type AtomSet = u64;

/// Is every atom of `a` one of `b`?
#[tactic(auto, using(crate::proofs::Sets::decides_within), unfolding(crate::specs::Sets::within))]
pub fn is_subset(a: AtomSet, b: AtomSet) -> bool
    ensures test { result ≡ within a b }
    ensures says { Decides result (Sub a b) }
{
    a & b == a
}

/// Do `a` and `b` share no atom?
#[tactic(auto, using(crate::proofs::Sets::decides_disjoint), unfolding(crate::specs::Sets::disjoint))]
pub fn is_disjoint(a: AtomSet, b: AtomSet) -> bool
    ensures test { result ≡ disjoint a b }
    ensures says { Decides result (Apart a b) }
{
    a & b == 0
}

/// Is the atom in the set?
pub fn contains(set: AtomSet, atom: Atom) -> bool
    ensures { result ≡ has set atom.number }
{
    set & (1 << atom.number()) != 0
}

/// The set and the atom.
pub fn with(set: AtomSet, atom: Atom) -> AtomSet
    ensures { result ≡ adding set atom.number }
{
    set | (1 << atom.number())
}

/// All atoms but those of the set.
#[tactic(auto, unfolding(crate::specs::Sets::others))]
pub fn complement(set: AtomSet) -> AtomSet
    ensures { result ≡ others width set }
{
    !set
}

/// The lowest atom of the set, where it has any.
pub fn lowest(set: AtomSet) -> Option<Atom>
    ensures { MatchOption result (set ≡ 0) (λ atom. Lowest atom.number set) }
{
    Atom::try_from(set.trailing_zeros() as usize).ok()
}

/// The highest atom of the set, where it has any.
pub fn highest(set: AtomSet) -> Option<Atom>
    ensures { MatchOption result (set ≡ 0) (λ atom. Highest atom.number set) }
{
    Atom::try_from(set.checked_ilog2()? as usize).ok()
}

/// The set without the atom.
pub fn without(set: AtomSet, atom: Atom) -> AtomSet
    ensures { (x : ℕ) → has result x ≡ (has set x && not (x == atom.number)) }
{
    set & !(1 << atom.number())
}
