//! The stable sets, in rising order.
ghost use Rattle.std.specs.Prelude.{ℕ, ◌<◌, Decides};
ghost use Rattle.semantics.specs.Sets.{width, has};
ghost use Rattle.search.specs.Admissible.{Finds, Stable};
ghost use Rattle.search.specs.Listing.{Later, Branch};

use crate::bounds::Bounds;
use crate::rules_at::RulesAt;
use semantics::atom::Atom;
use semantics::atoms::Atoms;
use semantics::rule::PlainRule;
use semantics::set::{AtomSet, complement, with};

/// The least stable set.
pub fn first(rules: &[PlainRule]) -> Option<AtomSet>
    ensures { Finds (Stable rules.now) result }
{
    RulesAt::all_strong(rules).least(Bounds::OPEN)
}

/// The atoms with a greater number.
fn above(atom: Atom) -> AtomSet
    ensures { (x : ℕ) → Decides (has result x) ((atom.number < x) × (x < width)) }
{
    let below = (1 << atom.number()) - 1;
    complement(with(below, atom))
}

/// The least stable set that has the atom, and agrees with `set` above it.
fn first_from(rules: &[PlainRule], set: AtomSet, atom: Atom) -> Option<AtomSet>
    ensures { Finds (Branch rules.now set atom.number) result }
{
    let higher = above(atom);
    let agreeing = Bounds {
        present: with(set & higher, atom),
        absent: complement(set) & higher,
    };
    RulesAt::all_strong(rules).least(agreeing)
}

/// The least stable set above `set`.
pub fn next_after(rules: &[PlainRule], set: AtomSet) -> Option<AtomSet>
    ensures { Finds (Later rules.now set) result }
{
    // No `find_map`: that was tried, and what its clauses say did not give the contract.
    for atom in Atoms::of(complement(set)) {
        if let Some(next) = first_from(rules, set, atom) {
            return Some(next);
        }
    }
    None
}
