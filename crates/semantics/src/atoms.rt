//! The atoms of a set, one after the other.
ghost use Rattle.std.specs.Prelude.{◌≡◌};
ghost use Rattle.std.specs.Iterator.{YieldsFirstBy, item_count};
ghost use Rattle.semantics.specs.Members.{members, TakesLowest};
ghost use Rattle.semantics.specs.Sets.{width};

use crate::atom::Atom;
use crate::set::{AtomSet, lowest, without};

/// The atoms that are still to come, rising.
#[derive(Clone, Copy, PartialEq, Eq, Debug)]
pub struct Atoms {
    rest: AtomSet,
}

impl Atoms {
    /// The atoms of the set, rising.
    pub fn of(set: AtomSet) -> Atoms
        ensures { result.rest ≡ set }
    {
        Atoms { rest: set }
    }
}

impl Iterator for Atoms {
    type Item = Atom;

    ghost next_gives = { λ it taken left. TakesLowest it.rest taken left.rest × YieldsFirstBy (λ atom. atom.number) (λ it. members width it.rest) it taken left };

    ghost remaining = { item_count (λ it. members width it.rest) };

    fn next(&mut self) -> Option<Atom> {
        let atom = lowest(self.rest)?;
        self.rest = without(self.rest, atom);
        Some(atom)
    }
}
