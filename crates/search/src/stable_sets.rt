//! The stable sets of some rules, one after another.
ghost use Rattle.std.specs.Prelude.{◌≡◌};
ghost use Rattle.std.specs.Iterator.{at_most};
ghost use Rattle.search.specs.Admissible.{Finds, Stable};
ghost use Rattle.search.specs.StableSets.{left, Lists};

use crate::listing::{first, next_after};
use semantics::rule::PlainRule;
use semantics::set::AtomSet;

/// The stable sets that are left to list, rising.
#[derive(Clone, Copy, PartialEq, Eq, Debug)]
pub struct StableSets<'a> {
    rules: &'a [PlainRule],
    next: Option<AtomSet>,
}

impl<'a> StableSets<'a> {
    /// All stable sets of the rules.
    pub fn of(rules: &'a [PlainRule]) -> StableSets<'a>
        ensures rules { result.rules.now ≡ rules.now }
        ensures next { Finds (Stable rules.now) result.next }
    {
        StableSets {
            rules,
            next: first(rules),
        }
    }
}

impl Iterator for StableSets<'_> {
    type Item = AtomSet;

    ghost next_gives = { Lists };

    ghost remaining = { λ sets. at_most (left sets.next) };

    fn next(&mut self) -> Option<AtomSet> {
        let set = self.next?;
        self.next = next_after(self.rules, set);
        Some(set)
    }
}
