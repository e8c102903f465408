//! The least admissible set.
ghost use Rattle.search.specs.Admissible.{Finds, FittingAt};

use crate::bounds::Bounds;
use crate::rules_at::RulesAt;
use semantics::set::{AtomSet, highest};

impl RulesAt<'_> {
    /// The least admissible set that fits the bounds. The open atom with the greatest number is tried absent first, so that
    /// the first set that is found is the least.
    pub fn least(&self, given: Bounds) -> Option<AtomSet>
        ensures { Finds (FittingAt self.now given) result }
    {
        let b = self.narrow(given)?;
        let Some(atom) = highest(b.open()) else {
            return Some(b.present);
        };
        let without = b.with_absent(atom);
        let including = b.with_present(atom);
        // No `or_else`: that was tried, and a recursion through a closure needs a measure of the closure too.
        match self.least(without) {
            Some(set) => Some(set),
            None => self.least(including),
        }
    }
}
