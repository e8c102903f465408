//! Reading the rules held out of the tables.
ghost use Rattle.std.specs.Prelude.{◌≡◌};
ghost use Rattle.rulebase.specs.Calls.{rows_in, state_in};
ghost use Rattle.rulebase.specs.Reference.{held as rules_held};
ghost use Rattle.semantics.specs.Plain.{weighted};

use crate::base::{PLACES, RuleBase};
use crate::holding::entry_of;
use arrayvec::ArrayVec;
use scale::scale::Scale;
use semantics::rule::PlainRule;

impl<S: Scale> RuleBase<'_, S> {
    /// Puts the rules held into `held` in the order of their places, and nothing else. The caller makes the room, so that the
    /// rules are not copied once more.
    pub(crate) fn read_held(&self, held: &mut ArrayVec<PlainRule, PLACES>)
        ensures { weighted S.Scale.scale held.new.items (rows_in self.now) ≡ rules_held (state_in S.Scale.scale self.now).places }
    {
        held.clear();
        let count = self.places();
        let places = self.rules[..count]
            .iter()
            .zip(self.grades.rows[..count].iter());
        for (place, (record, row)) in places.enumerate() {
            if let Some(entry) = entry_of::<S>(*record, *row) {
                held.push(PlainRule::new(entry.head, entry.pos, entry.neg, place));
            }
        }
    }
}
