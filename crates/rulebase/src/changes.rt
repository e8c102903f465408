//! Changes to the rules held.
ghost use Rattle.rulebase.specs.Calls.{said};
ghost use Rattle.rulebase.specs.Reference.{done};
ghost use Rattle.rulebase.specs.Runs.{Performs};

use crate::base::RuleBase;
use crate::call::Call;
use crate::cursor::Cursor;
use crate::rule::Rule;
use scale::refusal::Refusal;
use scale::scale::{Scale, is_above_bottom};
use semantics::atom::Atom;
use semantics::set::AtomSet;

impl<S: Scale> RuleBase<'_, S> {
    /// The list of stable sets stands before the first.
    #[tactic(auto, unfolding(crate::specs::Reference::reply, crate::specs::Reference::next, crate::specs::Tables::state_of))]
    pub fn rewind(&mut self)
        ensures { Performs S.Scale.scale self.old Call.Rewind done self.new }
    {
        self.cursor = Cursor::First;
    }

    /// Enters a rule at an empty place. Any number may be handed in as the head.
    #[tactic(auto, using(crate::proofs::Setting::entry_steps), unfolding(crate::specs::Reference::reply, crate::specs::Reference::next, crate::specs::Tables::state_of))]
    pub fn enter(
        &mut self,
        place: usize,
        head: usize,
        pos: AtomSet,
        neg: AtomSet,
        grade: S,
    ) -> Result<(), Refusal>
        ensures { Performs S.Scale.scale self.old (Call.Enter place head pos neg grade) (said result) self.new }
    {
        if self.entry_at(place)?.is_some() {
            return Err(Refusal::PlaceTaken);
        }
        let atom = Atom::try_from(head)?;
        if !is_above_bottom(grade) {
            return Err(Refusal::BottomGrade);
        }
        self.rules[place] = Rule {
            head: atom.number(),
            pos,
            neg,
            marked: true,
        };
        self.grades.put(place, grade);
        self.cursor = Cursor::Stale;
        Ok(())
    }

    /// Takes the rule at a place out.
    #[tactic(auto, using(crate::proofs::Staying::place_steps), unfolding(crate::specs::Reference::reply, crate::specs::Reference::next, crate::specs::Tables::state_of))]
    pub fn strike(&mut self, place: usize) -> Result<(), Refusal>
        ensures { Performs S.Scale.scale self.old (Call.Strike place) (said result) self.new }
    {
        if self.entry_at(place)?.is_none() {
            return Err(Refusal::PlaceEmpty);
        }
        self.clear(place);
        self.cursor = Cursor::Stale;
        Ok(())
    }
}
