//! Listing the readings.
ghost use Rattle.std.specs.Prelude.{◌≡◌, ◌≤◌, length};
ghost use Rattle.rulebase.specs.Ahead.{Read};
ghost use Rattle.rulebase.specs.Calls.{state_in, told_fetch, fetched_rows};
ghost use Rattle.rulebase.specs.Runs.{Performs};
ghost use Rattle.semantics.specs.Sets.{width};

use crate::base::RuleBase;
use crate::call::Call;
use crate::cursor::Cursor;
use crate::following::following;
use arrayvec::ArrayVec;
use grading::rules::WeightedRules;
use scale::refusal::Refusal;
use scale::scale::Scale;
use semantics::atom::ATOMS;
use semantics::set::AtomSet;

impl<S: Scale> RuleBase<'_, S> {
    /// The next stable set, where there is one left; the rows of its reading are laid over the front of the buffer.
    fn read_next(&self, buffer: &mut [S::Row]) -> Option<AtomSet>
        requires { width ≤ length buffer.old }
        ensures { Read S.Scale.scale (state_in S.Scale.scale self.now) buffer.old buffer.new result }
    {
        let mut held = ArrayVec::new();
        self.read_held(&mut held);
        let rules = held.as_slice();
        let set = following(rules, self.cursor)?;
        let rows = &*self.grades.rows;
        WeightedRules::<S> { rules, rows }.consequences(set, buffer)?;
        Some(set)
    }

    /// The next stable set, with the rows of its reading in the front of the buffer; or none where all have been fetched,
    /// and again so until a rewind or a change.
    #[tactic(auto, unfolding(crate::specs::Reference::reply, crate::specs::Reference::next, crate::specs::Tables::state_of))]
    pub fn fetch(&mut self, buffer: &mut [S::Row]) -> Result<Option<AtomSet>, Refusal>
        ensures performs { Performs S.Scale.scale self.old (Call.Fetch (length buffer.old)) (told_fetch S.Scale.scale result buffer.new) self.new }
        ensures buffer { buffer.new ≡ fetched_rows S.Scale.scale (state_in S.Scale.scale self.old) result buffer.old }
    {
        if self.cursor == Cursor::Stale {
            return Err(Refusal::StaleCursor);
        }
        if buffer.len() < ATOMS {
            return Err(Refusal::ShortGradeBuffer);
        }
        let next = self.read_next(buffer);
        self.cursor = next.map_or(Cursor::Ended, Cursor::After);
        Ok(next)
    }
}
