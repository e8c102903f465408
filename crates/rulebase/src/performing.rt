//! One call by value.
ghost use Rattle.std.specs.Prelude.{◌≡◌, length as count};
ghost use Rattle.rulebase.specs.Calls.{state_in};
ghost use Rattle.rulebase.specs.Runs.{told, kept_rows, within, Performs};

use crate::base::RuleBase;
use crate::call::{Answer, Call};
use scale::refusal::Refusal;
use scale::scale::Scale;

impl<S: Scale> RuleBase<'_, S> {
    /// Performs one call. A fetch takes the front of `rows` for its buffer, and no more of it than there is.
    #[tactic(auto, unfolding(crate::specs::Reference::reply, crate::specs::Reference::next))]
    pub fn perform(&mut self, call: Call<S>, rows: &mut [S::Row]) -> Result<Answer<S>, Refusal>
        ensures performs { Performs S.Scale.scale self.old (within (count rows.old) call) (told S.Scale.scale result rows.new) self.new }
        ensures rows { rows.new ≡ kept_rows S.Scale.scale (state_in S.Scale.scale self.old) result rows.old }
    {
        // A `match` and no closures: calls are values, so that a law can speak of every list of them.
        match call {
            Call::Enter {
                place,
                head,
                pos,
                neg,
                grade,
            } => {
                self.enter(place, head, pos, neg, grade)?;
                Ok(Answer::Done)
            }
            Call::Strike { place } => {
                self.strike(place)?;
                Ok(Answer::Done)
            }
            Call::Cut { grade } => Ok(Answer::Emptied(self.cut(grade))),
            Call::Mend => Ok(Answer::Mended(self.mend())),
            Call::Rewind => {
                self.rewind();
                Ok(Answer::Done)
            }
            Call::Fetch { length } => {
                let front = length.min(rows.len());
                Ok(Answer::Fetched(self.fetch(&mut rows[..front])?))
            }
            Call::Conflict => Ok(Answer::Conflict(self.conflict())),
        }
    }
}
