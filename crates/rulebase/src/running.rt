//! Lists of calls. Each call has its own 64 rows of one buffer.
ghost use Rattle.std.specs.Prelude.{◌≡◌, take, drop};
ghost use Rattle.rulebase.specs.Laws.{FetchedAreLowestStable, NoMoreIffNoneLeft, HeldAreLawful, GradesAreNecessities};
ghost use Rattle.rulebase.specs.Laws.{GradesAreReadings, ConflictIsLeastObjection, BottomConflictIffSomeStable};
ghost use Rattle.rulebase.specs.Lists.{performed_of, first_calls, PerformsAll, RunsAgree};

use crate::base::RuleBase;
use crate::call::{Answer, Call};
use crate::rule::Rule;
use scale::refusal::Refusal;
use scale::scale::Scale;
use semantics::atom::ATOMS;

/// The rule base after a run from its opening, and how many calls were performed.
#[derive(Drop)]
pub struct Ran<'a, S: Scale> {
    pub base: RuleBase<'a, S>,
    pub performed: usize,
}

impl<S: Scale> RuleBase<'_, S> {
    /// Performs the calls in order and writes their answers; the call `i` takes the rows from `64 * i` on, 64 of them, for
    /// its buffer. It stops where the calls, the answers or the rows end, and answers how many calls it performed.
    // The caller lends the answers and the readings: there may be any number of calls, and the rule base has no memory of its own.
    pub fn run(
        &mut self,
        calls: &[Call<S>],
        answers: &mut [Result<Answer<S>, Refusal>],
        readings: &mut [S::Row],
    ) -> usize
        ensures count { result ≡ performed_of calls.now answers.old readings.old }
        ensures performs { PerformsAll S.Scale.scale self.old (first_calls result calls.now) (take result answers.new) readings.old readings.new self.new }
        ensures rest { drop result answers.new ≡ drop result answers.old }
    {
        let performed = calls.len().min(answers.len()).min(readings.len() / ATOMS);
        // The call and the rows go by the index: the checker knows nothing of what a `zip` of mutable iterators writes.
        for (i, answer) in answers[..performed].iter_mut().enumerate() {
            let from = ATOMS * i;
            *answer = self.perform(calls[i], &mut readings[from..from + ATOMS]);
        }
        performed
    }
}

/// Opens a rule base over the two tables and performs the calls. Its contract is the law over every list of calls: the
/// answers are the reference's, the tables are exactly those of the reference's places, and what the answers mean.
pub fn run_all<'a, S: Scale>(
    rules: &'a mut [Rule],
    rows: &'a mut [S::Row],
    calls: &[Call<S>],
    answers: &mut [Result<Answer<S>, Refusal>],
    readings: &mut [S::Row],
) -> Ran<'a, S>
    ensures agrees { RunsAgree S.Scale.scale rules.old rows.old calls.now answers.old readings.old answers.new readings.new result.base result.performed }
    ensures fetched { FetchedAreLowestStable S }
    ensures no_more { NoMoreIffNoneLeft S }
    ensures lawful { HeldAreLawful S }
    ensures necessities { GradesAreNecessities S }
    ensures graded { GradesAreReadings S }
    ensures conflicts { ConflictIsLeastObjection S }
    ensures bottom { BottomConflictIffSomeStable S }
    ensures rules_name { result.base.rules.ghost_name ≡ rules.entry.ghost_name }
    ensures rows_name { result.base.grades.rows.ghost_name ≡ rows.entry.ghost_name }
{
    let mut base = RuleBase::<S>::open(rules, rows);
    let performed = base.run(calls, answers, readings);
    Ran { base, performed }
}
