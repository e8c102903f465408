//! The set that is objected to least.
ghost use Rattle.std.specs.Option.{MatchOption};
ghost use Rattle.search.specs.Admissible.{NoSuch, Candidate, LeastObjected};
ghost use Rattle.search.specs.Objection.{Unbroken, Worst};

use crate::bounds::Bounds;
use crate::rules_at::RulesAt;
use semantics::broken::is_broken;
use semantics::rule::PlainRule;
use semantics::set::AtomSet;

/// The greatest rank of a rule that `set` breaks.
pub fn broken_rank(rules: &[PlainRule], set: AtomSet) -> Option<usize>
    ensures { MatchOption result (Unbroken rules.now set) (Worst rules.now set) }
{
    rules
        .iter()
        .filter(|rule| is_broken(rule, set))
        .map(|rule| rule.rank)
        .max()
}

/// The candidate that is objected to least: founded in the reduct by it, and within the bounds.
pub fn least_objection(rules: &[PlainRule], bounds: Bounds) -> Option<AtomSet>
    ensures { MatchOption result (NoSuch (Candidate rules.now bounds)) (LeastObjected rules.now bounds) }
{
    let mut best = None;
    // Above all ranks: at first no rule is strong.
    let mut threshold = usize::MAX;
    while let Some(set) = (RulesAt { rules, threshold }).least(bounds) {
        best = Some(set);
        let Some(worst) = broken_rank(rules, set) else {
            return best;
        };
        threshold = worst;
    }
    best
}
