//! How much the rules contradict each other.
ghost use Rattle.std.specs.Prelude.{◌≡◌};
ghost use Rattle.semantics.specs.Sets.{width};
ghost use Rattle.semantics.specs.Rules.{conflict};
ghost use Rattle.semantics.specs.Plain.{by_place, grade_of, weighted};
ghost use Rattle.grading.specs.Ranks.{grades, rank_among, ranks, ranks_of};

use crate::rules::WeightedRules;
use scale::scale::Scale;
use search::bounds::Bounds;
use search::objection::least_objection;
use semantics::rule::PlainRule;

impl<S: Scale> WeightedRules<'_, '_, S> {
    /// How many rules have a grade below that of this rule.
    fn rank_of(self, rule: &PlainRule) -> usize
        ensures { result ≡ rank_among S.Scale.scale.order (grades S.Scale.scale self.entry.rows.now self.entry.rules.now) (grade_of S.Scale.scale self.entry.rows.now rule.now) }
    {
        let grade = self.grade_of(rule);
        self.rules
            .iter()
            .filter(|other| !grade.at_most(self.grade_of(other)))
            .count()
    }
}

/// Gives every rule the rank of its grade; all else of the rules stays. The rules are apart from the rows, since they alone
/// are written.
pub fn rank_all<S: Scale>(rules: &mut [PlainRule], rows: &[S::Row])
    ensures kept { by_place rules.new ≡ by_place rules.old }
    ensures ranked { ranks rules.new ≡ ranks_of S.Scale.scale rows.now rules.old }
{
    // By index: each rule is compared with all of them while the ranks are written.
    for i in 0..rules.len() {
        let rule = rules[i];
        let rank = WeightedRules::<S> { rules, rows }.rank_of(&rule);
        rules[i].rank = rank;
    }
}

/// The conflict of the rules: the least objection among all sets. The rules get the ranks of their grades; all else of
/// them stays.
#[tactic(auto, using(crate::proofs::Conflicts::conflict_found, crate::proofs::Conflicts::conflict_unfound))]
pub fn conflict<S: Scale>(rules: &mut [PlainRule], rows: &[S::Row]) -> S
    ensures grade { result ≡ conflict S.Scale.scale.order width (weighted S.Scale.scale rules.old rows.now) }
    ensures kept { by_place rules.new ≡ by_place rules.old }
    ensures ranked { ranks rules.new ≡ ranks_of S.Scale.scale rows.now rules.old }
{
    rank_all::<S>(rules, rows);
    match least_objection(rules, Bounds::OPEN) {
        Some(set) => WeightedRules::<S> { rules, rows }.objection(set),
        None => S::top(),
    }
}
