//! How much the rules object to a set.
ghost use Rattle.std.specs.Prelude.{◌≡◌};
ghost use Rattle.semantics.specs.Sets.{width};
ghost use Rattle.semantics.specs.Rules.{reduct, worst, objection};
ghost use Rattle.grading.specs.Meaning.{rules_of};

use crate::rules::WeightedRules;
use scale::scale::{Scale, greater_of};
use search::close::founded;
use semantics::broken::is_broken;
use semantics::set::AtomSet;

impl<S: Scale> WeightedRules<'_, '_, S> {
    /// The greatest grade of a rule that `set` breaks in the reduct by it; the bottom where it breaks none.
    fn worst(self, set: AtomSet) -> S
        ensures { result ≡ worst S.Scale.scale.order set (reduct set (rules_of S.Scale.scale self.entry)) }
    {
        self.rules
            .iter()
            .filter(|rule| is_broken(rule, set))
            .map(|rule| self.grade_of(rule))
            .fold(S::bottom(), |worst, grade| greater_of(grade, worst))
    }

    /// The objection to `set` in the reduct by it.
    #[tactic(auto, using(crate::proofs::Conflicts::objection_by_rank))]
    pub fn objection(self, set: AtomSet) -> S
        ensures { result ≡ objection S.Scale.scale.order width (reduct set (rules_of S.Scale.scale self.entry)) set }
    {
        if founded(self.rules, set) {
            self.worst(set)
        } else {
            S::top()
        }
    }
}
