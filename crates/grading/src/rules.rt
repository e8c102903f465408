//! Rules with the rows of their grades.
ghost use Rattle.std.specs.Prelude.{◌≡◌};
ghost use Rattle.semantics.specs.Plain.{grade_of};

use crate::rows::grade_at;
use scale::scale::Scale;
use semantics::rule::PlainRule;

/// Rules with the rows of their grades: the row at a rule's place is its grade's, and a missing row reads as the bottom.
// Two lifetimes, since `rank_all` lends the rules out of a `&mut`; no `impl Model`, since the struct would not be `Copy` then.
#[derive(Clone, Copy)]
pub struct WeightedRules<'a, 'b, S: Scale> {
    pub rules: &'a [PlainRule],
    pub rows: &'b [S::Row],
}

impl<S: Scale> WeightedRules<'_, '_, S> {
    /// The grade of a rule.
    pub fn grade_of(self, rule: &PlainRule) -> S
        ensures { result ≡ grade_of S.Scale.scale self.entry.rows.now rule.now }
    {
        grade_at::<S>(self.rows, rule.place)
    }
}
