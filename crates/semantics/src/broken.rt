//! Rules that a set breaks.
ghost use Rattle.std.specs.Prelude.{Decides};
ghost use Rattle.semantics.specs.Plain.{Broken};

use crate::rule::PlainRule;
use crate::set::{AtomSet, contains, is_disjoint, is_subset};

/// Does the rule stand in the reduct by `set`, and does `set` break it there?
pub fn is_broken(rule: &PlainRule, set: AtomSet) -> bool
    ensures { Decides result (Broken set rule.now) }
{
    is_disjoint(rule.neg, set) && is_subset(rule.pos, set) && !contains(set, rule.head)
}
