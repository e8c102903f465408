//! Rules with a threshold.
ghost use Rattle.std.specs.Prelude.{◌≡◌, ◌≤◌, Decides};

use semantics::rule::PlainRule;

/// Rules, the strong ones among them by a threshold: a rule is strong where its rank is at least the threshold. At the
/// threshold 0 every rule is.
#[derive(Clone, Copy, PartialEq, Eq, Debug)]
pub struct RulesAt<'a> {
    pub rules: &'a [PlainRule],
    pub threshold: usize,
}

impl<'a> RulesAt<'a> {
    /// The rules, each of them strong.
    pub fn all_strong(rules: &'a [PlainRule]) -> Self
        ensures rules { result.rules.now ≡ rules.now }
        ensures threshold { result.threshold ≡ 0 }
    {
        RulesAt {
            rules,
            threshold: 0,
        }
    }

    /// Is the rule strong?
    pub(crate) fn is_strong(&self, rule: &PlainRule) -> bool
        ensures { Decides result (self.now.threshold ≤ rule.now.rank) }
    {
        rule.rank >= self.threshold
    }
}
