//! The stable set that a cursor comes to next.
ghost use Rattle.search.specs.Admissible.{Finds};
ghost use Rattle.rulebase.specs.Ahead.{start, Ahead};

use crate::cursor::Cursor;
use search::listing::{first, next_after};
use semantics::rule::PlainRule;
use semantics::set::AtomSet;

/// The least stable set that the cursor has not passed; a stale one has passed none.
#[tactic(auto, using(semantics::proofs::Objections::stable_is_below))]
pub(crate) fn following(rules: &[PlainRule], cursor: Cursor) -> Option<AtomSet>
    ensures { Finds (Ahead rules.now (start cursor)) result }
{
    match cursor {
        Cursor::Stale | Cursor::First => first(rules),
        Cursor::After(set) => next_after(rules, set),
        Cursor::Ended => None,
    }
}
