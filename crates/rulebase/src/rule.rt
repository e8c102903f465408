//! A record of the rule table.
use semantics::set::AtomSet;

/// A rule without its grade, which lies in the grade table at the same place. The mark tells an empty place.
#[derive(Clone, Copy, PartialEq, Eq, Debug)]
pub struct Rule {
    pub head: u8,
    pub pos: AtomSet,
    pub neg: AtomSet,
    // A flag and no `Option` of the rest: the table is the caller's, and its records stay plain.
    pub marked: bool,
}

impl Rule {
    /// The record of an empty place.
    pub const EMPTY: Rule = Rule {
        head: 0,
        pos: 0,
        neg: 0,
        marked: false,
    };
}
