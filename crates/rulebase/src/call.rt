//! The calls of a rule base as values, and their answers.
use crate::conflicting::Mended;
use semantics::set::AtomSet;

/// A call with its arguments; of a buffer its length.
#[derive(Clone, Copy, PartialEq, Eq, Debug)]
pub enum Call<S> {
    /// Enters a rule at an empty place. Its parts come one by one: each is asked about by a question of its own, and each
    /// is read alone.
    Enter {
        place: usize,
        head: usize,
        pos: AtomSet,
        neg: AtomSet,
        grade: S,
    },
    /// Takes the rule at a place out.
    Strike {
        place: usize,
    },
    /// Empties each place whose rule's grade is at most this one.
    Cut {
        grade: S,
    },
    /// Cuts at the conflict grade.
    Mend,
    /// Puts the cursor before the first stable set.
    Rewind,
    /// Asks for the next stable set, its reading in a buffer of so many rows.
    Fetch {
        length: usize,
    },
    /// Asks for the conflict grade.
    Conflict,
}

/// What a call that is not refused answers. The rows of a reading lie in a buffer.
#[derive(Clone, Copy, PartialEq, Eq, Debug)]
pub enum Answer<S> {
    /// The rule is entered or taken out, or the cursor is rewound.
    Done,
    /// So many rules went by a cut.
    Emptied(usize),
    /// The grade that a mend cut at, and how many rules went.
    Mended(Mended<S>),
    /// The next stable set, or none where all have been fetched.
    Fetched(Option<AtomSet>),
    /// The conflict grade of the rules held.
    Conflict(S),
}
