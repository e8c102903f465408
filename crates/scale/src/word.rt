//! Five words of certainty.
ghost use Rattle.scale.specs.Words.{words};

use crate::scale::Scale;

/// The five words, from the least to the greatest.
#[derive(Clone, Copy, PartialEq, Eq, PartialOrd, Ord, Debug)]
pub enum Word {
    /// Not certain at all; its text is `none`.
    Nil,
    Faint,
    Fair,
    Firm,
    Sure,
}

impl Scale for Word {
    type Row = Word;

    ghost scale = { words };

    fn at_most(self, other: Word) -> bool {
        self <= other
    }

    fn bottom() -> Word {
        Word::Nil
    }

    fn top() -> Word {
        Word::Sure
    }

    fn row(self) -> Word {
        self
    }

    fn read(row: Word) -> Word {
        row
    }
}
