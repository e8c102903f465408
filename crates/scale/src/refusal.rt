//! Why a call is refused.
ghost use Rattle.std.specs.Prelude.{◌≡◌, Some, decimal};
ghost use Rattle.scale.specs.Refusals.{number_of};

use std::error::Error;
use std::fmt;

/// The reasons for which any part of the product refuses, each with its number. Those from 8 to 15 are promised to readers
/// and writers of texts; nothing refuses with them yet.
#[derive(Clone, Copy, PartialEq, Eq, Debug)]
pub enum Refusal {
    /// The place is not below the number of places.
    NoSuchPlace = 1,
    /// The place holds a rule.
    PlaceTaken = 2,
    /// The head is not below the number of atoms.
    NoSuchAtom = 3,
    /// The grade is the bottom.
    BottomGrade = 4,
    /// The place holds no rule.
    PlaceEmpty = 5,
    /// There was no rewind since opening or since the last change.
    StaleCursor = 6,
    /// The grade buffer has fewer entries than there are atoms.
    ShortGradeBuffer = 7,
    /// The text is too long.
    TextTooLong = 8,
    /// The rule base holds rules already.
    NotEmpty = 9,
    /// The byte is not allowed here.
    UnexpectedByte = 10,
    /// The word is too long.
    WordTooLong = 11,
    /// The grammar does not allow this word or mark here.
    UnexpectedToken = 12,
    /// The word is the text of no grade.
    NotAGrade = 13,
    /// There are too many names.
    TooManyNames = 14,
    /// The line does not fit the buffer.
    LineTooLong = 15,
    /// A number above 100 is no point.
    PointOutOfRange = 16,
}

/// The number under which the refusal is known.
impl From<Refusal> for u8 {
    ghost from_gives = { λ refusal number. number ≡ number_of refusal };

    fn from(refusal: Refusal) -> u8 {
        refusal as u8
    }
}

/// Writes the number.
impl fmt::Display for Refusal {
    ghost output = { λ refusal. Some (decimal (number_of refusal)) };

    fn fmt<W: fmt::Write>(&self, f: &mut fmt::Formatter<W>) -> fmt::Result {
        write!(f, "{}", u8::from(*self))
    }
}

impl Error for Refusal {}
