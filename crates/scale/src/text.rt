//! The text of a grade, held as a value.
ghost use Rattle.std.specs.Prelude.{◌≤◌, length};

use arrayvec::ArrayString;

mod bytes;

/// The text of a grade: at most 16 bytes, which lie in the value.
#[derive(Clone, Copy, PartialEq, Eq, Debug)]
pub struct GradeText {
    text: ArrayString<16>,
    ghost fits: { length text.bytes ≤ 16 },
}
