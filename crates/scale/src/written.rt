//! Grades that have a text.
ghost use Rattle.std.specs.Prelude.{◌≡◌, Some};
ghost use Rattle.scale.specs.GradeTexts.{text_of};
ghost use Rattle.scale.specs.Texts.{Texts};

use crate::scale::Scale;
use crate::text::GradeText;

/// A scale whose grades have texts.
pub trait Written: Scale {
    // The text of each grade and the grade of each text, with their laws, which each `impl` must prove.
    ghost texts: { Texts Self };

    /// The grade's text.
    fn text(self) -> GradeText
        ensures { text_of result ≡ texts.of self };

    /// The grade whose text the bytes are, or none.
    fn parse(bytes: &[u8]) -> Option<Self>
        ensures { result ≡ texts.parse bytes.now };
}

/// Writes a grade and reads it back.
pub fn round_trip<S: Written>(grade: S) -> Option<S>
    ensures { result ≡ Some grade }
{
    let text = grade.text();
    S::parse(text.as_bytes())
}
