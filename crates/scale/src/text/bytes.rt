//! The bytes of a text.
ghost use Rattle.std.specs.Prelude.{◌≡◌, ◌≤◌, length, Some};
ghost use Rattle.scale.specs.GradeTexts.{text_of};

use crate::text::GradeText;
use arrayvec::ArrayString;
use std::fmt;

impl GradeText {
    /// The text, which is known to have at most 16 bytes.
    pub(crate) fn new(text: &str) -> GradeText
        requires { length text.now ≤ 16 }
        ensures { text_of result ≡ text.now }
    {
        let mut copy = ArrayString::new();
        copy.push_str(text);
        GradeText { text: copy }
    }

    /// The text as bytes.
    pub fn as_bytes(&self) -> &[u8]
        ensures { result.now ≡ text_of self.now }
    {
        self.text.as_str().as_bytes()
    }
}

impl fmt::Display for GradeText {
    ghost output = { λ text. Some (text_of text) };

    fn fmt<W: fmt::Write>(&self, f: &mut fmt::Formatter<W>) -> fmt::Result {
        f.write_str(self.text.as_str())
    }
}
