//! The texts of the words.
ghost use Rattle.std.specs.Prelude.{Some};
ghost use Rattle.scale.specs.Spelled.{word_text, word_texts};
ghost use Rattle.scale.specs.Texts.{Parsed};

use crate::text::GradeText;
use crate::word::Word;
use crate::written::Written;
use std::fmt;

impl Written for Word {
    ghost texts = { word_texts };

    fn text(self) -> GradeText {
        match self {
            Word::Nil => GradeText::new("none"),
            Word::Faint => GradeText::new("faint"),
            Word::Fair => GradeText::new("fair"),
            Word::Firm => GradeText::new("firm"),
            Word::Sure => GradeText::new("sure"),
        }
    }

    fn parse(bytes: &[u8]) -> Option<Word> {
        word_spelled(bytes)
    }
}

/// The word that the bytes spell. A function of its own, whose clause says so in words: the trait's is `texts.parse`. The
/// clause ties this list of texts to that of `text`.
#[tactic(auto, using(std::proofs::lemmas::Slice::Eq::text_from_reads))]
fn word_spelled(bytes: &[u8]) -> Option<Word>
    ensures { Parsed word_text bytes.now result }
{
    match bytes {
        b"none" => Some(Word::Nil),
        b"faint" => Some(Word::Faint),
        b"fair" => Some(Word::Fair),
        b"firm" => Some(Word::Firm),
        b"sure" => Some(Word::Sure),
        _ => None,
    }
}

impl fmt::Display for Word {
    ghost output = { λ word. Some (word_text word) };

    fn fmt<W: fmt::Write>(&self, f: &mut fmt::Formatter<W>) -> fmt::Result {
        write!(f, "{}", self.text())
    }
}
