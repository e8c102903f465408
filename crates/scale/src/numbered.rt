//! The texts of the points: decimal, with no leading zero.
ghost use Rattle.std.specs.Prelude.{Some};
ghost use Rattle.scale.specs.Numbered.{point_text, point_texts};
ghost use Rattle.scale.specs.Texts.{Parsed};

use crate::point::Point;
use crate::text::GradeText;
use crate::written::Written;
use itoa::Buffer;
use std::fmt;

impl Written for Point {
    ghost texts = { point_texts };

    fn text(self) -> GradeText {
        GradeText::new(Buffer::new().format(self.value()))
    }

    fn parse(bytes: &[u8]) -> Option<Point> {
        point_numbered(bytes)
    }
}

/// The point whose number the bytes are. A function of its own, whose clause says so in words: the trait's is `texts.parse`.
#[tactic(auto, using(crate::proofs::Shapes::no_number))]
fn point_numbered(bytes: &[u8]) -> Option<Point>
    ensures { Parsed point_text bytes.now result }
{
    match bytes {
        [a @ b'0'..=b'9'] => Some(Point::new(*a - b'0')),
        [a @ b'1'..=b'9', b @ b'0'..=b'9'] => Some(Point::new((*a - b'0') * 10 + (*b - b'0'))),
        b"100" => Some(Point::new(100)),
        _ => None,
    }
}

impl fmt::Display for Point {
    ghost output = { λ point. Some (point_text point) };

    fn fmt<W: fmt::Write>(&self, f: &mut fmt::Formatter<W>) -> fmt::Result {
        write!(f, "{}", self.value())
    }
}
