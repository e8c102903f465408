//! Points as a scale.
ghost use Rattle.scale.specs.Points.{points, PointFrom};

use crate::point::Point;
use crate::refusal::Refusal;
use crate::scale::Scale;

/// The point of that many points; a number above 100 is refused.
impl TryFrom<u64> for Point {
    type Error = Refusal;

    ghost try_from_gives = { PointFrom };

    fn try_from(number: u64) -> Result<Point, Refusal> {
        if number <= 100 {
            Ok(Point::new(number as u8))
        } else {
            Err(Refusal::PointOutOfRange)
        }
    }
}

impl Scale for Point {
    type Row = u8;

    ghost scale = { points };

    fn at_most(self, other: Point) -> bool {
        self <= other
    }

    fn bottom() -> Point {
        Point::new(0)
    }

    fn top() -> Point {
        Point::new(100)
    }

    fn row(self) -> u8 {
        self.value()
    }

    fn read(row: u8) -> Point {
        Point::new(if row <= 100 { row } else { 0 })
    }
}
