//! A grade of 0 to 100 points.
ghost use Rattle.std.specs.Prelude.{◌≡◌, ◌≤◌};

/// A number from 0 to 100. A type of its own, so that no atom can stand for a grade.
#[derive(Clone, Copy, PartialEq, Eq, PartialOrd, Ord, Debug)]
pub struct Point {
    value: u8,
    ghost ok: { value ≤ 100 },
}

impl Point {
    /// The point of a number that is known to be at most 100.
    pub(crate) fn new(value: u8) -> Point
        requires { value ≤ 100 }
        ensures { result.value ≡ value }
    {
        Point { value }
    }

    /// The number of points.
    pub fn value(self) -> u8
        ensures { result ≡ self.value }
    {
        self.value
    }
}
