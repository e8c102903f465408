//! Pairs of grades, in the order of a dictionary.
ghost use Rattle.scale.specs.Pairs.{pairs};

use crate::scale::Scale;

/// Two grades: the first decides, and where the first ones are equal, the second.
#[derive(Clone, Copy, PartialEq, Eq, Debug)]
pub struct Pair<A, B> {
    pub first: A,
    pub second: B,
}

impl<A: Scale, B: Scale> Scale for Pair<A, B> {
    type Row = (A::Row, B::Row);

    ghost scale = { pairs A.Scale.scale B.Scale.scale };

    fn at_most(self, other: Pair<A, B>) -> bool {
        self.first.at_most(other.first)
            && (!other.first.at_most(self.first) || self.second.at_most(other.second))
    }

    fn bottom() -> Pair<A, B> {
        Pair {
            first: A::bottom(),
            second: B::bottom(),
        }
    }

    fn top() -> Pair<A, B> {
        Pair {
            first: A::top(),
            second: B::top(),
        }
    }

    fn row(self) -> (A::Row, B::Row) {
        (self.first.row(), self.second.row())
    }

    fn read(row: (A::Row, B::Row)) -> Pair<A, B> {
        Pair {
            first: A::read(row.0),
            second: B::read(row.1),
        }
    }
}
