//! A totally ordered scale of grades.
ghost use Rattle.std.specs.Prelude.{◌≡◌};
ghost use Rattle.scale.specs.Laws.{Scaled, greater, lesser, above};

/// Grades in a total order with a least and a greatest one, and the rows that stand for them.
// No `Ord` and no `Eq` above it: they would ask more of every scale that is written elsewhere.
pub trait Scale: Copy {
    /// What lies in tables and buffers in place of a grade.
    type Row: Copy;

    // The order and the rows, with their laws, which each `impl` must prove.
    ghost scale: { Scaled Self Self.Row };

    /// Is this grade at most the other?
    fn at_most(self, other: Self) -> bool
        ensures { result ≡ scale.order.at_most self other };

    /// The least grade.
    fn bottom() -> Self
        ensures { result ≡ scale.order.bottom };

    /// The greatest grade.
    fn top() -> Self
        ensures { result ≡ scale.order.top };

    /// The row that stands for this grade.
    fn row(self) -> Self::Row
        ensures { result ≡ scale.row_of self };

    /// The grade that a row stands for: every row reads as some grade.
    fn read(row: Self::Row) -> Self
        ensures { result ≡ scale.read_of row };
}

/// The greater of two grades.
#[tactic(auto, unfolding(crate::specs::Laws::greater))]
pub fn greater_of<S: Scale>(a: S, b: S) -> S
    ensures { result ≡ greater S.Scale.scale.order a b }
{
    if a.at_most(b) { b } else { a }
}

/// The lesser of two grades.
#[tactic(auto, unfolding(crate::specs::Laws::lesser))]
pub fn lesser_of<S: Scale>(a: S, b: S) -> S
    ensures { result ≡ lesser S.Scale.scale.order a b }
{
    if a.at_most(b) { a } else { b }
}

/// Is the grade above the bottom?
#[tactic(auto, unfolding(crate::specs::Laws::above))]
pub fn is_above_bottom<S: Scale>(a: S) -> bool
    ensures { result ≡ above S.Scale.scale.order a }
{
    !a.at_most(S::bottom())
}
