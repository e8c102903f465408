//! Rows read as grades.
ghost use Rattle.std.specs.Prelude.{◌≡◌};
ghost use Rattle.semantics.specs.Plain.{grade_in, over};

use scale::scale::Scale;

/// The grade in the rows at a place; the bottom where there is no such row.
pub fn grade_at<S: Scale>(rows: &[S::Row], place: usize) -> S
    ensures { result ≡ grade_in S.Scale.scale rows.now place }
{
    match rows.get(place) {
        Some(row) => S::read(*row),
        None => S::bottom(),
    }
}

/// Lays `rows` over the front of `into`, as far as both go; what lies beyond stays.
pub fn lay_over<R: Copy>(into: &mut [R], rows: &[R])
    ensures { into.new ≡ over rows.now into.old }
{
    let shared = rows.len().min(into.len());
    into[..shared].copy_from_slice(&rows[..shared]);
}
