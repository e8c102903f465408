//! The table of grades.
ghost use Rattle.std.specs.Prelude.{◌≡◌, ◌<◌, length, slice_set};

use scale::scale::Scale;

/// The caller's rows: one table for every scale, whose methods pass the slice on in that scale's terms.
#[derive(Drop)]
pub struct GradeTable<'a, S: Scale> {
    pub rows: &'a mut [S::Row],
}

impl<'a, S: Scale> GradeTable<'a, S> {
    /// The table over the caller's rows.
    pub fn over(rows: &'a mut [S::Row]) -> GradeTable<'a, S>
        ensures rows { result.rows.now ≡ rows.old }
        ensures rows_name { result.rows.ghost_name ≡ rows.entry.ghost_name }
    {
        GradeTable { rows }
    }

    /// Hands the rows back.
    pub fn into_rows(self) -> &'a mut [S::Row]
        ensures rows { result.now ≡ self.entry.rows.now }
        ensures rows_name { result.ghost_name ≡ self.entry.rows.ghost_name }
    {
        let GradeTable { rows } = self;
        rows
    }

    /// How many rows there are.
    pub fn len(&self) -> usize
        ensures { result ≡ length self.now.rows.now }
    {
        self.rows.len()
    }

    /// Puts a grade at a place.
    pub(crate) fn put(&mut self, place: usize, grade: S)
        requires { place < length self.old.rows.now }
        ensures rows { self.new.rows.now ≡ slice_set self.old.rows.now place (S.Scale.scale.row_of grade) }
        ensures rows_name { self.new.rows.ghost_name ≡ self.old.rows.ghost_name }
    {
        self.rows[place] = grade.row();
    }
}
