//! Graded sets of the sample's atoms.
use crate::name::Name;
use scale::point::Point;
use scale::scale::{Scale, is_above_bottom};
use semantics::atom::ATOMS;
use std::fmt;

/// A graded set: for each atom the row of its grade.
#[derive(Clone, Copy)]
pub struct GradedSet {
    pub rows: [u8; ATOMS],
}

impl GradedSet {
    /// No atom is above the bottom.
    pub fn nothing() -> GradedSet {
        GradedSet {
            rows: [Point::bottom().row(); ATOMS],
        }
    }
}

impl fmt::Display for GradedSet {
    fn fmt<W: fmt::Write>(&self, f: &mut fmt::Formatter<W>) -> fmt::Result {
        let grades = self.rows.iter().copied().map(Point::read);
        let mut above = Name::ALL
            .iter()
            .zip(grades)
            .filter(|(_, grade)| is_above_bottom(*grade))
            .peekable();
        if above.peek().is_none() {
            return f.write_str("nothing");
        }
        for (i, (name, grade)) in above.enumerate() {
            let before = if i == 0 { "" } else { ", " };
            write!(f, "{before}{name} {grade}")?;
        }
        Ok(())
    }
}
