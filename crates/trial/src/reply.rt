//! Answers as they are printed.
use rulebase::call::Answer;
use rulebase::conflicting::Mended;
use scale::point::Point;
use scale::refusal::Refusal;
use scale::scale::{Scale, is_above_bottom};
use semantics::set::AtomSet;
use std::fmt;

/// An answer or a refusal, with the rows of its reading.
#[derive(Clone, Copy)]
pub struct Reply<'a> {
    pub answer: Result<Answer<Point>, Refusal>,
    pub rows: &'a [u8],
}

impl fmt::Display for Reply<'_> {
    fn fmt<W: fmt::Write>(&self, f: &mut fmt::Formatter<W>) -> fmt::Result {
        let Reply { answer, rows } = *self;
        match answer {
            Err(refusal) => write!(f, "refused {refusal}"),
            Ok(Answer::Done) => f.write_str("done"),
            Ok(Answer::Emptied(count)) => write!(f, "{count}"),
            Ok(Answer::Mended(Mended { grade, emptied })) => write!(f, "{grade} {emptied}"),
            Ok(Answer::Fetched(Some(set))) => write!(f, "{}", Reading { set, rows }),
            Ok(Answer::Fetched(None)) => f.write_str("no more"),
            Ok(Answer::Conflict(grade)) => write!(f, "{grade}"),
        }
    }
}

/// A reading: its set's number, and each atom above the bottom with its grade, rising.
#[derive(Clone, Copy)]
struct Reading<'a> {
    set: AtomSet,
    rows: &'a [u8],
}

impl fmt::Display for Reading<'_> {
    fn fmt<W: fmt::Write>(&self, f: &mut fmt::Formatter<W>) -> fmt::Result {
        write!(f, "{}", self.set)?;
        let grades = self.rows.iter().copied().map(Point::read).enumerate();
        for (atom, grade) in grades.filter(|(_, grade)| is_above_bottom(*grade)) {
            write!(f, " {atom} {grade}")?;
        }
        Ok(())
    }
}
