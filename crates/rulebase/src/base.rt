//! The rule base over its two tables.
use crate::cursor::Cursor;
use crate::grades::GradeTable;
use crate::rule::Rule;
use scale::scale::Scale;

/// At most so many places.
pub const PLACES: usize = 1024;

/// Rules and grades in the caller's tables, and where the enumeration stands.
#[derive(Drop)]
pub struct RuleBase<'a, S: Scale> {
    pub rules: &'a mut [Rule],
    pub grades: GradeTable<'a, S>,
    pub cursor: Cursor,
}
