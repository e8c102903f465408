//! Opening a rule base over two tables, and closing it.
ghost use Rattle.std.specs.Prelude.{◌≡◌, ◌++◌, drop, replicate};
ghost use Rattle.rulebase.specs.Calls.{rules_in, rows_in, state_in};
ghost use Rattle.rulebase.specs.Reference.{opened};
ghost use Rattle.rulebase.specs.Tables.{count_of, empty_record, empty_row};
ghost use Rattle.semantics.specs.Sets.{width};

use crate::base::{PLACES, RuleBase};
use crate::cursor::Cursor;
use crate::grades::GradeTable;
use crate::rule::Rule;
use scale::scale::Scale;

/// Both tables, handed back.
#[derive(Drop)]
pub struct Tables<'a, S: Scale> {
    pub rules: &'a mut [Rule],
    pub rows: &'a mut [S::Row],
}

impl<'a, S: Scale> RuleBase<'a, S> {
    /// A rule base over the two tables, all its places empty. It has as many places as the shorter table, at most 1,024;
    /// entries beyond are never touched.
    pub fn open(rules: &'a mut [Rule], rows: &'a mut [S::Row]) -> RuleBase<'a, S>
        ensures state { state_in S.Scale.scale result ≡ opened S.Scale.scale.order width (count_of rules.old rows.old) }
        ensures rules { let n = count_of rules.old rows.old in rules_in result ≡ replicate n empty_record ++ drop n rules.old }
        ensures rows { let n = count_of rules.old rows.old in rows_in result ≡ replicate n (empty_row S.Scale.scale) ++ drop n rows.old }
        ensures rules_name { result.rules.ghost_name ≡ rules.entry.ghost_name }
        ensures rows_name { result.grades.rows.ghost_name ≡ rows.entry.ghost_name }
    {
        let base = RuleBase {
            rules,
            grades: GradeTable::<S>::over(rows),
            cursor: Cursor::Stale,
        };
        let count = base.places();
        base.rules[0..count].fill(Rule::EMPTY);
        let row = S::bottom().row();
        base.grades.rows[0..count].fill_with(|| row);
        base
    }

    /// Hands both tables back.
    pub fn tables(self) -> Tables<'a, S>
        ensures rules { result.rules.now ≡ self.entry.rules.now }
        ensures rows { result.rows.now ≡ self.entry.grades.rows.now }
        ensures rules_name { result.rules.ghost_name ≡ self.entry.rules.ghost_name }
        ensures rows_name { result.rows.ghost_name ≡ self.entry.grades.rows.ghost_name }
    {
        let RuleBase {
            rules,
            grades,
            cursor: _,
        } = self;
        let rows = grades.into_rows();
        Tables { rules, rows }
    }

    /// How many places there are.
    pub fn places(&self) -> usize
        ensures { result ≡ count_of (rules_in self.now) (rows_in self.now) }
    {
        self.rules.len().min(self.grades.len()).min(PLACES)
    }
}
