//! Cutting the rules held at a grade.
ghost use Rattle.std.specs.Prelude.{◌≡◌, ◌<◌, slice_set};
ghost use Rattle.rulebase.specs.Calls.{rules_in, rows_in};
ghost use Rattle.rulebase.specs.Reference.{emptied};
ghost use Rattle.rulebase.specs.Runs.{Performs};
ghost use Rattle.rulebase.specs.Tables.{count_of, empty_record, empty_row};

use crate::base::RuleBase;
use crate::call::Call;
use crate::cursor::Cursor;
use crate::rule::Rule;
use scale::scale::Scale;

impl<S: Scale> RuleBase<'_, S> {
    /// Empties a place; the cursor stays.
    pub(crate) fn clear(&mut self, place: usize)
        requires { place < count_of (rules_in self.old) (rows_in self.old) }
        ensures rules { rules_in self.new ≡ slice_set (rules_in self.old) place empty_record }
        ensures rows { rows_in self.new ≡ slice_set (rows_in self.old) place (empty_row S.Scale.scale) }
        ensures cursor { self.new.cursor ≡ self.old.cursor }
        ensures rules_name { self.new.rules.ghost_name ≡ self.old.rules.ghost_name }
        ensures rows_name { self.new.grades.rows.ghost_name ≡ self.old.grades.rows.ghost_name }
    {
        self.rules[place] = Rule::EMPTY;
        self.grades.put(place, S::bottom());
    }

    /// Empties each place whose rule's grade is at most `grade`, and answers how many.
    pub fn cut(&mut self, grade: S) -> usize
        ensures { Performs S.Scale.scale self.old (Call.Cut grade) (emptied result) self.new }
    {
        let count = self.places();
        let mut emptied = 0;
        // By number: the checker has no rule for lending both tables of `self` at once.
        for place in 0..count {
            if self
                .rule_at(place)
                .is_some_and(|entry| entry.grade.at_most(grade))
            {
                self.clear(place);
                emptied += 1;
            }
        }
        self.cursor = Cursor::Stale;
        emptied
    }
}
