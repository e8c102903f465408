//! What a place holds.
ghost use Rattle.std.specs.Prelude.{◌≡◌, ◌<◌, ◌≤◌, OnOk, IfOk, IfErr};
ghost use Rattle.scale.specs.declared.refusal.Refusal.TheVariants.{NoSuchPlace};
ghost use Rattle.rulebase.specs.Calls.{rules_in, rows_in, state_in};
ghost use Rattle.rulebase.specs.Entries.{entered};
ghost use Rattle.rulebase.specs.Reference.{at};
ghost use Rattle.rulebase.specs.Tables.{count_of, place_of};

use crate::base::RuleBase;
use crate::rule::Rule;
use scale::refusal::Refusal;
use scale::scale::{Scale, is_above_bottom};
use semantics::atom::Atom;
use semantics::set::AtomSet;

/// A rule with its grade, as a place holds it.
#[derive(Clone, Copy, PartialEq, Eq, Debug)]
pub struct Entry<S> {
    pub head: Atom,
    pub pos: AtomSet,
    pub neg: AtomSet,
    pub grade: S,
}

/// The rule that a record and its row hold: the record is marked, its head is an atom and its grade is above the bottom.
pub(crate) fn entry_of<S: Scale>(rule: Rule, row: S::Row) -> Option<Entry<S>>
    ensures { entered result ≡ place_of S.Scale.scale rule row }
{
    // The mark first: an empty place takes no more, and its row is not read.
    if !rule.marked {
        return None;
    }
    let head = Atom::try_from(usize::from(rule.head)).ok()?;
    let grade = S::read(row);
    if !is_above_bottom(grade) {
        return None;
    }
    Some(Entry {
        head,
        pos: rule.pos,
        neg: rule.neg,
        grade,
    })
}

impl<S: Scale> RuleBase<'_, S> {
    /// The rule that the place holds, if it holds one; a place beyond the last is refused.
    #[tactic(auto, using(crate::proofs::Staying::place_steps), unfolding(crate::specs::Tables::state_of))]
    pub(crate) fn entry_at(&self, place: usize) -> Result<Option<Entry<S>>, Refusal>
        ensures there { OnOk result (place < count_of (rules_in self.now) (rows_in self.now)) }
        ensures entry { IfOk result (λ entry. entered entry ≡ at (state_in S.Scale.scale self.now).places place) }
        ensures refused { IfErr result (λ e. (e ≡ NoSuchPlace) × (count_of (rules_in self.now) (rows_in self.now) ≤ place)) }
    {
        if place >= self.places() {
            return Err(Refusal::NoSuchPlace);
        }
        Ok(entry_of::<S>(self.rules[place], self.grades.rows[place]))
    }

    /// The rule that the place holds, if it holds one; a place beyond the last holds none.
    #[tactic(auto, using(crate::proofs::Staying::place_steps), unfolding(crate::specs::Tables::state_of))]
    pub fn rule_at(&self, place: usize) -> Option<Entry<S>>
        ensures { entered result ≡ at (state_in S.Scale.scale self.now).places place }
    {
        self.entry_at(place).ok().flatten()
    }
}
