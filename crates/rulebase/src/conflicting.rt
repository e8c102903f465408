//! How much the rules held contradict each other.
ghost use Rattle.std.specs.Prelude.{◌≡◌, ◌↔◌};
ghost use Rattle.rulebase.specs.Calls.{state_in, SomeStable};
ghost use Rattle.rulebase.specs.Reference.{reply, grade as graded, mended, held};
ghost use Rattle.rulebase.specs.Runs.{Performs};
ghost use Rattle.semantics.specs.Sets.{width};

use crate::base::RuleBase;
use crate::call::Call;
use arrayvec::ArrayVec;
use grading::conflict::conflict;
use scale::scale::Scale;

/// The grade that a mend cut at, and how many rules went.
#[derive(Clone, Copy, PartialEq, Eq, Debug)]
pub struct Mended<S> {
    pub grade: S,
    pub emptied: usize,
}

impl<S: Scale> RuleBase<'_, S> {
    /// The conflict grade of the rules held.
    #[tactic(auto, unfolding(crate::specs::Reference::reply, crate::specs::Tables::state_of))]
    pub fn conflict(&self) -> S
        ensures answer { graded result ≡ reply S.Scale.scale.order width (state_in S.Scale.scale self.now) Call.Conflict }
        ensures bottom { let s = S.Scale.scale in (result ≡ s.order.bottom) ↔ SomeStable s.order (held (state_in s self.now).places) }
    {
        let mut held = ArrayVec::new();
        self.read_held(&mut held);
        conflict::<S>(held.as_mut_slice(), self.grades.rows)
    }

    /// Cuts at the conflict grade, one time; answers that grade and how many.
    pub fn mend(&mut self) -> Mended<S>
        ensures { Performs S.Scale.scale self.old Call.Mend (mended result.grade result.emptied) self.new }
    {
        let grade = self.conflict();
        let emptied = self.cut(grade);
        Mended { grade, emptied }
    }
}
