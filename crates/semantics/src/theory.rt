//! The theory of weighted rules: each function's contract is a theorem, and its call does nothing.
ghost use Rattle.semantics.specs.Statements.{WithinSays, DisjointSays, SameAtoms, HasIsWeight};
ghost use Rattle.semantics.specs.Statements.{AddingSays, OthersSays, CollectSays, ReductSays};
ghost use Rattle.semantics.specs.Statements.{StepIsMonotone, ConsequencesAreLeastFixpoint};
ghost use Rattle.semantics.specs.Statements.{ConsequencesSettle, ReadingSettles};
ghost use Rattle.semantics.specs.Statements.{FoundedTestDecides, StableIffFoundedUnbroken};
ghost use Rattle.semantics.specs.Statements.{StableReadingIsFixpoint, StableIffSupport};
ghost use Rattle.semantics.specs.Statements.{ListedAreAllStable, StableOnAnyScale};
ghost use Rattle.semantics.specs.Statements.{BottomObjectionIffStable, BottomObjectionIffSupport};
ghost use Rattle.semantics.specs.Statements.{NecessityIsConsequence, NecessityIsLeastObjection};
ghost use Rattle.semantics.specs.Statements.{GradesAreNecessities, ConflictIsLeastObjection};
ghost use Rattle.semantics.specs.Statements.{BottomConflictIffSomeStable, ConflictIsHeldGrade};

/// What the tests and operations on sets say, atom by atom.
pub fn sets_by_atoms()
    ensures within { WithinSays }
    ensures disjoint { DisjointSays }
    ensures same { SameAtoms }
    ensures weight { HasIsWeight }
    ensures adding { AddingSays }
    ensures others { OthersSays }
    ensures collect { CollectSays }
{}

/// Which rules a reduct has.
pub fn reduct_says<G>()
    ensures { ReductSays G }
{}

/// The step keeps the order of graded sets.
#[tactic(auto, using(crate::proofs::Stages::step_monotone))]
pub fn step_is_monotone<G>()
    ensures { StepIsMonotone G }
{}

/// The consequences are the least graded set that a step does not alter.
pub fn consequences_are_least_fixpoint<G>()
    ensures { ConsequencesAreLeastFixpoint G }
{}

/// A reading is fixed after as many steps as it has atoms.
#[tactic(auto, using(crate::proofs::Fixpoints::consequences_settle, crate::proofs::Fixpoints::reading_settles_lem))]
pub fn reading_settles<G>()
    ensures reading { ReadingSettles G }
    ensures consequences { ConsequencesSettle G }
{}

/// The test for founded sets decides what they are in words.
pub fn founded_test_decides<G>()
    ensures { FoundedTestDecides G }
{}

/// A stable set is one that is founded in its reduct and breaks no rule of it.
pub fn stable_iff_founded_unbroken<G>()
    ensures { StableIffFoundedUnbroken G }
{}

/// Stable sets and their readings are the graded sets that follow from the reduct by their support.
pub fn stable_reading_is_fixpoint<G>()
    ensures reading { StableReadingIsFixpoint G }
    ensures support { StableIffSupport G }
{}

/// The list of the stable sets has them all, rising.
#[tactic(auto, using(crate::proofs::Listing::lists_stable))]
pub fn listed_are_all_stable<G>()
    ensures { ListedAreAllStable G }
{}

/// Which sets are stable does not hang on the scale, nor on the grades above the bottom.
#[tactic(auto, using(crate::proofs::Alike::stable_on_truth))]
pub fn stable_on_any_scale<G>()
    ensures { StableOnAnyScale G }
{}

/// Nothing is held against a set exactly where it is stable.
pub fn bottom_objection_iff_stable<G>()
    ensures stable { BottomObjectionIffStable G }
    ensures support { BottomObjectionIffSupport G }
{}

/// An atom's grade is its necessity: the least objection among the sets without it.
#[tactic(auto, using(crate::proofs::Objections::necessity_is_grade, crate::proofs::Least::necessity_least, crate::proofs::Least::grades_least))]
pub fn necessity_is_consequence<G>()
    ensures consequence { NecessityIsConsequence G }
    ensures least { NecessityIsLeastObjection G }
    ensures grades { GradesAreNecessities G }
{}

/// The conflict is the least objection among all sets.
#[tactic(auto, using(crate::proofs::Least::conflict_least))]
pub fn conflict_is_least_objection<G>()
    ensures { ConflictIsLeastObjection G }
{}

/// The conflict is the bottom exactly where some set is stable.
pub fn bottom_conflict_iff_some_stable<G>()
    ensures { BottomConflictIffSomeStable G }
{}

/// The conflict is the bottom or the grade of a rule.
#[tactic(auto, using(crate::proofs::Least::conflict_held))]
pub fn conflict_is_held_grade<G>()
    ensures { ConflictIsHeldGrade G }
{}
