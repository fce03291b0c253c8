//! How the machine's logs and histories grow, and how a history of all objects yields one of each.

ghost use Rattle.abt_machine.specs.Stored.{Stored};
ghost use Rattle.abt_machine.specs.declared.workload.Parts.{Parts};
ghost use Rattle.abt_interleave.specs.Laws.{CourseGrows, CoursesJoin, GatheredGrows, GatheredJoin, HistoriesJoin, HistorySplits, LegalGrows, MatchedGrows, MatchedJoin};
ghost use Rattle.abt_simulation.specs.Merging.{machine_of};

/// One more turn of a stream.
pub fn turns_extend()
    ensures course { (W : Parts) (Z : Stored) → CourseGrows (machine_of W Z) }
    ensures history { (W : Parts) (Z : Stored) → LegalGrows (machine_of W Z) }
    ensures fit { (W : Parts) (Z : Stored) → MatchedGrows (machine_of W Z) }
    ensures all { (W : Parts) (Z : Stored) → GatheredGrows (machine_of W Z) }
{}

/// One more wave of streams.
pub fn waves_join()
    ensures course { (W : Parts) (Z : Stored) → CoursesJoin (machine_of W Z) }
    ensures history { (W : Parts) (Z : Stored) → HistoriesJoin (machine_of W Z) }
    ensures fit { (W : Parts) (Z : Stored) → MatchedJoin (machine_of W Z) }
    ensures all { (W : Parts) (Z : Stored) → GatheredJoin (machine_of W Z) }
{}

/// A history of all objects yields one of each.
pub fn histories_split()
    ensures { (W : Parts) (Z : Stored) → HistorySplits (machine_of W Z) }
{}
