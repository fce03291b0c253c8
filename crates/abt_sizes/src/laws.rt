//! How many events other than misses a run has.

ghost use Rattle.abt_machine.specs.Stored.{Stored};
ghost use Rattle.abt_machine.specs.declared.workload.Parts.{Parts};
ghost use Rattle.abt_sizes.specs.Laws.{EventsAreFew, RunsAreBounded, RunsAreSmall};

/// At most 4 for each step, 1 more for each life that a step begins, 3 for each unit with a start, and
/// 2 more for each life of a scheduler unit.
pub fn events_are_few()
    ensures { (W : Parts) (Z : Stored) → EventsAreFew W Z }
{}

/// So at most 7 for each step, and 5 for each unit with a start.
pub fn runs_are_small()
    ensures { (W : Parts) (Z : Stored) → RunsAreSmall W Z }
{}

/// Without revivals at most 7 for each operation, and 5 for each unit with a start.
pub fn runs_are_bounded()
    ensures { (W : Parts) (Z : Stored) → RunsAreBounded W Z }
{}
