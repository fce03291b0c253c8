//! How rounds end.

ghost use Rattle.abt_machine.specs.Stored.{Stored};
ghost use Rattle.abt_machine.specs.declared.workload.Parts.{Parts};
ghost use Rattle.abt_events.specs.Rounds.{MissesEndRounds, TakesEndRounds};

/// A take ends the round, which is then not empty.
pub fn takes_end_rounds()
    ensures { (W : Parts) (Z : Stored) → TakesEndRounds W Z }
{}

/// A miss of the last pool ends the round empty; after any other the round goes on.
pub fn misses_end_rounds()
    ensures { (W : Parts) (Z : Stored) → MissesEndRounds W Z }
{}
