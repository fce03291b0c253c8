//! The journal of all logs.

ghost use Rattle.abt_machine.specs.Stored.{Stored};
ghost use Rattle.abt_machine.specs.declared.workload.Parts.{Parts};
ghost use Rattle.abt_simulation.specs.Journals.{JournalsAreMerges, JournalsCount, JournalsExist, NothingIsWorn};

/// There is exactly one journal, and it is what the logs' events merge to.
pub fn journals_exist()
    ensures exist { (W : Parts) (Z : Stored) → JournalsExist W Z }
    ensures merge { (W : Parts) (Z : Stored) → JournalsAreMerges W Z }
{}

/// Its steps and events are those of the logs.
pub fn journals_count()
    ensures { (W : Parts) (Z : Stored) → JournalsCount W Z }
{}

/// If stamps leave no gap and logs are short, no clock is worn.
pub fn nothing_is_worn()
    ensures { (W : Parts) (Z : Stored) → NothingIsWorn W Z }
{}
