//! What a look forgets.

ghost use Rattle.abt_machine.specs.Stored.{Stored};
ghost use Rattle.abt_machine.specs.declared.workload.Parts.{Parts};
ghost use Rattle.abt_events.specs.Requests.{LooksForget};

/// After a look nothing is asked of the unit.
pub fn looks_forget()
    ensures { (W : Parts) (Z : Stored) → LooksForget W Z }
{}
