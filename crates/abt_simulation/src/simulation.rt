//! One step of a stream is one event of the machine.

ghost use Rattle.abt_machine.specs.Stored.{Stored};
ghost use Rattle.abt_machine.specs.declared.workload.Parts.{Parts};
ghost use Rattle.abt_simulation.specs.Simulation.{Simulation};

/// A step of a stream's part, with the answer of the object that it called, is an event.
pub fn steps_are_events()
    ensures { (W : Parts) (Z : Stored) → Simulation W Z }
{}
