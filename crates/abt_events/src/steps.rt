//! Each event of the machine is one step of a stream.

ghost use Rattle.abt_machine.specs.Stored.{Stored};
ghost use Rattle.abt_machine.specs.declared.workload.Parts.{Parts};
ghost use Rattle.abt_events.specs.Steps.{EventsAreSteps, NamedSitesAreCalled, OthersCallNothing};

/// An event is a step of its stream's part, with the answer of the object that it calls.
pub fn events_are_steps()
    ensures { (W : Parts) (Z : Stored) → EventsAreSteps W Z }
{}

/// An event that names a site calls the object there.
pub fn named_sites_are_called()
    ensures { (W : Parts) (Z : Stored) → NamedSitesAreCalled W Z }
{}

/// An event that names no site makes no call.
pub fn others_call_nothing()
    ensures { (W : Parts) (Z : Stored) → OthersCallNothing W Z }
{}
