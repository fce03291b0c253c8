//! What one event may touch, and which events may change places.

ghost use Rattle.abt_machine.specs.Stored.{Stored};
ghost use Rattle.abt_machine.specs.declared.workload.Parts.{Parts};
ghost use Rattle.abt_laws.specs.Laws.{EventsAreLocal, EventsCommute};

/// An event changes only its stream, at most one site, and units that these keep.
pub fn events_are_local()
    ensures { (W : Parts) (Z : Stored) → EventsAreLocal W Z }
{}

/// Two events of different streams and different sites may change places.
pub fn events_commute()
    ensures { (W : Parts) (Z : Stored) → EventsCommute W Z }
{}
