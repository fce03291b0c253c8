//! Laws of soundness.

ghost use Rattle.abt_machine.specs.Stored.{Stored};
ghost use Rattle.abt_machine.specs.declared.workload.Parts.{Parts};
ghost use Rattle.abt_laws.specs.Laws.{EventsKeepSound, RunsAreSound, StartIsSound};

/// The start is sound.
pub fn start_is_sound()
    ensures { (W : Parts) (Z : Stored) → StartIsSound W Z }
{}

/// Every event leads from a sound state to a sound state.
pub fn events_keep_sound()
    ensures { (W : Parts) (Z : Stored) → EventsKeepSound W Z }
{}

/// Every state of a run is sound.
pub fn runs_are_sound()
    ensures { (W : Parts) (Z : Stored) → RunsAreSound W Z }
{}
