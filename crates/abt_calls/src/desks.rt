//! A unit that ends or is suspended comes back to its own desk, and finds it out.

ghost use Rattle.abt_machine.specs.Stored.{Stored};
ghost use Rattle.abt_machine.specs.declared.workload.Parts.{Parts};
ghost use Rattle.abt_calls.specs.OwnDesks.{HandsAreOut, StepsBringBack};
ghost use Rattle.abt_calls.specs.Returns.{EntriesComeBack};

/// The desk of a unit that is in a stream's hand is out, and takes back this unit.
pub fn hands_are_out()
    ensures { HandsAreOut }
{}

/// A step brings a unit back to its own desk alone, which is out.
pub fn steps_bring_back()
    ensures { StepsBringBack }
{}

/// In the histories of a run a unit that ends or is suspended comes back to its own desk, which is out.
pub fn entries_come_back()
    ensures { (W : Parts) (Z : Stored) → EntriesComeBack W Z }
{}
