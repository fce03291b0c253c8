//! Units that are lost if what the laws suppose does not hold.

ghost use Rattle.abt_calls.specs.Losing.{UnsuitedAreLost, WaitsAreLost};

/// A unit that waits at a condition that its monitor does not have is lost.
pub fn waits_are_lost()
    ensures { WaitsAreLost }
{}

/// Units that come with an answer that does not suit are lost.
pub fn unsuited_are_lost()
    ensures { UnsuitedAreLost }
{}
