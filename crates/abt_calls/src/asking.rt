//! What a stream calls may be called.

ghost use Rattle.abt_calls.specs.Asking.{EndsMayCall, LooksMayCall, PlansMayCall, PutsMayCall, TakesMayCall};

/// What is planned at the operation of a unit may be called.
pub fn plans_may_call()
    ensures { PlansMayCall }
{}

/// A declared pool may be asked for a unit at the end at which a stream takes.
pub fn takes_may_call()
    ensures { TakesMayCall }
{}

/// A unit may be put into its home.
pub fn puts_may_call()
    ensures { PutsMayCall }
{}

/// A unit's desk may be looked at.
pub fn looks_may_call()
    ensures { LooksMayCall }
{}

/// A unit may end at its desk.
pub fn ends_may_call()
    ensures { EndsMayCall }
{}
