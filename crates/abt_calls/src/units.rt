//! Calls and steps keep each unit.

ghost use Rattle.abt_calls.specs.Units.{CallsKeepUnits, EffectsKeepUnits, OwnStepsKeepUnits, StepsKeepUnits};

/// An object that answers has the units that it had and that came, except those that come out.
pub fn calls_keep_units()
    ensures { CallsKeepUnits }
{}

/// A stream that is answered has the unit that it had and those that came out, except the one that went with the act.
pub fn effects_keep_units()
    ensures { EffectsKeepUnits }
{}

/// A step with no call keeps its unit.
pub fn own_steps_keep_units()
    ensures { OwnStepsKeepUnits }
{}

/// A step with a call keeps its unit and those of the object.
pub fn steps_keep_units()
    ensures { StepsKeepUnits }
{}
