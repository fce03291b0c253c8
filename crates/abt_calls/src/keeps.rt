//! What objects of all kinds and steps keep.

ghost use Rattle.abt_calls.specs.Keeps.{EffectsFit, ObjectsKeepWhatFits, OwnStepsFit, StartFits};

/// If the units that an object holds and that come in fit a workload, those that come out and that it then holds do too, and
/// the same holds for pools.
pub fn objects_keep_what_fits()
    ensures { ObjectsKeepWhatFits }
{}

/// What a declared object holds at the start is the workload's.
pub fn start_fits()
    ensures { StartFits }
{}

/// A step with no call leaves a unit that fits.
pub fn own_steps_fit()
    ensures { OwnStepsFit }
{}

/// A step with a call leaves units that fit, if those that come out do.
pub fn effects_fit()
    ensures { EffectsFit }
{}
