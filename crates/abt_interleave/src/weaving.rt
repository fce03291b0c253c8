//! How a wave of streams, each of which sees prefixes of the locks' lines, makes logs and histories.

ghost use Rattle.abt_interleave.specs.Weaving.{GoneAlong, GoneFurther, GoneNowhere, IdleLocksLeave, OwnDeedsShow, WavesWeave};

use crate::machine::AnyMachine;

/// What a stream has done in a wave, and sees: at first, with one deed more, and if a call came to nothing.
pub fn streams_go<M: AnyMachine, L>()
    ensures nowhere { GoneNowhere M.machine L }
    ensures further { GoneFurther M.machine L }
    ensures own { OwnDeedsShow M.machine L }
    ensures along { GoneAlong M.machine L }
{}

/// The logs and histories of a wave.
pub fn waves_weave<M: AnyMachine, L>()
    ensures { WavesWeave M.machine L }
{}

/// A lock that nobody called.
pub fn idle_locks_leave<M: AnyMachine, L>()
    ensures { IdleLocksLeave M.machine L }
{}
