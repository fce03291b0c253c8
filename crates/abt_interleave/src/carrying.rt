//! Waves one after the other, with clocks that are carried from each to the next.

ghost use Rattle.abt_interleave.specs.Carrying.{NoneMeetsWorn, TimesBegin, TimesGoOn, WavesBegin, WavesGoOn};

use crate::machine::AnyMachine;

/// All waves, whatever objects stand behind one lock: before the first one, and with one more.
pub fn waves_go_on<M: AnyMachine, L>()
    ensures begin { WavesBegin M.machine L }
    ensures go { WavesGoOn M.machine L }
{}

/// If each object has a lock of its own, stamps are Lamport's.
pub fn times_go_on<M: AnyMachine, L>()
    ensures begin { TimesBegin M.machine L }
    ensures go { TimesGoOn M.machine L }
{}

/// No clock is worn in a wave after which no stamp is.
pub fn none_meets_worn<M: AnyMachine, L>()
    ensures { NoneMeetsWorn M.machine L }
{}
