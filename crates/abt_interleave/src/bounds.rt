//! Stamps are few, so that no clock is ever worn.

ghost use Rattle.abt_interleave.specs.Bounds.{NeverWorn, StampedStaysLow, StampsAreFew};

use crate::machine::AnyMachine;

/// No stamp of a stamped list is greater than its length.
pub fn stamped_stays_low<M: AnyMachine>()
    ensures { StampedStaysLow M.machine }
{}

/// Stamps that leave no gap are at most as many as the deeds.
pub fn stamps_are_few<M: AnyMachine>()
    ensures { StampsAreFew M.machine }
{}

/// A machine of at most 64 streams with logs shorter than 2^55 has all stamps below 2^62.
pub fn never_worn<M: AnyMachine>()
    ensures { NeverWorn M.machine }
{}
