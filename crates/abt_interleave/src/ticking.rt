//! Stamps of one turn more.

ghost use Rattle.abt_interleave.specs.Ticking.{LastsAreClocks, NextFollowsClock, NextIsLate, NoGapGrows, TimedGrows, TimedLeavesNoGap};

use crate::machine::AnyMachine;

/// The next stamp: later than all of its stream and its object, and one more than a clock.
pub fn next_stamps<M: AnyMachine>()
    ensures lasts { LastsAreClocks M.machine }
    ensures late { NextIsLate M.machine }
    ensures follows { NextFollowsClock M.machine }
{}

/// Stamps by Lamport's rule stay so with the next one.
pub fn timed_grows<M: AnyMachine>()
    ensures { TimedGrows M.machine }
{}

/// Stamps that leave no gap leave none with one that is one more than a clock.
pub fn no_gap_grows<M: AnyMachine>()
    ensures { NoGapGrows M.machine }
{}

/// Stamps by Lamport's rule leave no gap.
pub fn timed_leaves_no_gap<M: AnyMachine>()
    ensures { TimedLeavesNoGap M.machine }
{}
