//! A small machine of which the laws hold, so that what they suppose is known to be met.

ghost use Rattle.abt_interleave.specs.CounterLocks.{LocksForEach, OneLockForBoth};
ghost use Rattle.abt_interleave.specs.Counters.{CountersMerge};

/// Two streams add to two counters.
pub fn counters_merge()
    ensures { CountersMerge }
{}

/// The counters have a lock each.
pub fn locks_for_each()
    ensures { LocksForEach }
{}

/// One lock is round both counters.
pub fn one_lock_for_both()
    ensures { OneLockForBoth }
{}
