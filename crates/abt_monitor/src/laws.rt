//! Laws of monitors: each function's contract is a law, and its body is empty.

ghost use Rattle.abt_monitor.specs.Keeps.{FreeMutexesHaveNoWaiters, MonitorsKeepTheirConditions, MonitorsKeepWhatFits};

/// If the units that a monitor holds and that come in fit a workload, those that come out and that it then holds do too.
pub fn monitors_keep_what_fits()
    ensures { MonitorsKeepWhatFits }
{}

/// A monitor's conditions stay as many as it was made with.
pub fn monitors_keep_their_conditions()
    ensures { MonitorsKeepTheirConditions }
{}

/// A mutex that is free has no waiters, from the start and after each call.
pub fn free_mutexes_have_no_waiters()
    ensures { FreeMutexesHaveNoWaiters }
{}
