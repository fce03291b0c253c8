//! Logs and histories as one run.

ghost use Rattle.abt_interleave.specs.Laws.{EventsLift, HistorySplits, LogsMerge};

use crate::machine::AnyMachine;

/// The sorted list of all deeds is a run.
pub fn logs_merge<M: AnyMachine>()
    ensures { LogsMerge M.machine }
{}

/// A sorted list of events, one for each deed, is the sorted list of the deeds.
pub fn events_lift<M: AnyMachine, E>()
    ensures { EventsLift M.machine E }
{}

/// A history of all objects makes a history of each.
pub fn history_splits<M: AnyMachine>()
    ensures { HistorySplits M.machine }
{}
