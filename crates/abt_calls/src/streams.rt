//! What every event of a stream keeps.

ghost use Rattle.abt_calls.specs.Streams.{EventsFit, EventsHoldOne, EventsKeepUnits, StreamsHoldOne};

/// A stream of a sound state does not have a unit in hand and one in Next at the same time.
pub fn streams_hold_one()
    ensures { StreamsHoldOne }
{}

/// Nor does it after an event, if it did not before.
pub fn events_hold_one()
    ensures { EventsHoldOne }
{}

/// The units that a stream has after an event fit the workload, if those before it and what it heard do.
pub fn events_fit()
    ensures { EventsFit }
{}

/// A stream has the units that it had and that came, except the one that went.
pub fn events_keep_units()
    ensures { EventsKeepUnits }
{}
