//! Laws of runs of one stream.

ghost use Rattle.abt_machine.specs.Stored.{Stored};
ghost use Rattle.abt_machine.specs.declared.workload.Parts.{Parts};
ghost use Rattle.abt_outcomes.specs.Laws.{EmptyRoundsEnd, StampsCount, StopsAreLast, StopsAreOne, StopsGrow, StopsHaveOutcomes};

/// A run of one stream is stamped exactly if its stamps count its events.
pub fn stamps_count()
    ensures { (W : Parts) (Z : Stored) → StampsCount W Z }
{}

/// With one stream an empty round of the main scheduler leaves nothing to do.
pub fn empty_rounds_end()
    ensures { (W : Parts) (Z : Stored) → EmptyRoundsEnd W Z }
{}

/// With one stream a run that stops has an outcome.
pub fn stops_have_outcomes()
    ensures { (W : Parts) (Z : Stored) → StopsHaveOutcomes W Z }
{}

/// With one stream and without a free order there is at most one stamped run that goes to its stop.
pub fn stops_are_one()
    ensures { (W : Parts) (Z : Stored) → StopsAreOne W Z }
{}

/// A journal that has not stopped grows by one event, or goes to its stop by it.
pub fn stops_grow()
    ensures { (W : Parts) → StopsGrow W }
{}

/// A journal stops by its last event.
pub fn stops_are_last()
    ensures { (W : Parts) → StopsAreLast W }
{}
