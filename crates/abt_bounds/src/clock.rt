//! Laws of stamps.

ghost use Rattle.abt_machine.specs.declared.workload.Parts.{Parts};
ghost use Rattle.abt_bounds.specs.Laws.{StampsFitPlaces, StampsFitLength};

/// In a stamped journal the stamp of event number i, counted from 0, is at most i + 1.
pub fn stamps_fit_places()
    ensures { (W : Parts) → StampsFitPlaces W }
{}

/// Each stamp of a stamped journal is at most the number of its events.
pub fn stamps_fit_length()
    ensures { (W : Parts) → StampsFitLength W }
{}
