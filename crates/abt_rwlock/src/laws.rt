//! Laws of reader-writer locks: each function's contract is a law, and its body is empty.

ghost use Rattle.abt_rwlock.specs.Keeps.{RwLocksKeepTheirUnits, RwLocksKeepWhatFits};

/// If the units that a lock holds and that come in fit a workload, those that come out and that it then holds do too.
pub fn rwlocks_keep_what_fits()
    ensures { RwLocksKeepWhatFits }
{}

/// A lock has room for as many units as it was made for.
pub fn rwlocks_keep_their_units()
    ensures { RwLocksKeepTheirUnits }
{}
