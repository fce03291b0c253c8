//! Laws of barriers: each function's contract is a law, and its body is empty.

ghost use Rattle.abt_barrier.specs.Keeps.{BarriersKeepWhatFits, BarriersLackAParty};

/// If the units that a barrier holds and that arrive fit a workload, those that go through and that it then holds do too.
pub fn barriers_keep_what_fits()
    ensures { BarriersKeepWhatFits }
{}

/// A barrier keeps its number of parties, and has fewer waiters than parties, from the start and after each call.
pub fn barriers_lack_a_party()
    ensures { BarriersLackAParty }
{}
