//! Laws of eventuals and futures: each function's contract is a law, and its body is empty.

ghost use Rattle.abt_eventual.specs.Keeps.{EventualsKeepWhatFits, FuturesKeepWhatFits, FuturesStaySound, ReadyEventualsHaveNoWaiters};

/// If the units that an eventual holds and that come in fit a workload, those that come out and that it then holds do too.
pub fn eventuals_keep_what_fits()
    ensures { EventualsKeepWhatFits }
{}

/// If the units that a future holds and that come in fit a workload, those that come out and that it then holds do too.
pub fn futures_keep_what_fits()
    ensures { FuturesKeepWhatFits }
{}

/// An eventual that is ready has no waiters, from the start and after each call.
pub fn ready_eventuals_have_no_waiters()
    ensures { ReadyEventualsHaveNoWaiters }
{}

/// A future keeps its size and its rule, has at most that many compartments filled, and no waiters if it is ready, from
/// the start and after each call.
pub fn futures_stay_sound()
    ensures { FuturesStaySound }
{}
