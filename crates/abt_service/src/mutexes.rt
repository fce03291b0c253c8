//! Laws of mutexes.

ghost use Rattle.abt_machine.specs.Stored.{Stored};
ghost use Rattle.abt_machine.specs.declared.workload.Parts.{Parts};
ghost use Rattle.abt_service.specs.Laws.{
  EventsServe,
  HandedInOrder,
  LocksWaitInOrder,
  ServedInOrder,
  WaitersKeepOrder,
};

/// An unlock makes the first waiter the owner, and the others wait on in their order.
pub fn handed_in_order()
    ensures { (W : Parts) (Z : Stored) → HandedInOrder W Z }
{}

/// A unit that locks an owned mutex waits behind those that wait.
pub fn locks_wait_in_order()
    ensures { (W : Parts) (Z : Stored) → LocksWaitInOrder W Z }
{}

/// By every event a mutex that is handed over goes to the first waiter; at any other event all wait
/// on, and whoever comes stands behind them.
pub fn events_serve()
    ensures { (W : Parts) (Z : Stored) → EventsServe W Z }
{}

/// Along a run the waiters of a mutex keep their order, and none comes before another that waits.
pub fn waiters_keep_order()
    ensures { (W : Parts) (Z : Stored) → WaitersKeepOrder W Z }
{}

/// Those that wait at a mutex become its owner one after the other, and nobody who comes later is
/// served before.
pub fn served_in_order()
    ensures { (W : Parts) (Z : Stored) → ServedInOrder W Z }
{}
