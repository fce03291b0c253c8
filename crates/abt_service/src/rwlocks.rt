//! Laws of reader-writer locks.

ghost use Rattle.abt_machine.specs.Stored.{Stored};
ghost use Rattle.abt_machine.specs.declared.workload.Parts.{Parts};
ghost use Rattle.abt_service.specs.Laws.{ReadersExcludeWriters};
ghost use Rattle.abt_service.specs.Locks.{
  EventsServeLocks,
  LockWaitersKeepOrder,
  ReadersWaitInOrder,
  UnlocksWakeInOrder,
  WritersWaitInOrder,
};

/// While a unit writes a lock, no unit reads it.
pub fn readers_exclude_writers()
    ensures { (W : Parts) (Z : Stored) → ReadersExcludeWriters W Z }
{}

/// By every event those that leave a lock's waiters are the first of them, whoever comes stands
/// behind the others, and whoever becomes the writer was the first, or nobody waited.
pub fn events_serve_locks()
    ensures { (W : Parts) (Z : Stored) → EventsServeLocks W Z }
{}

/// Along a run those that wait for a lock leave from the front.
pub fn lock_waiters_keep_order()
    ensures { (W : Parts) (Z : Stored) → LockWaitersKeepOrder W Z }
{}

/// Who gives up a lock wakes those that leave its waiters, in their order.
pub fn unlocks_wake_in_order()
    ensures { (W : Parts) (Z : Stored) → UnlocksWakeInOrder W Z }
{}

/// A unit that comes to read a lock for which others wait, and does not read it yet, waits behind
/// them.
pub fn readers_wait_in_order()
    ensures { (W : Parts) (Z : Stored) → ReadersWaitInOrder W Z }
{}

/// A unit that comes to write a lock for which others wait, waits behind them.
pub fn writers_wait_in_order()
    ensures { (W : Parts) (Z : Stored) → WritersWaitInOrder W Z }
{}
