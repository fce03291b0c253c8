//! Rows on mutexes and conditions.

ghost use Rattle.abt_rows.specs.Rows.{IsReported, IsWorked, stored};
ghost use Rattle.abt_rows.specs.Mutexes.{self_lock_text, self_lock_report, trylock_text, trylock_report, trylock_own_text, trylock_own_report, unlock_then_trylock_text, unlock_then_trylock_journal, unlock_then_trylock_report, handed_over_text, handed_over_journal, handed_over_report, not_owner_text, not_owner_report, condition_text, condition_report, signal_free_text, signal_free_report, broadcast_held_text, broadcast_held_journal, broadcast_held_report, broadcast_free_text, broadcast_free_journal, broadcast_free_report, waiters_in_order_text, waiters_in_order_journal, waiters_in_order_report, signal_one_text, signal_one_report, signal_behind_waiters_text, signal_behind_waiters_journal, signal_behind_waiters_report, wait_hands_over_text, wait_hands_over_journal, wait_hands_over_report, number_stays_text, number_stays_report, owner_after_end_text, owner_after_end_report};

/// A second lock by the owner waits.
pub fn self_lock()
    ensures { IsReported stored 10000 self_lock_text self_lock_report }
{}

/// A held mutex is not locked by a trylock, and unlocked by its owner alone.
pub fn trylock()
    ensures { IsReported stored 10000 trylock_text trylock_report }
{}

/// The owner of a mutex does not lock it again by a trylock.
pub fn trylock_own()
    ensures { IsReported stored 10000 trylock_own_text trylock_own_report }
{}

/// An unlocked mutex that nobody waits for is free.
pub fn unlock_then_trylock()
    ensures { IsWorked stored 10000 unlock_then_trylock_text unlock_then_trylock_journal unlock_then_trylock_report }
{}

/// An unlock makes the first waiter the owner at once.
pub fn handed_over()
    ensures { IsWorked stored 10000 handed_over_text handed_over_journal handed_over_report }
{}

/// A unit that is not the owner must not load, store, unlock or wait.
pub fn not_owner()
    ensures { IsReported stored 10000 not_owner_text not_owner_report }
{}

/// A signal moves a condition's waiter to the waiters of the held mutex.
pub fn condition()
    ensures { IsReported stored 10000 condition_text condition_report }
{}

/// A signal makes a condition's waiter the owner of the free mutex.
pub fn signal_free()
    ensures { IsReported stored 10000 signal_free_text signal_free_report }
{}

/// A broadcast moves all waiters of a condition to the waiters of the held mutex, in order.
pub fn broadcast_held()
    ensures { IsWorked stored 10000 broadcast_held_text broadcast_held_journal broadcast_held_report }
{}

/// A broadcast makes the first waiter of a condition the owner of the free mutex; the others wait
/// for it.
pub fn broadcast_free()
    ensures { IsWorked stored 10000 broadcast_free_text broadcast_free_journal broadcast_free_report }
{}

/// A mutex goes to its waiters in the order in which they came.
pub fn waiters_in_order()
    ensures { IsWorked stored 10000 waiters_in_order_text waiters_in_order_journal waiters_in_order_report }
{}

/// A signal moves the first waiter of a condition alone.
pub fn signal_one()
    ensures { IsReported stored 10000 signal_one_text signal_one_report }
{}

/// A signal moves a waiter behind those that wait for the mutex.
pub fn signal_behind_waiters()
    ensures { IsWorked stored 10000 signal_behind_waiters_text signal_behind_waiters_journal signal_behind_waiters_report }
{}

/// A wait at a condition hands the mutex to the first of its waiters.
pub fn wait_hands_over()
    ensures { IsWorked stored 10000 wait_hands_over_text wait_hands_over_journal wait_hands_over_report }
{}

/// The number of a mutex is 0 at first, and stays when it is loaded, unlocked and locked again.
pub fn number_stays()
    ensures { IsReported stored 10000 number_stays_text number_stays_report }
{}

/// A unit that ends while it owns a mutex remains its owner, also in a later life.
pub fn owner_after_end()
    ensures { IsReported stored 10000 owner_after_end_text owner_after_end_report }
{}
