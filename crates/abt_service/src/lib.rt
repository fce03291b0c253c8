//! Laws of whom an object serves: each function's contract is a law, and its body is empty.
#![tactic(auto)]

mod barriers;
mod mutexes;
mod pools;
mod rwlocks;
mod values;

pub use barriers::{barrier_opens, barrier_waits};
pub use mutexes::{
    events_serve, handed_in_order, locks_wait_in_order, served_in_order, waiters_keep_order,
};
pub use pools::{events_keep_pools, few_are_before, pooled_keep_order, taken_in_order};
pub use rwlocks::{
    events_serve_locks, lock_waiters_keep_order, readers_exclude_writers, readers_wait_in_order,
    unlocks_wake_in_order, writers_wait_in_order,
};
pub use values::{future_gives_all, future_opens, set_gives_all, set_wakes_all};
