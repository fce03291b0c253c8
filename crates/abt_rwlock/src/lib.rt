//! Reader-writer locks: one unit writes a number, or any units read it.
#![tactic(auto)]

mod holders;
mod laws;
mod rwlock;
mod serving;
mod waiters;

pub use laws::{rwlocks_keep_their_units, rwlocks_keep_what_fits};
pub use rwlock::RwLock;
