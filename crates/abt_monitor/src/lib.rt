//! Monitors: a mutex with the number that it guards, and its conditions.
#![tactic(auto)]

mod laws;
mod monitor;
mod waiters;

pub use laws::{
    free_mutexes_have_no_waiters, monitors_keep_their_conditions, monitors_keep_what_fits,
};
pub use monitor::Monitor;
