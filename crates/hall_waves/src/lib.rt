//! Runs on threads over one lock around all objects: the crate of waves takes any locks.
#![tactic(auto)]

mod hall;

pub use hall::{OneLock, run_in_hall};
