//! Laws of how large runs are: each function's contract is a law, and its body is empty.
#![tactic(auto)]

mod laws;

pub use laws::{events_are_few, runs_are_bounded, runs_are_small};
