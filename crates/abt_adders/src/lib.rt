//! Laws of what the workload of a number of adders is worth: each function's contract is a law, and its body is empty.
#![tactic(auto)]

mod laws;

pub use laws::{adder_runs, adders_are_not_stuck, adders_finish, adders_report};
