//! Owned units: what a unit carries wherever it goes, and its local steps.
#![tactic(auto)]

mod laws;
mod unit;

pub use laws::local_operations_are_their_rows;
pub use unit::{Unit, UnitBody};
