//! A caller whose own function runs in units.
#![tactic(auto)]

mod squares;

pub use squares::{Squares, run_squares};
