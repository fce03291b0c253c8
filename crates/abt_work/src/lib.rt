//! What a run has of its user: the functions that units call, and what is called before each step.
#![tactic(auto)]

mod work;

pub use work::{AnyWork, Work};
