//! Chains of owned units: lists that are linked through the units themselves, so that no call takes memory.
#![tactic(auto)]

mod chain;
mod laws;
mod parts;
mod refused;
mod steps;

pub use chain::Chain;
pub use laws::calls_walk_few_links;
pub use refused::Refused;
pub use steps::Steps;
