//! Barriers: units wait until as many have arrived as the barrier has parties.
#![tactic(auto)]

mod arrival;
mod barrier;
mod laws;

pub use arrival::Arrival;
pub use barrier::Barrier;
pub use laws::{barriers_keep_what_fits, barriers_lack_a_party};
