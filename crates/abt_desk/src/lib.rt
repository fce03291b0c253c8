//! Desks: births, ends, joins and requests. Each unit has one, which keeps it while it is unborn, suspended or ended.
#![tactic(auto)]

mod desk;
mod laws;

pub use desk::{Asks, Desk};
pub use laws::desks_keep_what_fits;
