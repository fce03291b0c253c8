//! Runs by a chosen schedule: one that a seed draws, and the one that a journal tells.
#![tactic(auto)]

mod course;
mod drawing;
mod followed;
mod following;
mod laws;
mod reached;
mod scheduled;
mod seeding;

pub use followed::{Followed, Left};
pub use following::follow_schedule;
pub use laws::one_run_a_seed;
pub use scheduled::Scheduled;
pub use seeding::run_seeded;
