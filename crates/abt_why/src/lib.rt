//! Why a run is stuck: what each unit waits for, who holds it, and the cycles of units that wait for one another.
#![tactic(auto)]

mod cycles;
mod finding;
mod replay;
mod texts;
mod waits;
mod why;

pub use waits::{Awaited, Holders, Wait};
pub use why::append_why;
