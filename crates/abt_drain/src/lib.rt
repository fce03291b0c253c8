//! All streams of a workload in rotation on the caller's thread.
#![tactic(auto)]

mod crew;
mod outcomes;
mod pictures;
mod run;
mod streams;

pub use outcomes::{has_empty_pools, has_ended, outcome};
pub use pictures::picture;
pub use run::{Run, drain, drain_with};
pub use streams::{Rests, leave, split_logs, start_streams};
