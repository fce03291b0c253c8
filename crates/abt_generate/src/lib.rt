//! The workload that `self N` runs: N units whose operations add their numbers to what one mutex holds, on four streams.
#![tactic(auto)]

mod generated;
pub mod worked;

pub use generated::generate;
