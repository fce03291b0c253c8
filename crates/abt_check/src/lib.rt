//! Whether a journal is a run of a workload, by a replay over plain lists.
#![tactic(auto)]

mod clocks;
mod judge;
mod judging;
mod pieces;
mod verdict;

pub use judging::{check, one_verdict};
pub use pieces::put_out;
pub use verdict::Verdict;
