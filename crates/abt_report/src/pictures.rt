//! What a report is made of.

use abt_machine::{Items, Output, Shown};

/// Where a unit is at the end of a run, and what it put out in all of its lives.
#[derive(Drop)]
pub struct Row {
    pub shown: Shown,
    pub output: Output,
}

/// The units of a workload at the end of a run, in order of their numbers.
pub type Picture = Items<Row>;
