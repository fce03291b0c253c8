//! Where a journal leaves its workload.

use abt_machine::Outcome;
use abt_report::Picture;

/// What a journal leaves: how many steps it has, the units at its end, and how the run ended; none if it could go on.
#[derive(Drop)]
pub struct Left {
    pub steps: u64,
    pub picture: Picture,
    pub end: Option<Outcome>,
}

/// What came of following a journal.
#[derive(Drop)]
pub enum Followed {
    /// It is no run of the workload with stamps: `at` is the greatest number of its first events that are one.
    Bad { at: u64 },
    /// It is one, and leaves this.
    Left(Left),
}
