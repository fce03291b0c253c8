//! What a run by a chosen schedule came to.

use abt_machine::{Journal, Outcome};
use abt_report::Picture;

/// A run: its journal, how many steps it made, its units at the end, and how it ended.
#[derive(Drop)]
pub struct Scheduled {
    pub journal: Journal,
    pub steps: u64,
    pub picture: Picture,
    pub outcome: Outcome,
}
