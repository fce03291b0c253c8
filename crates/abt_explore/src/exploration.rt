//! What a search of all interleavings finds.

use abt_machine::{Journal, Outcome};
use abt_report::Picture;

/// An end of a workload: how it is called, a journal that leads to it, and what its report shows.
#[derive(Drop)]
pub struct End {
    pub outcome: Outcome,
    pub journal: Journal,
    pub picture: Picture,
}

/// What a search found.
#[derive(Drop)]
pub enum Exploration {
    /// All ends, and how many states were searched for them.
    Whole { states: u64, ends: Vec<End> },
    /// There are more states than were to be searched, or their keys have too many bytes.
    TooMany,
    /// A unit came to call the function of this number, which may return any word there.
    AnyWord { function: u32 },
}
