//! What the program is asked, and what it returns.

use crate::events::Journal;
use std::alloc::{AllocError, AllocFailed};

/// Out of memory.
#[derive(Clone, Copy, Debug, PartialEq, Eq)]
pub struct Want;

impl From<AllocError> for Want {
    fn from(_: AllocError) -> Self {
        Want
    }
}

impl<T: Drop> From<AllocFailed<T>> for Want {
    fn from(_: AllocFailed<T>) -> Self {
        Want
    }
}

/// What may be wrong with a line of a workload text.
#[derive(Clone, Copy, Debug, PartialEq, Eq)]
pub enum Fault {
    Utf8,
    Version,
    Unknown,
    Shape,
    Number,
    Twice,
    Undeclared,
    Limit,
    TaskBlocks,
    Access,
    NoEnd,
    Missing,
}

/// How the program ended: its exit status and the run's journal.
#[derive(Drop)]
pub struct Ended {
    pub status: u8,
    pub journal: Journal,
}
