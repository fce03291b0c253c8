//! Files that are read and sinks that are written, each with a count of its faults: the traits, a kind in
//! memory that fails at chosen calls, and that of the process.
#![tactic(auto)]

mod fault;
mod memory_files;
mod memory_sink;
mod put;
mod reading;
mod real_files;
mod real_sink;
mod recalling;
mod writing;

pub use fault::{Blamed, Reason};
pub use memory_files::{MemoryFiles, NamedBytes};
pub use memory_sink::MemorySink;
pub use reading::{Files, NotFetched, read_all};
pub use real_files::RealFiles;
pub use real_sink::RealSink;
use thiserror::Error;
pub use writing::{Sink, write_whole};

/// A read or a write that failed.
#[derive(Clone, Copy, Debug, PartialEq, Eq, Error)]
#[error("a read or a write failed")]
pub struct Failed;
