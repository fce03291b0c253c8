//! The entries of histories.

ghost use Rattle.abt_interleave.specs.Passing.{EntriesPass};

use crate::machine::AnyMachine;

/// One call in an object's history. Contracts speak of entries; no value of this type is ever made.
pub struct Entry<A, R> {
    /// The call's stamp: a time of a logical clock, as in Lamport's "Time, Clocks, and the Ordering of Events in
    /// a Distributed System" (1978).
    pub stamp: u64,
    /// The number of the caller: of a stream, or of a seat that a stream has.
    pub caller: u64,
    /// What was asked.
    pub act: A,
    /// What the object answered.
    pub answer: R,
}

/// If each step makes only calls that pass a test, each entry of the histories passed it.
pub fn entries_pass<M: AnyMachine>()
    ensures { EntriesPass M.machine }
{}
