//! What a unit waits for.

use abt_machine::{Items, ObjectNo, PoolNo, Shown, StreamNo, UnitNo, Wish};

/// A unit for which another waits, and where it is.
#[derive(Clone, Copy, Debug, PartialEq, Eq)]
pub struct Awaited {
    pub unit: UnitNo,
    pub shown: Shown,
}

/// Who holds a reader-writer lock.
#[derive(Drop)]
pub enum Holders {
    Writer(Awaited),
    Reader(Awaited),
    /// Several that read, or none.
    Readers(Items<UnitNo>),
}

/// What a unit waits for.
#[derive(Drop)]
pub enum Wait {
    /// Nothing: it is unborn or has ended.
    Nothing,
    /// To be taken from a pool; whether a main scheduler lists the pool.
    Pool(PoolNo, bool),
    /// A stream has it.
    Stream(StreamNo),
    /// To be resumed.
    Resume,
    /// The end of that unit.
    Join(Awaited),
    /// A mutex, with its owner.
    Mutex(ObjectNo, Option<Awaited>),
    /// A signal at a condition, of that mutex.
    Condition(ObjectNo, ObjectNo),
    /// The value of an eventual.
    Eventual(ObjectNo),
    /// A future: how many of how many compartments are filled.
    Future(ObjectNo, u64, u64),
    /// A barrier: how many of how many parties wait.
    Barrier(ObjectNo, u64, u64),
    /// A reader-writer lock: what the unit wants, and who holds the lock.
    RwLock(ObjectNo, Wish, Holders),
}
