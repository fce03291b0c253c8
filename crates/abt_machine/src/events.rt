//! What a run is made of: codes, places, sites, events and output.

use crate::items::Items;
use crate::numbers::{ObjectNo, PoolNo, Returned, StreamNo, UnitNo};

/// How an operation went: `Ok`, or why it was refused.
#[derive(Clone, Copy, Debug, PartialEq, Eq)]
pub enum Code {
    Ok,
    PoolAccess,
    Exists,
    UnitState,
    NotMigratable,
    Absent,
    MutexLocked,
    NotOwner,
    EventualSet,
    FutureFull,
    RwHeld,
    RwFull,
    NotHolder,
}

/// Why a unit ended: by its steps (or a scheduler unit by leaving), by a cancel request, as a
/// scheduler unit that was taken by a stream that must not take from all of its pools, or as a
/// thread by its own `exit`.
#[derive(Clone, Copy, Debug, PartialEq, Eq)]
pub enum Cause {
    Done,
    Asked,
    Access,
    Own,
}

/// Where a blocked unit waits.
#[derive(Clone, Copy, Debug, PartialEq, Eq)]
pub enum Spot {
    Suspended,
    Join(UnitNo),
    Object(ObjectNo),
}

/// What a unit that waits for a reader-writer lock wants.
#[derive(Clone, Copy, Debug, PartialEq, Eq)]
pub enum Wish {
    Read,
    Write,
}

/// Where a unit is. The number with a pool, a tray, a frame or a spot is its ticket there.
#[derive(Clone, Copy, Debug, PartialEq, Eq)]
pub enum Place {
    Unborn,
    Pool(PoolNo, u64),
    Hand(StreamNo),
    Next(StreamNo),
    Tray(StreamNo, u32),
    Frame(StreamNo, u32),
    Blocked(Spot, u64),
    Ended(Cause),
}

/// What a report shows of a place.
#[derive(Clone, Copy, Debug, PartialEq, Eq)]
pub enum Shown {
    Unborn,
    Pool(PoolNo),
    Stream(StreamNo),
    Suspended,
    Join(UnitNo),
    Object(ObjectNo),
    Ended(Cause),
}

/// A shared object: what one event may touch besides its stream.
#[derive(Clone, Copy, Debug, PartialEq, Eq)]
pub enum Site {
    Pool(PoolNo),
    Desk(UnitNo),
    Monitor(ObjectNo),
    Eventual(ObjectNo),
    Future(ObjectNo),
    Barrier(ObjectNo),
    Rw(ObjectNo),
}

/// What happened: a miss at a pool, a unit taken from it, a look at a taken unit's requests, a step at
/// a position with its code, a call at a position with what the function returned, a unit put into its home, an end, and a
/// scheduler unit's entry and leave.
#[derive(Clone, Copy, Debug, PartialEq, Eq)]
pub enum What {
    Miss(PoolNo),
    Take(PoolNo, UnitNo),
    Look(UnitNo),
    Step(UnitNo, u32, Code),
    Call(UnitNo, u32, Returned),
    Put(UnitNo, PoolNo),
    End(UnitNo, Cause),
    Enter(UnitNo),
    Leave(UnitNo),
}

/// One event: its Lamport stamp, the stream that made it, and what happened.
#[derive(Clone, Copy, Debug, PartialEq, Eq)]
pub struct Event {
    pub stamp: u64,
    pub stream: StreamNo,
    pub what: What,
}

/// All events of a run, in order.
pub type Journal = Items<Event>;

/// The events of one stream, in order.
pub type Log = Items<Event>;

/// One piece of a unit's output: the word with that number, a number, or a refusal.
#[derive(Clone, Copy, Debug, PartialEq, Eq)]
pub enum Piece {
    Said(u32),
    Number(u64),
    Refused(Code),
}

/// A unit's output.
pub type Output = Items<Piece>;

/// How a run ended: all is done, nothing can move, or a stream has used up its steps.
#[derive(Clone, Copy, Debug, PartialEq, Eq)]
pub enum Outcome {
    Finished,
    Stuck,
    Budget(StreamNo),
}
