//! What is asked of an object, and what it answers, by value.

use crate::unit::Unit;
use abt_desk::Asks;
use abt_machine::{Cause, Code, PoolNo, Side, UnitNo};
use std::collections::VecDeque;

/// What is asked of an object. The object has a unit that comes with the act from then on, unless the answer hands it back.
#[derive(Drop)]
pub enum Act {
    // Of a pool.
    Put(Unit),
    Take(Side),
    Remove(UnitNo),
    // Of a desk.
    Create(PoolNo),
    End(Unit, Cause),
    Join(Unit),
    AskCancel,
    AskMigrate(PoolNo),
    Look,
    Suspend(Unit),
    Resume,
    Revive(PoolNo),
    SetMigratable(bool),
    // Of a monitor; a condition is named by its place among the monitor's.
    Lock(Unit),
    TryLock(UnitNo),
    Unlock(UnitNo),
    Load(UnitNo),
    Store(UnitNo, u64),
    Wait(u32, Unit),
    Signal(u32),
    Broadcast(u32),
    // Of an eventual or a future.
    Await(Unit),
    Fill(u64),
    Reset,
    Test,
    // Of a barrier.
    Arrive(Unit),
    // Of a reader-writer lock, as are a load and a store.
    ReadLock(Unit),
    WriteLock(Unit),
    RwUnlock(UnitNo),
}

/// What an object answers.
#[derive(Drop)]
pub enum Answer {
    /// A unit comes out.
    Given(Unit),
    /// The unit that arrived goes through, and with it those that waited, in order of arrival.
    Through(Unit, VecDeque<Unit>),
    /// These units come out.
    Woke(VecDeque<Unit>),
    /// Nothing comes out.
    Rested,
    /// There is no unit to take.
    Miss,
    /// A number; of a test 0 or 1.
    Number(u64),
    /// What is asked of the unit.
    Asks(Asks),
    /// How it went, if no unit comes back.
    Code(Code),
    /// The unit that came is handed back, and why.
    Back(Unit, Code),
}
