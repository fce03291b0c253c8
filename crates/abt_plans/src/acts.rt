//! Acts without the unit in hand, by whether it goes with them.

use abt_machine::{PoolNo, UnitNo};

/// An act of the unit in hand that does not take it along: it goes on, or it yields to the unit that comes out of a pool. A
/// condition is named by its place among the monitor's.
#[derive(Clone, Copy, Debug, PartialEq, Eq)]
pub enum Asking {
    // Of a pool.
    Remove(UnitNo),
    // Of a desk.
    Create(PoolNo),
    AskCancel,
    AskMigrate(PoolNo),
    Resume,
    Revive(PoolNo),
    SetMigratable(bool),
    // Of a monitor.
    TryLock(UnitNo),
    Unlock(UnitNo),
    Load(UnitNo),
    Store(UnitNo, u64),
    Signal(u32),
    Broadcast(u32),
    // Of an eventual or a future.
    Fill(u64),
    Reset,
    Test,
    // Of a reader-writer lock, as are a load and a store.
    RwUnlock(UnitNo),
}

/// An act that takes the unit in hand with it. A condition is named by its place among the monitor's.
#[derive(Clone, Copy, Debug, PartialEq, Eq)]
pub enum Giving {
    Suspend,
    Join,
    Lock,
    Wait(u32),
    Await,
    Arrive,
    ReadLock,
    WriteLock,
}

/// The act, of the named type, that does not take the unit with it.
#[macro_export]
macro_rules! act_of_asking {
    ($asking:expr, $act:ident) => {
        match $asking {
            $crate::Asking::Remove(u) => $act::Remove(u),
            $crate::Asking::Create(p) => $act::Create(p),
            $crate::Asking::AskCancel => $act::AskCancel,
            $crate::Asking::AskMigrate(p) => $act::AskMigrate(p),
            $crate::Asking::Resume => $act::Resume,
            $crate::Asking::Revive(p) => $act::Revive(p),
            $crate::Asking::SetMigratable(allowed) => $act::SetMigratable(allowed),
            $crate::Asking::TryLock(u) => $act::TryLock(u),
            $crate::Asking::Unlock(u) => $act::Unlock(u),
            $crate::Asking::Load(u) => $act::Load(u),
            $crate::Asking::Store(u, n) => $act::Store(u, n),
            $crate::Asking::Signal(k) => $act::Signal(k),
            $crate::Asking::Broadcast(k) => $act::Broadcast(k),
            $crate::Asking::Fill(n) => $act::Fill(n),
            $crate::Asking::Reset => $act::Reset,
            $crate::Asking::Test => $act::Test,
            $crate::Asking::RwUnlock(u) => $act::RwUnlock(u),
        }
    };
}

/// The act, of the named type, that takes the unit with it.
#[macro_export]
macro_rules! act_of_giving {
    ($giving:expr, $unit:expr, $act:ident) => {
        match $giving {
            $crate::Giving::Suspend => $act::Suspend($unit),
            $crate::Giving::Join => $act::Join($unit),
            $crate::Giving::Lock => $act::Lock($unit),
            $crate::Giving::Wait(k) => $act::Wait(k, $unit),
            $crate::Giving::Await => $act::Await($unit),
            $crate::Giving::Arrive => $act::Arrive($unit),
            $crate::Giving::ReadLock => $act::ReadLock($unit),
            $crate::Giving::WriteLock => $act::WriteLock($unit),
        }
    };
}
