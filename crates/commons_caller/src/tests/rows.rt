//! Each act on each kind of object, with what is heard.

use super::players::{Heard, Request, Row};
use abt_machine::{Code, ObjectNo, PoolNo, Side, Site, UnitNo};

/// The head of a workload with a pool of each kind, a mutex, its condition, an eventual, a future with two compartments, a
/// barrier for two, and a reader-writer lock.
pub const KINDS: &str = "abt 1
streams 1
pool 0 fifo mpmc
pool 1 deque mpmc
sched 0 prio 0 1
stream 0 main 0
object 0 mutex
object 1 cond 0
object 2 eventual
object 3 future 2 sum
object 4 barrier 2
object 5 rwlock
";

pub const FIFO: Site = Site::Pool(PoolNo(0));

pub const DEQUE: Site = Site::Pool(PoolNo(1));

const DESK: Site = Site::Desk(UnitNo(3));

const OTHER_DESK: Site = Site::Desk(UnitNo(0));

pub const MONITOR: Site = Site::Monitor(ObjectNo(0));

const EVENTUAL: Site = Site::Eventual(ObjectNo(2));

const FUTURE: Site = Site::Future(ObjectNo(3));

pub const BARRIER: Site = Site::Barrier(ObjectNo(4));

pub const RWLOCK: Site = Site::Rw(ObjectNo(5));

// Units 0, 1 and 2 start in the FIFO pool, and unit 3 is unborn. Beside each row that moves a unit: who is in hand then,
// first to last.

pub const POOLS: [Row; 9] = [
    (FIFO, Request::Take(Side::Front), Some(Heard::Given(0))), // 0
    (FIFO, Request::Take(Side::Back), None),
    (DEQUE, Request::Put, Some(Heard::Rested)), // nobody
    (FIFO, Request::Remove(2), Some(Heard::Given(2))), // 2
    (FIFO, Request::Remove(2), Some(Heard::Code(Code::Absent))),
    (DEQUE, Request::Put, Some(Heard::Rested)), // nobody
    (DEQUE, Request::Take(Side::Back), Some(Heard::Given(2))), // 2
    (DEQUE, Request::Take(Side::Front), Some(Heard::Given(0))), // 2 0
    (DEQUE, Request::Take(Side::Front), Some(Heard::Miss)),
];

pub const DESKS: [Row; 18] = [
    (DESK, Request::AskCancel, Some(Heard::Code(Code::UnitState))),
    (
        DESK,
        Request::SetMigratable(false),
        Some(Heard::Code(Code::Ok)),
    ),
    (DESK, Request::Create(0), Some(Heard::Given(3))), // 2 0 3
    (DESK, Request::Create(0), Some(Heard::Code(Code::Exists))),
    (
        DESK,
        Request::AskMigrate(1),
        Some(Heard::Code(Code::NotMigratable)),
    ),
    (
        DESK,
        Request::SetMigratable(true),
        Some(Heard::Code(Code::Ok)),
    ),
    (DESK, Request::AskMigrate(1), Some(Heard::Code(Code::Ok))),
    (DESK, Request::AskCancel, Some(Heard::Code(Code::Ok))),
    (
        DESK,
        Request::Look,
        Some(Heard::Asks(true, Some(PoolNo(1)))),
    ),
    (DESK, Request::Look, Some(Heard::Asks(false, None))),
    (DESK, Request::Join, Some(Heard::Rested)), // 0 3
    (OTHER_DESK, Request::Suspend, Some(Heard::Rested)), // 3
    (OTHER_DESK, Request::Resume, Some(Heard::Given(0))), // 3 0
    (
        OTHER_DESK,
        Request::Resume,
        Some(Heard::Code(Code::UnitState)),
    ),
    (DESK, Request::End, Some(Heard::Woke(Some(2)))), // 0 2
    (DESK, Request::Join, Some(Heard::Given(0))), // 2 0
    (DESK, Request::Revive(1), Some(Heard::Given(3))), // 2 0 3
    (DESK, Request::Revive(1), Some(Heard::Code(Code::UnitState))),
];

pub const MONITORS: [Row; 16] = [
    (MONITOR, Request::Lock, Some(Heard::Given(2))), // 0 3 2
    (
        MONITOR,
        Request::TryLock(0),
        Some(Heard::Code(Code::MutexLocked)),
    ),
    (MONITOR, Request::Store(2, 7), Some(Heard::Code(Code::Ok))),
    (MONITOR, Request::Load(2), Some(Heard::Number(7))),
    (MONITOR, Request::Load(0), Some(Heard::Code(Code::NotOwner))),
    (MONITOR, Request::Lock, Some(Heard::Rested)), // 3 2
    (
        MONITOR,
        Request::Wait(0),
        Some(Heard::Back(3, Code::NotOwner)),
    ), // 2 3
    (MONITOR, Request::Wait(0), Some(Heard::Given(0))), // 3 0
    (MONITOR, Request::Signal(0), Some(Heard::Rested)),
    (MONITOR, Request::Unlock(0), Some(Heard::Given(2))), // 3 0 2
    (MONITOR, Request::Broadcast(0), Some(Heard::Rested)),
    (MONITOR, Request::Unlock(2), Some(Heard::Rested)),
    (MONITOR, Request::TryLock(2), Some(Heard::Code(Code::Ok))),
    (
        MONITOR,
        Request::Unlock(0),
        Some(Heard::Code(Code::NotOwner)),
    ),
    (MONITOR, Request::Unlock(2), Some(Heard::Rested)),
    // The mutex has one condition.
    (MONITOR, Request::Signal(1), None),
];

pub const EVENTUALS: [Row; 8] = [
    (EVENTUAL, Request::Test, Some(Heard::Number(0))),
    (EVENTUAL, Request::Await, Some(Heard::Rested)), // 0 2
    (EVENTUAL, Request::Fill(5), Some(Heard::Woke(Some(3)))), // 0 2 3
    (
        EVENTUAL,
        Request::Fill(6),
        Some(Heard::Code(Code::EventualSet)),
    ),
    (EVENTUAL, Request::Test, Some(Heard::Number(1))),
    (EVENTUAL, Request::Await, Some(Heard::Given(0))), // 2 3 0
    (EVENTUAL, Request::Reset, Some(Heard::Rested)),
    (EVENTUAL, Request::Test, Some(Heard::Number(0))),
];

pub const FUTURES: [Row; 9] = [
    (FUTURE, Request::Test, Some(Heard::Number(0))),
    (FUTURE, Request::Await, Some(Heard::Rested)), // 3 0
    (FUTURE, Request::Fill(1), Some(Heard::Woke(None))),
    (FUTURE, Request::Fill(2), Some(Heard::Woke(Some(2)))), // 3 0 2
    (
        FUTURE,
        Request::Fill(3),
        Some(Heard::Code(Code::FutureFull)),
    ),
    (FUTURE, Request::Test, Some(Heard::Number(1))),
    (FUTURE, Request::Await, Some(Heard::Given(3))), // 0 2 3
    (FUTURE, Request::Reset, Some(Heard::Rested)),
    (FUTURE, Request::Test, Some(Heard::Number(0))),
];

pub const BARRIERS: [Row; 2] = [
    (BARRIER, Request::Arrive, Some(Heard::Rested)), // 2 3
    (BARRIER, Request::Arrive, Some(Heard::Through(2, Some(0)))), // 3 2 0
];

pub const RWLOCKS: [Row; 17] = [
    (RWLOCK, Request::ReadLock, Some(Heard::Given(3))), // 2 0 3
    (RWLOCK, Request::WriteLock, Some(Heard::Rested)), // 0 3
    (RWLOCK, Request::ReadLock, Some(Heard::Rested)), // 3
    (RWLOCK, Request::ReadLock, Some(Heard::Given(3))), // 3
    (
        RWLOCK,
        Request::WriteLock,
        Some(Heard::Back(3, Code::RwHeld)),
    ), // 3
    (RWLOCK, Request::Load(3), Some(Heard::Number(0))),
    (
        RWLOCK,
        Request::Store(3, 7),
        Some(Heard::Code(Code::NotHolder)),
    ),
    (RWLOCK, Request::RwUnlock(3), Some(Heard::Woke(None))),
    (RWLOCK, Request::RwUnlock(3), Some(Heard::Woke(Some(2)))), // 3 2
    (RWLOCK, Request::ReadLock, Some(Heard::Rested)), // 2
    (RWLOCK, Request::Store(2, 7), Some(Heard::Code(Code::Ok))),
    (
        RWLOCK,
        Request::ReadLock,
        Some(Heard::Back(2, Code::RwHeld)),
    ), // 2
    (RWLOCK, Request::RwUnlock(2), Some(Heard::Woke(Some(0)))), // 2 0 3
    (RWLOCK, Request::Load(3), Some(Heard::Number(7))),
    (RWLOCK, Request::Load(2), Some(Heard::Code(Code::NotHolder))),
    (
        RWLOCK,
        Request::RwUnlock(2),
        Some(Heard::Code(Code::NotHolder)),
    ),
    // It is no mutex.
    (RWLOCK, Request::Unlock(3), None),
];
