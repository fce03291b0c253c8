//! Who owns a mutex and who waits, on rows of calls of one with two conditions.

ghost use Rattle.std.specs.Prelude.{◌≡◌, length};

use crate::answers::{Answer, found, number_or_code, out, out_or_code, out_or_refused};
use crate::samples::unit;
use crate::tried::{Tried, check};
use abt_machine::{Code, UnitNo};
use abt_monitor::Monitor;
use std::alloc::Global;
use std::process::Abort;
use std::test::Fail;

/// A call of the unit of that number, at that condition if it names one; a waiter is that of the mutex or of a condition.
#[derive(Clone, Copy)]
pub enum Call {
    Lock(u32),
    TryLock(u32),
    Unlock(u32),
    Load(u32),
    Store(u32, u64),
    Wait(u32, u32),
    Signal(u32),
    Broadcast(u32),
    Waiter(u32),
    WaiterAt(u32, u32),
}

// The first that waits is the owner.
static OWNERS: [(Call, Answer); 13] = [
    (Call::Lock(2), Answer::Unit((2, 0))),
    (Call::Lock(0), Answer::Nobody),
    (Call::Lock(1), Answer::Nobody),
    (Call::Waiter(1), Answer::Unit((1, 0))),
    (Call::Waiter(2), Answer::Nobody),
    (Call::TryLock(3), Answer::Code(Code::MutexLocked)),
    (Call::Unlock(0), Answer::Code(Code::NotOwner)),
    (Call::Unlock(2), Answer::Unit((0, 0))),
    // a second lock by the owner waits
    (Call::Lock(0), Answer::Nobody),
    (Call::Unlock(0), Answer::Unit((1, 0))),
    (Call::Unlock(1), Answer::Unit((0, 0))),
    (Call::Unlock(0), Answer::Nobody),
    (Call::TryLock(3), Answer::Code(Code::Ok)),
];

// The owner alone loads and stores.
static NUMBERS: [(Call, Answer); 7] = [
    (Call::Load(0), Answer::Code(Code::NotOwner)),
    (Call::TryLock(0), Answer::Code(Code::Ok)),
    (Call::Load(0), Answer::Number(0)),
    (Call::Store(0, 7), Answer::Code(Code::Ok)),
    (Call::Store(1, 9), Answer::Code(Code::NotOwner)),
    (Call::Load(1), Answer::Code(Code::NotOwner)),
    (Call::Load(0), Answer::Number(7)),
];

// A wait hands the mutex over; a signal moves behind those that wait for the mutex.
static SIGNALS: [(Call, Answer); 18] = [
    (Call::Signal(0), Answer::Nobody),
    (Call::Wait(0, 0), Answer::Code(Code::NotOwner)),
    (Call::Lock(0), Answer::Unit((0, 0))),
    (Call::Lock(1), Answer::Nobody),
    (Call::Wait(0, 0), Answer::Unit((1, 0))),
    (Call::WaiterAt(0, 0), Answer::Unit((0, 0))),
    (Call::Wait(0, 1), Answer::Nobody),
    (Call::Lock(2), Answer::Unit((2, 0))),
    (Call::Lock(3), Answer::Nobody),
    (Call::Signal(1), Answer::Nobody),
    (Call::Signal(0), Answer::Nobody),
    (Call::WaiterAt(0, 0), Answer::Nobody),
    (Call::Waiter(0), Answer::Unit((0, 0))),
    (Call::Unlock(2), Answer::Unit((3, 0))),
    (Call::Unlock(3), Answer::Unit((0, 0))),
    (Call::Unlock(0), Answer::Nobody),
    (Call::Signal(0), Answer::Unit((1, 0))),
    (Call::Unlock(1), Answer::Nobody),
];

// A broadcast on a free mutex admits all.
static BROADCAST: [(Call, Answer); 10] = [
    (Call::Lock(0), Answer::Unit((0, 0))),
    (Call::Wait(1, 0), Answer::Nobody),
    (Call::Lock(1), Answer::Unit((1, 0))),
    (Call::Wait(1, 1), Answer::Nobody),
    (Call::Lock(2), Answer::Unit((2, 0))),
    (Call::Wait(1, 2), Answer::Nobody),
    (Call::Broadcast(1), Answer::Unit((0, 0))),
    (Call::Unlock(0), Answer::Unit((1, 0))),
    (Call::Unlock(1), Answer::Unit((2, 0))),
    (Call::Unlock(2), Answer::Nobody),
];

impl Tried for Monitor {
    type Call = Call;

    ghost stays = { λ monitor. length monitor.conds ≡ 2 };

    fn answer<R: Abort>(&mut self, rt: &R, alloc: Global, call: Call) -> Result<Answer, Fail> {
        Ok(match call {
            Call::Lock(number) => out(self.lock(unit(rt, alloc, number, 0)?)),
            Call::TryLock(number) => Answer::Code(self.trylock(UnitNo(number))),
            Call::Unlock(number) => out_or_code(self.unlock(UnitNo(number))),
            Call::Load(number) => number_or_code(self.load(UnitNo(number))),
            Call::Store(number, value) => Answer::Code(self.store(UnitNo(number), value)),
            Call::Wait(cond, number) => {
                out_or_refused(self.wait(cond % 2, unit(rt, alloc, number, 0)?))
            }
            Call::Signal(cond) => out(self.signal(cond % 2)),
            Call::Broadcast(cond) => out(self.broadcast(cond % 2)),
            Call::Waiter(number) => found(self.waiter(None, UnitNo(number))),
            Call::WaiterAt(cond, number) => found(self.waiter(Some(cond % 2), UnitNo(number))),
        })
    }
}

#[test]
fn mutexes_and_conditions_serve_in_order(rt: HostRuntime) -> Result<(), Fail> {
    for rows in [
        OWNERS.as_slice(),
        NUMBERS.as_slice(),
        SIGNALS.as_slice(),
        BROADCAST.as_slice(),
    ] {
        let mut monitor = Monitor::new(rt.alloc(), 2)?;
        check(&rt, rt.alloc(), &mut monitor, rows)?;
    }
    Ok(())
}
