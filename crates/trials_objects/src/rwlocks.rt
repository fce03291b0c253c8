//! Who holds a lock and who waits, on rows of calls.

ghost use Rattle.abt_unit.specs.Units.{IsFree};

use crate::answers::{Answer, NO_UNITS, all_or_code, found, number_or_code, out_or_refused};
use crate::samples::unit;
use crate::tried::{Tried, check};
use abt_machine::{Code, UnitNo, Want};
use abt_rwlock::RwLock;
use abt_unit::Unit;
use std::alloc::Global;
use std::process::Abort;
use std::test::Fail;

/// A call of the unit of that number.
#[derive(Clone, Copy)]
pub enum Call {
    Read(u32),
    Write(u32),
    Unlock(u32),
    Load(u32),
    Store(u32, u64),
    Waiter(u32),
}

// Waiters get the lock in order.
static ORDER: [(Call, Answer); 16] = [
    (Call::Write(0), Answer::Unit((0, 0))),
    (Call::Read(1), Answer::Nobody),
    (Call::Read(2), Answer::Nobody),
    (Call::Write(3), Answer::Nobody),
    (
        Call::Unlock(0),
        Answer::Units(Some((1, 0)), Some((2, 0)), None),
    ),
    // a unit that reads goes ahead of the writer, any other waits behind it
    (Call::Read(1), Answer::Unit((1, 0))),
    (Call::Read(0), Answer::Nobody),
    (Call::Waiter(3), Answer::Unit((3, 0))),
    (Call::Waiter(0), Answer::Unit((0, 0))),
    (Call::Waiter(1), Answer::Nobody),
    (Call::Unlock(1), NO_UNITS),
    (Call::Unlock(2), NO_UNITS),
    (Call::Unlock(1), Answer::Units(Some((3, 0)), None, None)),
    (Call::Unlock(3), Answer::Units(Some((0, 0)), None, None)),
    (Call::Unlock(0), NO_UNITS),
    (Call::Write(2), Answer::Unit((2, 0))),
];

// Who holds the lock is served or refused, and who does not is refused.
static HOLDERS: [(Call, Answer); 15] = [
    (Call::Unlock(0), Answer::Code(Code::NotHolder)),
    (Call::Load(0), Answer::Code(Code::NotHolder)),
    (Call::Store(0, 5), Answer::Code(Code::NotHolder)),
    (Call::Write(0), Answer::Unit((0, 0))),
    (Call::Write(0), Answer::Code(Code::RwHeld)),
    (Call::Read(0), Answer::Code(Code::RwHeld)),
    (Call::Store(0, 7), Answer::Code(Code::Ok)),
    (Call::Store(1, 9), Answer::Code(Code::NotHolder)),
    (Call::Load(1), Answer::Code(Code::NotHolder)),
    (Call::Load(0), Answer::Number(7)),
    (Call::Unlock(0), NO_UNITS),
    (Call::Read(1), Answer::Unit((1, 0))),
    (Call::Write(1), Answer::Code(Code::RwHeld)),
    (Call::Store(1, 9), Answer::Code(Code::NotHolder)),
    (Call::Load(1), Answer::Number(7)),
];

// Of a lock without room for unit 2, whose reads are not noted.
static NARROW: [(Call, Answer); 3] = [
    (Call::Read(2), Answer::Unit((2, 0))),
    (Call::Unlock(2), Answer::Code(Code::NotHolder)),
    (Call::Write(1), Answer::Unit((1, 0))),
];

// After as many reads by unit 2 as there may be.
static FULL: [(Call, Answer); 5] = [
    (Call::Read(2), Answer::Code(Code::RwFull)),
    (Call::Read(3), Answer::Unit((3, 0))),
    (Call::Unlock(2), NO_UNITS),
    (Call::Read(2), Answer::Unit((2, 0))),
    (Call::Read(2), Answer::Code(Code::RwFull)),
];

impl Tried for RwLock {
    type Call = Call;

    ghost stays = { λ lock. Unit {0} };

    fn answer<R: Abort>(&mut self, rt: &R, alloc: Global, call: Call) -> Result<Answer, Fail> {
        Ok(match call {
            Call::Read(number) => out_or_refused(self.rdlock(unit(rt, alloc, number, 0)?)),
            Call::Write(number) => out_or_refused(self.wrlock(unit(rt, alloc, number, 0)?)),
            Call::Unlock(number) => all_or_code(self.unlock(UnitNo(number))),
            Call::Load(number) => number_or_code(self.load(UnitNo(number))),
            Call::Store(number, value) => Answer::Code(self.store(UnitNo(number), value)),
            Call::Waiter(number) => found(self.waiter(UnitNo(number))),
        })
    }
}

// A lock for that many units, call by call.
fn check_lock<R: Abort>(
    rt: &R,
    alloc: Global,
    units: u32,
    rows: &[(Call, Answer)],
) -> Result<(), Fail> {
    let mut lock = RwLock::new(alloc, units)?;
    check(rt, alloc, &mut lock, rows)
}

#[test]
fn locks_are_held_and_waited_for(rt: HostRuntime) -> Result<(), Fail> {
    check_lock(&rt, rt.alloc(), 4, &ORDER)?;
    check_lock(&rt, rt.alloc(), 4, &HOLDERS)?;
    check_lock(&rt, rt.alloc(), 2, &NARROW)
}

// The unit reads at once.
fn reads_again(rt: &impl Abort, lock: &mut RwLock, unit: Box<Unit>) -> Box<Unit>
    requires { IsFree unit.value }
    ensures { IsFree result.value }
{
    let answer = lock.rdlock(unit).ok().expect(rt, "it is not refused");
    answer.expect(rt, "it reads")
}

// The unit reads as often as it may.
fn reads_often(rt: &impl Abort, lock: &mut RwLock, unit: Box<Unit>)
    requires { IsFree unit.value }
{
    let mut reader = unit;
    for _ in 0..65_535 {
        reader = reads_again(rt, lock, reader);
    }
}

#[test]
fn a_unit_reads_65_535_times(rt: HostRuntime) -> Result<(), Fail> {
    let reader = unit(&rt, rt.alloc(), 2, 0)?;
    let mut lock = RwLock::new(rt.alloc(), 4)?;
    reads_often(&rt, &mut lock, reader);
    check(&rt, rt.alloc(), &mut lock, &FULL)
}

// `rt try --test --fail-alloc N`, for N of 1 and 2, refuses each allocation of `new`.
#[test]
fn new_is_a_free_lock_or_out_of_memory(rt: HostRuntime) {
    match RwLock::new(rt.alloc(), 4) {
        Ok(mut lock) => {
            assert_eq!(rt; lock.load(UnitNo(0)), Err(Code::NotHolder));
            assert!(rt; matches!(lock.unlock(UnitNo(3)), Err(Code::NotHolder)));
        }
        Err(want) => assert_eq!(rt; want, Want),
    }
}
