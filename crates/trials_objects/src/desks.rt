//! Each call of a desk, on rows of a unit's lives.

use crate::answers::{Answer, NO_UNITS, all, found, out};
use crate::samples::unit;
use crate::tried::{Tried, check};
use abt_desk::{Asks, Desk};
use abt_machine::{Cause, Code, PoolNo, Shown, UnitNo};
use std::alloc::Global;
use std::process::Abort;
use std::test::Fail;

/// A unit that comes to the desk has that number and accumulator.
#[derive(Clone, Copy)]
pub enum Call {
    Create(PoolNo),
    End(u32, u64, Cause),
    Join(u32, u64),
    AskCancel,
    AskMigrate(PoolNo),
    SetMigratable(bool),
    Suspend(u32, u64),
    Resume,
    Revive(PoolNo),
    Look,
    Number,
    Shown,
    Held,
    Joiner(u32),
}

// A life of unit 2, and the beginning of another.
static LIFE: [(Call, Answer); 26] = [
    (Call::Number, Answer::Number(2)),
    (Call::Shown, Answer::Shown(Some(Shown::Unborn))),
    (Call::Held, Answer::Unit((2, 7))),
    (Call::Revive(PoolNo(3)), Answer::Nobody),
    (Call::Join(1, 5), Answer::Nobody),
    (Call::Create(PoolNo(4)), Answer::Unit((2, 0))),
    (Call::Create(PoolNo(4)), Answer::Code(Code::Exists)),
    (Call::Shown, Answer::Shown(None)),
    (Call::Held, Answer::Nobody),
    (Call::Resume, Answer::Nobody),
    (Call::Suspend(2, 8), Answer::Nobody),
    (Call::Shown, Answer::Shown(Some(Shown::Suspended))),
    (Call::Held, Answer::Unit((2, 8))),
    (Call::Resume, Answer::Unit((2, 8))),
    (Call::Resume, Answer::Nobody),
    (Call::Join(0, 6), Answer::Nobody),
    (Call::Joiner(0), Answer::Unit((0, 6))),
    (Call::Joiner(3), Answer::Nobody),
    (
        Call::End(2, 8, Cause::Done),
        Answer::Units(Some((1, 5)), Some((0, 6)), None),
    ),
    (Call::Joiner(0), Answer::Nobody),
    (Call::Held, Answer::Unit((2, 8))),
    (Call::Join(1, 5), Answer::Unit((1, 5))),
    (Call::Revive(PoolNo(3)), Answer::Unit((2, 0))),
    (Call::Revive(PoolNo(3)), Answer::Nobody),
    (Call::End(2, 0, Cause::Done), NO_UNITS),
    (Call::Shown, Answer::Shown(Some(Shown::Ended(Cause::Done)))),
];

// An end that meets no desk of its own.
static SECOND_END: [(Call, Answer); 6] = [
    (Call::Create(PoolNo(4)), Answer::Unit((2, 0))),
    (Call::End(2, 0, Cause::Asked), NO_UNITS),
    (Call::End(2, 9, Cause::Done), NO_UNITS),
    (Call::Shown, Answer::Shown(Some(Shown::Ended(Cause::Asked)))),
    (Call::Held, Answer::Unit((2, 0))),
    (Call::Joiner(2), Answer::Unit((2, 9))),
];

const NOTHING: Answer = Answer::Asks(Asks {
    cancel: false,
    migrate: None,
});

// Requests to a unit that is unborn, and then out.
static REQUESTS: [(Call, Answer); 14] = [
    (Call::AskMigrate(PoolNo(1)), Answer::Code(Code::UnitState)),
    (Call::SetMigratable(false), Answer::Code(Code::Ok)),
    (Call::AskMigrate(PoolNo(3)), Answer::Code(Code::UnitState)),
    (Call::AskCancel, Answer::Code(Code::UnitState)),
    (Call::Look, NOTHING),
    (Call::Create(PoolNo(4)), Answer::Unit((2, 0))),
    (Call::SetMigratable(true), Answer::Code(Code::Ok)),
    (Call::AskMigrate(PoolNo(1)), Answer::Code(Code::Ok)),
    (Call::AskMigrate(PoolNo(2)), Answer::Code(Code::Ok)),
    (Call::SetMigratable(false), Answer::Code(Code::Ok)),
    (
        Call::AskMigrate(PoolNo(3)),
        Answer::Code(Code::NotMigratable),
    ),
    (Call::AskCancel, Answer::Code(Code::Ok)),
    (
        Call::Look,
        Answer::Asks(Asks {
            cancel: true,
            migrate: Some(PoolNo(2)),
        }),
    ),
    (Call::Look, NOTHING),
];

// Requests to a scheduler unit that is out.
static SCHEDULER_REQUESTS: [(Call, Answer); 6] = [
    (Call::Create(PoolNo(4)), Answer::Unit((2, 0))),
    (
        Call::AskMigrate(PoolNo(1)),
        Answer::Code(Code::NotMigratable),
    ),
    (Call::SetMigratable(true), Answer::Code(Code::NotMigratable)),
    (Call::AskCancel, Answer::Code(Code::Ok)),
    (
        Call::Look,
        Answer::Asks(Asks {
            cancel: true,
            migrate: None,
        }),
    ),
    (Call::Look, NOTHING),
];

// A unit that begins a life, or a code.
fn created(desk: &mut Desk, home: PoolNo) -> Answer {
    match desk.create(home) {
        Ok(unit) => out(Some(unit)),
        Err(code) => Answer::Code(code),
    }
}

impl Tried for Desk {
    type Call = Call;

    ghost stays = { λ desk. Unit {0} };

    fn answer<R: Abort>(&mut self, rt: &R, alloc: Global, call: Call) -> Result<Answer, Fail> {
        Ok(match call {
            Call::Create(home) => created(self, home),
            Call::End(number, acc, cause) => all(self.end(unit(rt, alloc, number, acc)?, cause)),
            Call::Join(number, acc) => out(self.join(unit(rt, alloc, number, acc)?)),
            Call::AskCancel => Answer::Code(self.ask_cancel()),
            Call::AskMigrate(pool) => Answer::Code(self.ask_migrate(pool)),
            Call::SetMigratable(yes) => Answer::Code(self.set_migratable(yes)),
            Call::Suspend(number, acc) => {
                self.suspend(unit(rt, alloc, number, acc)?);
                Answer::Nobody
            }
            Call::Resume => out(self.resume()),
            Call::Revive(home) => out(self.revive(home)),
            Call::Look => Answer::Asks(self.look()),
            Call::Number => Answer::Number(u64::from(self.number().0)),
            Call::Shown => Answer::Shown(self.shown()),
            Call::Held => found(self.held()),
            Call::Joiner(number) => found(self.joiner(UnitNo(number))),
        })
    }
}

// The desk of unit 2, call by call.
fn check_desk<R: Abort>(
    rt: &R,
    alloc: Global,
    sched: bool,
    rows: &[(Call, Answer)],
) -> Result<(), Fail> {
    let mut desk = Desk::new(unit(rt, alloc, 2, 7)?, sched);
    check(rt, alloc, &mut desk, rows)
}

#[test]
fn desks_keep_units_and_joiners(rt: HostRuntime) -> Result<(), Fail> {
    check_desk(&rt, rt.alloc(), false, &LIFE)?;
    check_desk(&rt, rt.alloc(), false, &SECOND_END)
}

#[test]
fn requests_are_looked_at_once(rt: HostRuntime) -> Result<(), Fail> {
    check_desk(&rt, rt.alloc(), false, &REQUESTS)?;
    check_desk(&rt, rt.alloc(), true, &SCHEDULER_REQUESTS)
}
