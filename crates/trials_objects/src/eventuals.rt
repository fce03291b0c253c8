//! Who waits for a value and what it is, on rows of calls.

ghost use Rattle.abt_unit.specs.Units.{IsFree};

use crate::answers::{Answer, NO_UNITS, all_or_code, found, out};
use crate::samples::unit;
use crate::tried::{Tried, check};
use abt_eventual::{Eventual, Future};
use abt_machine::{Code, Combine, UnitNo};
use abt_unit::Unit;
use std::alloc::Global;
use std::process::Abort;
use std::test::Fail;

/// The unit that waits has that number.
#[derive(Clone, Copy)]
pub enum Call {
    Wait(u32),
    Set(u64),
    Reset,
    Test,
    Waiter(u32),
}

// What an eventual or a future answers.
macro_rules! answered {
    ($tried:expr, $rt:expr, $alloc:expr, $call:expr) => {
        match $call {
            Call::Wait(number) => out($tried.wait(unit($rt, $alloc, number, 0)?)),
            Call::Set(value) => all_or_code($tried.set(value)),
            Call::Reset => {
                $tried.reset();
                Answer::Nobody
            }
            Call::Test => Answer::Truth($tried.test()),
            Call::Waiter(number) => found($tried.waiter(UnitNo(number))),
        }
    };
}

static EVENTUAL: [(Call, Answer); 14] = [
    (Call::Test, Answer::Truth(false)),
    (Call::Wait(0), Answer::Nobody),
    // a reset keeps who waits
    (Call::Reset, Answer::Nobody),
    (Call::Wait(1), Answer::Nobody),
    (Call::Waiter(1), Answer::Unit((1, 0))),
    (Call::Waiter(2), Answer::Nobody),
    (
        Call::Set(7),
        Answer::Units(Some((0, 7)), Some((1, 7)), None),
    ),
    (Call::Test, Answer::Truth(true)),
    (Call::Set(8), Answer::Code(Code::EventualSet)),
    (Call::Wait(2), Answer::Unit((2, 7))),
    (Call::Reset, Answer::Nobody),
    (Call::Test, Answer::Truth(false)),
    (Call::Wait(2), Answer::Nobody),
    (Call::Set(9), Answer::Units(Some((2, 9)), None, None)),
];

impl Tried for Eventual {
    type Call = Call;

    ghost stays = { λ eventual. Unit {0} };

    fn answer<R: Abort>(&mut self, rt: &R, alloc: Global, call: Call) -> Result<Answer, Fail> {
        Ok(answered!(self, rt, alloc, call))
    }
}

#[test]
fn eventuals_are_set_once(rt: HostRuntime) -> Result<(), Fail> {
    let mut eventual = Eventual::new();
    check(&rt, rt.alloc(), &mut eventual, &EVENTUAL)
}

// Of a future of two compartments that adds.
static FUTURE: [(Call, Answer); 14] = [
    (Call::Test, Answer::Truth(false)),
    (Call::Wait(0), Answer::Nobody),
    (Call::Set(5), NO_UNITS),
    // a reset empties the compartments, and keeps who waits
    (Call::Reset, Answer::Nobody),
    (Call::Wait(1), Answer::Nobody),
    (Call::Waiter(0), Answer::Unit((0, 0))),
    (Call::Waiter(2), Answer::Nobody),
    (Call::Set(6), NO_UNITS),
    (
        Call::Set(7),
        Answer::Units(Some((0, 13)), Some((1, 13)), None),
    ),
    (Call::Test, Answer::Truth(true)),
    (Call::Set(1), Answer::Code(Code::FutureFull)),
    (Call::Wait(2), Answer::Unit((2, 13))),
    (Call::Reset, Answer::Nobody),
    (Call::Test, Answer::Truth(false)),
];

impl Tried for Future {
    type Call = Call;

    ghost stays = { λ future. Unit {0} };

    fn answer<R: Abort>(&mut self, rt: &R, alloc: Global, call: Call) -> Result<Answer, Fail> {
        Ok(answered!(self, rt, alloc, call))
    }
}

#[test]
fn futures_are_ready_with_their_last_value(rt: HostRuntime) -> Result<(), Fail> {
    let mut future = Future::new(2, Combine::Sum);
    check(&rt, rt.alloc(), &mut future, &FUTURE)
}

// How values are combined, three of them, and what they come to.
static COMBINED: [(Combine, [u64; 3], u64); 4] = [
    (Combine::Sum, [3, 4, 0], 7),
    (Combine::Sum, [u64::MAX, 3, 1], 3),
    (Combine::Max, [3, 9, 4], 9),
    (Combine::Count, [8, 8, 8], 3),
];

// What the unit gets of a future that combines these values.
fn combined(rt: &impl Abort, combine: Combine, values: [u64; 3], unit: Box<Unit>) -> Answer
    requires { IsFree unit.value }
{
    let mut future = Future::new(3, combine);
    for value in values {
        assert!(rt; future.set(value).is_ok());
    }
    out(future.wait(unit))
}

#[test]
fn futures_combine_their_values(rt: HostRuntime) -> Result<(), Fail> {
    for (combine, values, wanted) in COMBINED {
        let unit = unit(&rt, rt.alloc(), 0, 0)?;
        assert!(rt; combined(&rt, combine, values, unit) == Answer::Unit((0, wanted)));
    }
    Ok(())
}
