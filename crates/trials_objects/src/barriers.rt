//! Barriers of one and of three parties against worked rows.

use crate::answers::{Answer, found, through};
use crate::samples::unit;
use crate::tried::{Tried, check};
use abt_barrier::Barrier;
use abt_machine::UnitNo;
use std::alloc::Global;
use std::process::Abort;
use std::test::Fail;

/// The unit that arrives or waits has that number.
#[derive(Clone, Copy)]
pub enum Call {
    Arrive(u32),
    Waiter(u32),
}

static ONE: [(Call, Answer); 2] = [
    (Call::Arrive(2), Answer::Units(Some((2, 0)), None, None)),
    (Call::Arrive(0), Answer::Units(Some((0, 0)), None, None)),
];

static THREE: [(Call, Answer); 9] = [
    (Call::Arrive(2), Answer::Nobody),
    (Call::Arrive(0), Answer::Nobody),
    (Call::Waiter(2), Answer::Unit((2, 0))),
    (Call::Waiter(1), Answer::Nobody),
    (
        Call::Arrive(1),
        Answer::Units(Some((1, 0)), Some((2, 0)), Some((0, 0))),
    ),
    // and once more
    (Call::Waiter(2), Answer::Nobody),
    (Call::Arrive(3), Answer::Nobody),
    (Call::Arrive(1), Answer::Nobody),
    (
        Call::Arrive(2),
        Answer::Units(Some((2, 0)), Some((3, 0)), Some((1, 0))),
    ),
];

impl Tried for Barrier {
    type Call = Call;

    ghost stays = { λ barrier. Unit {0} };

    fn answer<R: Abort>(&mut self, rt: &R, alloc: Global, call: Call) -> Result<Answer, Fail> {
        Ok(match call {
            Call::Arrive(number) => through(self.arrive(unit(rt, alloc, number, 0)?)),
            Call::Waiter(number) => found(self.waiter(UnitNo(number))),
        })
    }
}

#[test]
fn the_last_party_takes_the_others_through(rt: HostRuntime) -> Result<(), Fail> {
    let mut barrier = Barrier::new(1);
    check(&rt, rt.alloc(), &mut barrier, &ONE)?;
    let mut barrier = Barrier::new(3);
    check(&rt, rt.alloc(), &mut barrier, &THREE)
}
