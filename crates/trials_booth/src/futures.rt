//! The calls of futures, by themselves and behind a booth.

ghost use Rattle.std.specs.Prelude.{◌≡◌, ◌<◌, ◌≤◌, length};
ghost use Rattle.abt_booth.specs.Seats.{IsSeatOf};
ghost use Rattle.abt_callbacks.specs.Folding.{first_of};

use abt_booth::{Booth, Called, Object, Seat};
use abt_callbacks::{CalledFuture, Fold, FoldShape, FutureAct, FutureAnswer, PlainSum, StoredFold};
use abt_machine::Code;
use std::process::Abort;
use std::sync::Wait;
use std::test::Fail;

// What a future of two values is asked, and what it answers with the first value, and with the sum.
static CALLS: [(FutureAct, FutureAnswer, FutureAnswer); 7] = [
    (FutureAct::Read, FutureAnswer::Vacant, FutureAnswer::Vacant),
    (FutureAct::Set(7), FutureAnswer::Kept, FutureAnswer::Kept),
    (
        FutureAct::Set(9),
        FutureAnswer::Ready(7),
        FutureAnswer::Ready(16),
    ),
    (FutureAct::Set(1), FutureAnswer::Full, FutureAnswer::Full),
    (
        FutureAct::Read,
        FutureAnswer::Ready(7),
        FutureAnswer::Ready(16),
    ),
    (FutureAct::Reset, FutureAnswer::Vacant, FutureAnswer::Vacant),
    (FutureAct::Set(5), FutureAnswer::Kept, FutureAnswer::Kept),
];

// The first of some numbers.
fn first(values: &[u64]) -> u64
    requires { 1 ≤ length values.now }
    ensures { result ≡ first_of values.now }
{
    values[0]
}

fn five(_values: &[u64]) -> u64 {
    5
}

#[test]
fn a_future_calls_its_fold_with_its_last_value(rt: HostRuntime) -> Result<(), Fail> {
    let alloc = rt.alloc();
    let fold = StoredFold::new(FoldShape::First, Box::new(alloc, first)?);
    let mut future = CalledFuture::new(alloc, 2, fold)?;
    for (act, answer, _) in CALLS {
        assert_eq!(rt; future.run(act), answer);
    }
    assert_eq!(rt; future.set(1), Ok(Some(5)));
    assert_eq!(rt; future.set(1), Err(Code::FutureFull));
    Ok(())
}

#[test]
fn a_free_fold_is_called(rt: HostRuntime) -> Result<(), Fail> {
    let alloc = rt.alloc();
    let fold = StoredFold::new(FoldShape::Free, Box::new(alloc, five)?);
    let mut future = CalledFuture::new(alloc, 1, fold)?;
    assert_eq!(rt; future.set(3), Ok(Some(5)));
    Ok(())
}

// A future's answer to one act behind a booth.
fn ask<R: Wait>(
    rt: &R,
    booth: &Booth<CalledFuture<PlainSum>>,
    seat: &mut Seat<CalledFuture<PlainSum>>,
    act: FutureAct,
) -> Option<FutureAnswer>
    requires seat { IsSeatOf booth.now seat.old }
    ensures seat { IsSeatOf booth.now seat.new }
{
    match booth.call(rt, seat, 0, act) {
        Called::Done { stamp: _, answer } => Some(answer),
        Called::Worn(_) => None,
    }
}

#[test]
fn a_future_answers_behind_a_booth(rt: HostRuntime) -> Result<(), Fail> {
    let alloc = rt.alloc();
    let future = CalledFuture::new(alloc, 2, PlainSum)?;
    let Ok((booth, mut seats)) = Booth::make(alloc, future, 1) else {
        panic!(rt; "no memory")
    };
    let Some(mut seat) = seats.pop() else {
        panic!(rt; "no seat")
    };
    for (act, _, answer) in CALLS {
        assert_eq!(rt; ask(&rt, &booth, &mut seat, act), Some(answer));
    }
    Ok(())
}
