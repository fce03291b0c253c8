//! Holders that keep the turn of a booth round a counter.

ghost use Rattle.std.specs.Prelude.{◌≤◌, ◌^◌};
ghost use Rattle.std.specs.List.{All};
ghost use Rattle.abt_booth.specs.Holders.{HasTurn, IsHolderOf, Rests};
ghost use Rattle.booth_caller.specs.Counters.{Adds};

use abt_booth::{Booth, Called, Holder};
use booth_caller::Counter;
use std::process::Abort;
use std::sync::Wait;
use std::thread;
use std::thread::Threads;

// How many turns each thread takes.
const TURNS: u32 = 2000;

// How many calls the first thread makes in a turn. The others make one.
const CALLS: u32 = 8;

// The stamp and the answer of a call at 0. A worn clock hands the number back.
fn ask(booth: &Booth<Counter>, holder: &mut Holder<Counter>, add: u64) -> Option<(u64, u64)>
    requires { HasTurn Adds booth.now holder.old }
    ensures { HasTurn Adds booth.now holder.new }
{
    match booth.call_held(holder, 0, add) {
        Called::Done { stamp, answer } => Some((stamp, answer)),
        Called::Worn(_) => None,
    }
}

#[test]
fn a_turn_that_is_kept_is_refused_to_others(rt: HostRuntime) {
    let Ok((booth, mut seats)) = Booth::make(rt.alloc(), Counter { sum: 0 }, 2) else {
        panic!(rt; "no memory")
    };
    let (Some(second), Some(first)) = (seats.pop(), seats.pop()) else {
        panic!(rt; "no seats")
    };
    let mut keeper = first.into_holder();
    let mut other = second.into_holder();
    booth.hold(&rt, &mut keeper);
    assert_eq!(rt; ask(&booth, &mut keeper, 5), Some((1, 5)));
    assert!(rt; !booth.try_hold(&mut other));
    assert_eq!(rt; ask(&booth, &mut keeper, 1), Some((2, 6)));
    booth.give_back(&mut keeper);
    assert!(rt; booth.try_hold(&mut other));
    assert!(rt; !booth.try_hold(&mut keeper));
    assert_eq!(rt; ask(&booth, &mut other, 1), Some((3, 7)));
    booth.give_back(&mut other);
    let mut seat = keeper.into_seat();
    let Called::Done { stamp, answer } = booth.call(&rt, &mut seat, 0, 0) else {
        panic!(rt; "the clock is worn")
    };
    assert_eq!(rt; (stamp, answer), (4, 7));
}

// Adds 1 in each of the calls of one turn.
fn add_in_a_turn<R: Wait>(rt: &R, booth: &Booth<Counter>, holder: &mut Holder<Counter>, calls: u32)
    requires { IsHolderOf booth.now holder.old × Rests holder.old }
    ensures { IsHolderOf booth.now holder.new × Rests holder.new }
{
    booth.hold(rt, holder);
    for _ in 0..calls {
        booth.call_held(holder, 0, 1);
    }
    booth.give_back(holder);
}

// Takes all turns of one thread.
fn take_turns<R: Wait>(rt: &R, booth: &Booth<Counter>, holder: &mut Holder<Counter>, calls: u32)
    requires { IsHolderOf booth.now holder.old × Rests holder.old }
    ensures { IsHolderOf booth.now holder.new × Rests holder.new }
{
    for _ in 0..TURNS {
        add_in_a_turn(rt, booth, holder, calls);
    }
}

// Takes the turns of all threads.
fn take_turns_on_threads<R: Threads + Wait + Sync>(
    rt: &R,
    booth: &Booth<Counter>,
    holders: &mut [Holder<Counter>],
)
    requires { All (λ h. IsHolderOf booth.now h × Rests h) holders.old }
{
    let threads = holders.len();
    if threads == 0 {
        return;
    }
    thread::for_each_mut(
        rt,
        holders,
        threads,
        &|i, holder: &mut Holder<Counter>|
            requires { IsHolderOf booth.now holder.now × Rests holder.now }
            ensures { IsHolderOf booth.entry.now holder.exit.now × Rests holder.exit.now }
        { take_turns(rt, booth, holder, if i == 0 { CALLS } else { 1 }) },
    );
}

#[test]
fn turns_of_many_calls_lose_none(rt: HostRuntime) {
    let Ok((booth, mut seats)) = Booth::make(rt.alloc(), Counter { sum: 0 }, 3) else {
        panic!(rt; "no memory")
    };
    let (Some(mut reader), Some(second), Some(first)) = (seats.pop(), seats.pop(), seats.pop())
    else {
        panic!(rt; "no seats")
    };
    let mut holders = [first.into_holder(), second.into_holder()];
    take_turns_on_threads(&rt, &booth, &mut holders);
    let Called::Done { stamp, answer } = booth.call(&rt, &mut reader, 0, 0) else {
        panic!(rt; "the clock is worn")
    };
    let added = (TURNS * (CALLS + 1)) as u64;
    assert_eq!(rt; (stamp, answer), (added + 1, added));
}
