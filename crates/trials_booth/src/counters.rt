//! Counters behind a booth: stamps and answers, threads, and a booth that is closed as it was made.

ghost use Rattle.std.specs.Prelude.{◌≡◌, ◌≤◌, ◌^◌};
ghost use Rattle.std.specs.List.{All};
ghost use Rattle.abt_booth.specs.Seats.{number_of, IsSeatOf};

use abt_booth::{Booth, Called, Object, Seat};
use booth_caller::{Counter, count};
use std::hint::spin_loop;
use std::process::Abort;
use std::sync::Wait;
use std::thread;
use std::thread::Threads;
use weave_caller::add_twice;

// The last stamp.
const LAST: u64 = 1 << 62;

// The least stamp that a call must not have, what it adds, and its stamp and answer, if the clock is not worn.
static CALLS: [(u64, u64, Option<(u64, u64)>); 7] = [
    (0, 5, Some((1, 5))),
    (5, 1, Some((6, 6))),
    (0, 1, Some((7, 7))),
    (LAST - 1, 1, Some((LAST, 8))),
    (0, 1, None),
    (LAST, 2, None),
    (0, 1, None),
];

// How many callers meet at a booth whose clock is at its last stamp.
const CALLERS: u32 = 8;

// How many turns of a loop a slow act takes, more than a thread needs to start.
const SLOW: u32 = 10_000_000;

// An object that takes long for each act, and answers it.
#[derive(Drop)]
struct Slow;

impl Object for Slow {
    type Act = u64;

    type Answer = u64;

    ghost allowed = { λ _ _. Unit {0} };

    ghost does = { λ _ _ _ _. Unit {0} };

    ghost keeps = { λ _ _ _ _ _ _ _. tt };

    fn run(&mut self, act: u64) -> u64 {
        for _ in 0..SLOW {
            spin_loop();
        }
        act
    }
}

// The stamp and the answer of a call. A worn clock hands the number back.
fn ask<R: Wait + Abort>(
    rt: &R,
    booth: &Booth<Counter>,
    seat: &mut Seat<Counter>,
    at: u64,
    add: u64,
) -> Option<(u64, u64)>
    requires seat { IsSeatOf booth.now seat.old }
    requires at { at ≤ 2 ^ 62 }
    ensures seat { IsSeatOf booth.now seat.new }
    ensures number { number_of seat.new ≡ number_of seat.old }
{
    match booth.call(rt, seat, at, add) {
        Called::Done { stamp, answer } => Some((stamp, answer)),
        Called::Worn(back) => {
            assert_eq!(rt; back, add);
            None
        }
    }
}

// Each call has its stamp and its answer.
fn ask_all<R: Wait + Abort>(rt: &R, booth: &Booth<Counter>, seat: &mut Seat<Counter>)
    requires { IsSeatOf booth.now seat.old }
    ensures seat { IsSeatOf booth.now seat.new }
    ensures number { number_of seat.new ≡ number_of seat.old }
{
    for (at, add, answered) in CALLS {
        assert!(rt; at <= LAST);
        assert_eq!(rt; ask(rt, booth, seat, at, add), answered, "at {at}");
    }
}

#[test]
fn a_counter_answers_behind_a_booth(rt: HostRuntime) {
    let Ok((booth, mut seats)) = Booth::make(rt.alloc(), Counter { sum: 0 }, 1) else {
        panic!(rt; "no memory")
    };
    let Some(mut seat) = seats.pop() else {
        panic!(rt; "no seat")
    };
    ask_all(&rt, &booth, &mut seat);
    let closed = booth.finish(seat.retire());
    assert_eq!(rt; (closed.object.sum, closed.clock), (8, LAST));
}

#[test]
fn four_threads_add_a_thousand_times_each(rt: HostRuntime) {
    let closed = count(&rt, rt.alloc(), 4, 1000).expect(&rt, "there is memory");
    assert_eq!(rt; (closed.object.sum, closed.clock), (4000, 4000));
}

#[test]
fn a_hundred_seats_count(rt: HostRuntime) {
    let closed = count(&rt, rt.alloc(), 100, 3).expect(&rt, "there is memory");
    assert_eq!(rt; (closed.object.sum, closed.clock), (300, 300));
}

#[test]
fn two_streams_add_to_one_sum(rt: HostRuntime) {
    assert_eq!(rt; add_twice(&rt, rt.alloc()), Some(7));
}

// `rt try --test --fail-alloc N`, for N from 1 to 4, refuses each allocation of `make` in turn.
#[test]
fn make_gives_all_seats_or_hands_the_object_back(rt: HostRuntime) {
    match Booth::make(rt.alloc(), Counter { sum: 7 }, 3) {
        Ok((booth, seats)) => {
            let closed = booth.close(seats);
            assert_eq!(rt; (closed.object.sum, closed.clock), (7, 0));
        }
        Err(counter) => assert_eq!(rt; counter.sum, 7),
    }
}

// Each caller calls once on a thread of its own.
fn call_each<R: Threads + Wait + Sync>(rt: &R, booth: &Booth<Slow>, seats: &mut [Seat<Slow>])
    requires { All (IsSeatOf booth.now) seats.old }
{
    let threads = seats.len();
    if threads == 0 {
        return;
    }
    thread::for_each_mut(
        rt,
        seats,
        threads,
        &|_, seat: &mut Seat<Slow>|
            requires { IsSeatOf booth.now seat.now }
            ensures { IsSeatOf booth.entry.now seat.exit.now }
        { call_once(rt, booth, seat) },
    );
}

// A call that has the last stamp, or none.
fn call_once<R: Wait>(rt: &R, booth: &Booth<Slow>, seat: &mut Seat<Slow>)
    requires { IsSeatOf booth.now seat.old }
    ensures { IsSeatOf booth.now seat.new }
{
    booth.call(rt, seat, LAST - 1, 1);
}

// The act of the first caller takes long, so that the others sleep. If one of them did not wake the next, the test would not end.
#[test]
fn each_caller_is_answered_once_the_clock_is_worn(rt: HostRuntime) {
    let Ok((booth, mut seats)) = Booth::make(rt.alloc(), Slow, CALLERS) else {
        panic!(rt; "no memory")
    };
    call_each(&rt, &booth, seats.as_mut_slice());
}
