//! A counter behind a booth, and threads that add to it.
ghost use Rattle.std.specs.Prelude.{◌≡◌, ◌<◌, ◌≤◌, ℕ, IfSome, length, replicate, slice_index_or};
ghost use Rattle.std.specs.List.{All};
ghost use Rattle.abt_booth.specs.Seats.{number_of, seen_of, IsSeatOf, AreInOrder};
ghost use Rattle.booth_caller.specs.Calling.{AsksMore};
ghost use Rattle.booth_caller.specs.Counts.{IsCounted};

use abt_booth::{Booth, Closed, Object, Seat};
use std::alloc::Global;
use std::sync::Wait;
use std::thread;
use std::thread::Threads;

/// A sum modulo 2^64. Its act is the number to add, its answer the new sum.
#[derive(Drop)]
pub struct Counter {
    pub sum: u64,
}

impl Object for Counter {
    ghost use Rattle.booth_caller.specs.Counters.{Adds};

    type Act = u64;

    type Answer = u64;

    ghost allowed = { λ counter act. Unit {0} };

    ghost does = { Adds };

    ghost keeps = { λ _ _ _ _ _ _ _. tt };

    fn run(&mut self, act: u64) -> u64 {
        self.sum = self.sum.wrapping_add(act);
        self.sum
    }
}

/// Counts from 0 with `threads` threads, each of which adds 1 `times` times, and closes the booth. None means out of memory.
pub fn count<R: Threads + Wait + Sync>(
    rt: &R,
    alloc: Global,
    threads: u32,
    times: u32,
) -> Option<Closed<Counter>>
    requires { 1 ≤ threads }
    ensures { IfSome result (λ closed. IsCounted threads times closed.object.sum closed.clock) }
{
    let Ok((booth, mut seats)) = Booth::make(alloc, Counter { sum: 0 }, threads) else {
        return None;
    };
    add_on_threads(rt, &booth, seats.as_mut_slice(), times);
    Some(booth.close(seats))
}

/// Adds 1 `times` times, with one seat.
pub fn add<R: Wait>(rt: &R, booth: &Booth<Counter>, seat: &mut Seat<Counter>, times: u32)
    requires { IsSeatOf booth.now seat.old }
    ensures seat { IsSeatOf booth.now seat.new }
    ensures number { number_of seat.new ≡ number_of seat.old }
    ensures asked { AsksMore (number_of seat.old) (replicate times 1) (seen_of seat.old) (seen_of seat.new) }
{
    for _ in 0..times {
        booth.call(rt, seat, 0, 1);
    }
}

/// Adds 1 `times` times with each seat, each on a thread of its own.
pub fn add_on_threads<R: Threads + Wait + Sync>(
    rt: &R,
    booth: &Booth<Counter>,
    seats: &mut [Seat<Counter>],
    times: u32,
)
    requires seats { All (IsSeatOf booth.now) seats.old }
    requires order { AreInOrder seats.old }
    ensures seats { All (IsSeatOf booth.now) seats.new }
    ensures order { AreInOrder seats.new }
    ensures asked { (i : ℕ) (d : _) → i < length seats.old → AsksMore i (replicate times 1) (seen_of (slice_index_or seats.old i d)) (seen_of (slice_index_or seats.new i d)) }
{
    let threads = seats.len();
    if threads == 0 {
        return;
    }
    thread::for_each_mut(
        rt,
        seats,
        threads,
        &|_, seat: &mut Seat<Counter>|
            requires { IsSeatOf booth.now seat.now }
            ensures { IsSeatOf booth.entry.now seat.exit.now × (number_of seat.exit.now ≡ number_of seat.entry.now) × AsksMore (number_of seat.entry.now) (replicate times 1) (seen_of seat.entry.now) (seen_of seat.exit.now) }
        { add(rt, booth, seat, times) },
    );
}
