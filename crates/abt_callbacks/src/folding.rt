//! Workers on threads that set numbers on one future, behind a lock with seats.

ghost use Rattle.std.specs.Prelude.{◌≡◌, ◌<◌, ◌≤◌, ℕ, IfOk, length, slice_index_or};
ghost use Rattle.std.specs.List.{All};
ghost use Rattle.abt_booth.specs.Seats.{number_of, seen_of, IsSeatOf, AreInOrder};
ghost use Rattle.booth_caller.specs.Calling.{AsksMore};
ghost use Rattle.abt_callbacks.specs.declared.fold.FoldShape.TheVariants as shape;
ghost use Rattle.abt_callbacks.specs.Folding.{number_limit};
ghost use Rattle.abt_callbacks.specs.Runs.{IsFolded, sets_of};
ghost use Rattle.abt_callbacks.specs.Seen.{future_of};

use crate::acts::FutureAct;
use crate::fold::Fold;
use crate::future::CalledFuture;
use abt_booth::{Booth, Closed, Seat};
use abt_machine::Want;
use std::alloc::Global;
use std::sync::Wait;
use std::thread;
use std::thread::Threads;

/// Sets the numbers from 1 to `n` on one future with `workers` workers, each on a thread of its own with a seat of one booth. Worker
/// i sets those whose remainder by the number of workers is i. Returns the future and the last stamp.
///
/// The clock is never worn: each call is asked at 0, so that the stamps are 1, 2, .. up to `n`.
pub fn fold_on_threads<R: Threads + Wait + Sync, F: Fold + Send + Drop>(
    rt: &R,
    alloc: Global,
    workers: u32,
    n: u32,
    fold: F,
) -> Result<Closed<CalledFuture<F>>, Want>
    requires workers { 1 ≤ workers }
    requires numbers { (1 ≤ n) × (n ≤ number_limit) }
    requires fold { F.shape fold ≡ shape.Sum }
    ensures { IfOk result (λ closed. IsFolded F.shape F.may_return fold workers n (future_of closed.object) closed.clock) }
{
    let future = CalledFuture::new(alloc, n, fold)?;
    let Ok((booth, mut seats)) = Booth::make(alloc, future, workers) else {
        return Err(Want);
    };
    set_on_threads(rt, &booth, seats.as_mut_slice(), n);
    Ok(booth.close(seats))
}

// Each worker sets its numbers, on a thread of its own. There are as many workers as seats.
fn set_on_threads<R: Threads + Wait + Sync, F: Fold + Send>(
    rt: &R,
    booth: &Booth<CalledFuture<F>>,
    seats: &mut [Seat<CalledFuture<F>>],
    n: u32,
)
    requires seats { All (IsSeatOf booth.now) seats.old }
    requires order { AreInOrder seats.old }
    requires some { 0 < length seats.old }
    ensures seats { All (IsSeatOf booth.now) seats.new }
    ensures order { AreInOrder seats.new }
    ensures asked { (i : ℕ) (d : _) → i < length seats.old → AsksMore i (sets_of (length seats.old) n i) (seen_of (slice_index_or seats.old i d)) (seen_of (slice_index_or seats.new i d)) }
{
    let workers = seats.len();
    thread::for_each_mut(
        rt,
        seats,
        workers,
        &|worker: usize, seat: &mut Seat<CalledFuture<F>>|
            requires { IsSeatOf booth.now seat.now × (0 < workers) }
            ensures { IsSeatOf booth.entry.now seat.exit.now × (number_of seat.exit.now ≡ number_of seat.entry.now) × AsksMore (number_of seat.entry.now) (sets_of workers n worker) (seen_of seat.entry.now) (seen_of seat.exit.now) }
        { set_numbers(rt, booth, seat, workers, n, worker) },
    );
}

// One worker sets its numbers.
fn set_numbers<R: Wait, F: Fold>(
    rt: &R,
    booth: &Booth<CalledFuture<F>>,
    seat: &mut Seat<CalledFuture<F>>,
    workers: usize,
    n: u32,
    worker: usize,
)
    requires seat { IsSeatOf booth.now seat.old }
    requires workers { 0 < workers }
    ensures seat { IsSeatOf booth.now seat.new }
    ensures number { number_of seat.new ≡ number_of seat.old }
    ensures asked { AsksMore (number_of seat.old) (sets_of workers n worker) (seen_of seat.old) (seen_of seat.new) }
{
    for below in 0..n as usize {
        let value = below + 1;
        if value % workers == worker {
            booth.call(rt, seat, 0, FutureAct::Set(value as u64));
        }
    }
}
