//! The streams of a wave, each on a thread of its own.

ghost use Rattle.std.specs.Prelude.{ℕ, ◌≡◌, ◌<◌, IfOk, length, slice_index_or};
ghost use Rattle.std.specs.List.{All};
ghost use Rattle.abt_machine.specs.Rounds.{OrdersStored};
ghost use Rattle.abt_machine.specs.Stored.{CallsStored};
ghost use Rattle.abt_stream.specs.Answers.{FitsAnswers};
ghost use Rattle.abt_waves.specs.Jobs.{HasReturned, JobValue, MayGo, jobs_of};
ghost use Rattle.abt_waves.specs.Storing.{stored_by};
ghost use Rattle.abt_waves.specs.declared.voyages.Returned.{Returned};

use crate::locks::{Locked, Orders};
use crate::voyages::{Job, Returned, voyage};
use crate::watch::Watch;
use abt_machine::{Want, Workload};
use abt_stream::Stream;
use abt_work::Work;
use std::alloc::{AllocError, Global};
use std::sync::Wait;
use std::thread;
use std::thread::Threads;

/// Each stream with the pass of its number, and whether it is live.
pub(crate) fn jobs<'a, C, X: Drop>(
    alloc: Global,
    locks: &'a C,
    streams: Vec<Stream>,
    passes: Vec<X>,
    live: &[bool],
) -> Result<Vec<Job<'a, C, X>>, Want>
    requires passes { length streams.items ≡ length passes.items }
    requires flags { length streams.items ≡ length live.now }
    ensures { IfOk result (λ jobs. jobs.items ≡ jobs_of locks.now streams.items passes.items live.now) }
{
    let mut jobs = Vec::with_capacity(alloc, streams.len())?;
    let mut left = passes.into_iter();
    let mut flags = live.iter();
    let mut number: u32 = 0;
    'streams: for stream in streams {
        let (Some(pass), Some(live)) = (left.next(), flags.next()) else {
            unreachable!();
        };
        jobs.push(Job {
            locks,
            number,
            stream,
            pass,
            live: *live,
        })?;
        number = number.wrapping_add(1);
    }
    Ok(jobs)
}

/// All streams of a wave, each on a thread of its own. If no thread can be started, the caller's does that work.
pub(crate) fn run_jobs<
    'a,
    R: Threads + Wait + Sync,
    P: Work + Sync,
    O: Orders + Sync,
    X: Send + Drop,
    C: Locked<Pass = X> + Sync,
>(
    rt: &R,
    w: &Workload,
    orders: &O,
    work: &P,
    watch: &Watch,
    jobs: Vec<Job<'a, C, X>>,
) -> Result<Vec<Returned<X>>, AllocError>
    requires stored { OrdersStored w.now (O.shapes orders.now) }
    requires calls { CallsStored w.now (P.count work.now) }
    requires may { All (MayGo C.is_of C.locks w.now (stored_by (O.shapes orders.now) (P.returns work.now))) jobs.items }
    ensures many { IfOk result (λ returned. length returned.items ≡ length jobs.entry.items) }
    ensures each { IfOk result (λ returned. (i : ℕ) (job : JobValue C X) (back : Returned X) → i < length jobs.entry.items → HasReturned C.is_of C.locks C.lock w.now (stored_by (O.shapes orders.now) (P.returns work.now)) (slice_index_or jobs.entry.items i job) (slice_index_or returned.items i back)) }
    ensures answers { IfOk result (λ returned. (i : ℕ) (job : JobValue C X) (back : Returned X) → i < length jobs.entry.items → FitsAnswers w.now (O.answered orders.now w.now) (slice_index_or jobs.entry.items i job).stream → FitsAnswers w.now (O.answered orders.now w.now) (slice_index_or returned.items i back).stream) }
{
    thread::map_vec(
        rt,
        jobs,
        &|job|
            requires { OrdersStored w.now (O.shapes orders.now) × CallsStored w.now (P.count work.now) × MayGo C.is_of C.locks w.now (stored_by (O.shapes orders.now) (P.returns work.now)) job }
            ensures returned { HasReturned C.is_of C.locks C.lock w.entry.now (stored_by (O.shapes orders.entry.now) (P.returns work.entry.now)) job.entry result }
            ensures answers { FitsAnswers w.entry.now (O.answered orders.entry.now w.entry.now) job.entry.stream → FitsAnswers w.entry.now (O.answered orders.entry.now w.entry.now) result.stream }
        { voyage(rt, w, orders, work, watch, job) },
    )
}
