//! Whole runs on threads, whose journals are judged to be runs, by what their reports say.

ghost use Rattle.std.specs.Prelude.{None, ◌≤◌};
ghost use Rattle.abt_machine.specs.Limits.{function_limit};

use crate::drains::{SHARED_REPORT, shared};
use crate::reports::is_reported;
use abt_check::{Verdict, check};
use abt_generate::generate;
use abt_machine::{Outcome, StreamNo, UnitNo, Want, Workload};
use abt_order::StoredOrder;
use abt_waves::run_streams;
use abt_work::{AnyWork, Work};
use abt_workload::read;
use std::alloc::Global;
use std::hint::spin_loop;
use std::sync::Wait;
use std::sync::atomic::{AtomicBool, Ordering};
use std::test::Fail;
use std::thread::Threads;

// How many times each run is repeated.
const TIMES: u32 = 10;

// The most turns that a held step waits.
const TURNS: u32 = 10_000_000;

// Two streams that share nothing, with a step each.
static APART: &str =
    "abt 1\nstreams 2\npool 0 fifo priv of 0\npool 1 fifo priv of 1\nsched 0 prio 0\nsched 1 prio 1\nstream 0 main 0\nstream 1 main 1\nunits 2\nunit 0 ult at 0\nset 1\nunit 1 ult at 1\nset 1\nend\n";

static APART_REPORT: &str =
    "unit 0 done:\nunit 1 done:\ntally units 2 unborn 0 pool 0 stream 0 blocked 0 done 2 asked 0 access 0 steps 2\nfinished\n";

// 4,000 units add 1 to a number and meet at a barrier, where one more waits for them and then prints the number.
static BARRIER: &str =
    "abt 2\nstreams 2\npool 0 fifo mpmc\nsched 0 prio 0\nsched 1 prio 0\nstream 0 main 0\nstream 1 main 1\nobject 0 mutex\nobject 1 barrier 4001\nunits 4001\nmany 0 4000 ult at 0\nlock 0\nload 0\nadd 1\nstore 0\nunlock 0\nbwait 1\nunit 4000 ult at 0\nbwait 1\nlock 0\nload 0\nprint\nunlock 0\nend\n";

// Holds each step of one stream until the other has reached one, or for as many turns as a held step waits.
#[derive(Drop)]
struct Meeting {
    held: StreamNo,
    reached: AtomicBool,
    met: AtomicBool,
}

impl Meeting {
    fn new(held: StreamNo) -> Meeting {
        Meeting {
            held,
            reached: AtomicBool::new(false),
            met: AtomicBool::new(false),
        }
    }

    // Whether a held step saw that the other stream had reached one.
    fn has_met(&self) -> bool {
        self.met.load(Ordering::SeqCst)
    }
}

impl Work for Meeting {
    ghost count = { λ _. function_limit };

    ghost returns = { λ _ _ _ _ _. None };

    fn before_step(&self, stream: StreamNo, _unit: UnitNo, _at: u32) {
        if stream != self.held {
            self.reached.store(true, Ordering::SeqCst);
            return;
        }
        for _ in 0..TURNS {
            if self.reached.load(Ordering::SeqCst) {
                self.met.store(true, Ordering::SeqCst);
                return;
            }
            spin_loop();
        }
    }

    fn call(&self, _function: u32, _unit: UnitNo, acc: u64, _keys: &[u64]) -> u64 {
        acc
    }

    fn accepts(
        &self,
        _function: u32,
        _unit: UnitNo,
        _acc: u64,
        _keys: &[u64],
        _value: u64,
    ) -> bool {
        true
    }
}

// Whether a run on threads has this report, or is finished if none is stated, and has a journal that is judged to be a run.
#[tactic(auto, using(crate::proofs::Storing::stores_calls))]
fn is_run<R: Threads + Wait + Sync, P: Work + Sync>(
    rt: &R,
    alloc: Global,
    w: &Workload,
    work: &P,
    steps: u64,
    report: Option<&str>,
) -> Result<bool, Want>
    requires { function_limit ≤ P.count work.now }
{
    w.known();
    let orders = [StoredOrder::rotating(), StoredOrder::mirroring()];
    let run = run_streams(rt, alloc, w, &orders, work, steps, true)?;
    let is = match report {
        Some(text) => is_reported(alloc, w, run.steps, &run.picture, run.outcome, text),
        None => run.outcome == Outcome::Finished,
    };
    match &run.journal {
        Some(journal) => Ok(is && check(alloc, w, &orders, work, journal)? == Verdict::Run),
        None => Ok(false),
    }
}

// As `is_run`, of each of several runs of at most 10,000 steps a stream.
fn are_runs<R: Threads + Wait + Sync>(
    rt: &R,
    alloc: Global,
    w: &Workload,
    report: Option<&str>,
) -> Result<bool, Want> {
    for _ in 0..TIMES {
        if !is_run(rt, alloc, w, &AnyWork, 10_000, report)? {
            return Ok(false);
        }
    }
    Ok(true)
}

// As `are_runs`, of two streams that share a number.
fn share<R: Threads + Wait + Sync>(rt: &R, alloc: Global) -> Result<bool, Fail> {
    let w = shared(alloc)?;
    Ok(are_runs(rt, alloc, &w, Some(SHARED_REPORT))?)
}

#[test]
fn streams_on_threads_share_a_number(rt: HostRuntime) -> Result<(), Fail> {
    let they_do = share(&rt, rt.alloc())?;
    assert!(rt; they_do);
    Ok(())
}

// As `are_runs`, of 126 adders.
fn add<R: Threads + Wait + Sync>(rt: &R, alloc: Global) -> Result<bool, Fail> {
    let w = generate(alloc, 126)?;
    Ok(are_runs(rt, alloc, &w, None)?)
}

#[test]
fn journals_of_threads_are_judged_runs(rt: HostRuntime) -> Result<(), Fail> {
    let they_are = add(&rt, rt.alloc())?;
    assert!(rt; they_are);
    Ok(())
}

// As `is_run`, of a barrier that lets 4,001 units through.
fn let_through<R: Threads + Wait + Sync>(rt: &R, alloc: Global) -> Result<bool, Fail> {
    let w = read(alloc, BARRIER.as_bytes())?;
    Ok(is_run(rt, alloc, &w, &AnyWork, 100_000, None)?)
}

#[test]
fn a_journal_of_4001_units_is_judged_a_run(rt: HostRuntime) -> Result<(), Fail> {
    let it_is = let_through(&rt, rt.alloc())?;
    assert!(rt; it_is);
    Ok(())
}

// Whether a run has its report, and a held step of this stream meets one of the other.
fn meets<R: Threads + Wait + Sync>(rt: &R, alloc: Global, held: StreamNo) -> Result<bool, Fail> {
    let w = read(alloc, APART.as_bytes())?;
    let meeting = Meeting::new(held);
    let is = is_run(rt, alloc, &w, &meeting, 10_000, Some(APART_REPORT))?;
    Ok(is && meeting.has_met())
}

#[test]
fn steps_of_two_streams_meet(rt: HostRuntime) -> Result<(), Fail> {
    let first = meets(&rt, rt.alloc(), StreamNo(0))?;
    let second = meets(&rt, rt.alloc(), StreamNo(1))?;
    assert!(rt; first, "stream 0 is held");
    assert!(rt; second, "stream 1 is held");
    Ok(())
}
