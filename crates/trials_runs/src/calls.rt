//! Runs on threads whose units call functions of the tests.

ghost use Rattle.std.specs.Prelude.{None};
ghost use Rattle.abt_machine.specs.Limits.{function_limit};

use crate::reports::is_reported;
use abt_check::{Verdict, check};
use abt_machine::{Event, StreamNo, UnitNo, Want, What, Workload};
use abt_order::StoredOrder;
use abt_waves::run_streams;
use abt_work::Work;
use abt_workload::read;
use std::alloc::Global;
use std::hint::spin_loop;
use std::sync::Wait;
use std::sync::atomic::{AtomicBool, AtomicU32, Ordering};
use std::test::Fail;
use std::thread::Threads;

// Four tasklets on two streams that call a function twice each.
static TWICE: &str =
    "abt 3\nstreams 2\npool 0 deque mpmc\npool 1 deque mpmc\nsched 0 randws 1 0 1\nsched 1 randws 2 1 0\nstream 0 main 0\nstream 1 main 1\nunits 4\nmany 0 4 task at 0\ncall 0\ncall 7\nprint\nend\n";

static TWICE_REPORT: &str =
    "unit 0 done: 2\nunit 1 done: 2\nunit 2 done: 2\nunit 3 done: 2\ntally units 4 unborn 0 pool 0 stream 0 blocked 0 done 4 asked 0 access 0 steps 12\nfinished\n";

// Unit 0 sets an eventual after its call. The 80 units behind it on stream 0 call too, and so do the four of stream 1, which wait for
// the eventual.
static WAITING: &str =
    "abt 3\nstreams 2\npool 0 fifo mpmc\npool 1 fifo mpmc\nsched 0 prio 0\nsched 1 prio 1\nstream 0 main 0\nstream 1 main 1\nobject 0 eventual\nunits 85\nunit 0 ult at 0\ncall 0\neset 0\nmany 1 80 ult at 0\ncall 0\nmany 81 4 ult at 1\newait 0\ncall 0\nend\n";

// The first unit of WAITING that waits.
const WAITS: u32 = 81;

// How many turns of a loop a long call takes, some milliseconds.
const LONG: u32 = 100_000;

// Counts the calls of its functions, each of which adds one to the accumulator.
#[derive(Drop)]
struct Counting {
    calls: AtomicU32,
}

impl Work for Counting {
    ghost count = { λ _. function_limit };

    ghost returns = { λ _ _ _ _ _. None };

    fn before_step(&self, _stream: StreamNo, _unit: UnitNo, _at: u32) {}

    fn watches(&self) -> bool {
        false
    }

    fn call(&self, _function: u32, _unit: UnitNo, acc: u64, _keys: &[u64]) -> u64 {
        self.calls.fetch_add(1, Ordering::SeqCst);
        acc.wrapping_add(1)
    }

    fn accepts(
        &self,
        _function: u32,
        _unit: UnitNo,
        _acc: u64,
        _keys: &[u64],
        _value: u64,
    ) -> bool {
        true
    }
}

// Takes long in each call, and notes how many calls came before the first of a unit that waited.
#[derive(Drop)]
struct Slow {
    calls: AtomicU32,
    came: AtomicBool,
    before: AtomicU32,
}

impl Work for Slow {
    ghost count = { λ _. function_limit };

    ghost returns = { λ _ _ _ _ _. None };

    fn before_step(&self, _stream: StreamNo, _unit: UnitNo, _at: u32) {}

    fn watches(&self) -> bool {
        false
    }

    fn call(&self, _function: u32, unit: UnitNo, acc: u64, _keys: &[u64]) -> u64 {
        let before = self.calls.fetch_add(1, Ordering::SeqCst);
        if unit.0 >= WAITS && !self.came.swap(true, Ordering::SeqCst) {
            self.before.store(before, Ordering::SeqCst);
        }
        for _ in 0..LONG {
            spin_loop();
        }
        acc
    }

    fn accepts(
        &self,
        _function: u32,
        _unit: UnitNo,
        _acc: u64,
        _keys: &[u64],
        _value: u64,
    ) -> bool {
        true
    }
}

fn count_calls(events: &[Event]) -> usize {
    events
        .iter()
        .filter(|event| matches!(event.what, What::Call(_, _, _)))
        .count()
}

// Whether the journal has as many calls as were made, and is a run with its report.
#[tactic(auto, using(crate::proofs::Storing::stores_calls))]
fn is_counted<R: Threads + Wait + Sync>(rt: &R, alloc: Global, w: &Workload) -> Result<bool, Want> {
    w.known();
    let work = Counting {
        calls: AtomicU32::new(0),
    };
    let orders = [StoredOrder::rotating(), StoredOrder::mirroring()];
    let run = run_streams(rt, alloc, w, &orders, &work, 1_000, true)?;
    let is = is_reported(alloc, w, run.steps, &run.picture, run.outcome, TWICE_REPORT);
    let made = work.calls.load(Ordering::SeqCst) as usize;
    match &run.journal {
        Some(journal) => {
            let verdict = check(alloc, w, &orders, &work, journal)?;
            Ok(is && made == 8 && count_calls(journal.items()) == made && verdict == Verdict::Run)
        }
        None => Ok(false),
    }
}

fn counted<R: Threads + Wait + Sync>(rt: &R, alloc: Global) -> Result<bool, Fail> {
    let w = read(alloc, TWICE.as_bytes())?;
    Ok(is_counted(rt, alloc, &w)?)
}

#[test]
fn each_call_is_made_once(rt: HostRuntime) -> Result<(), Fail> {
    let it_is = counted(&rt, rt.alloc())?;
    assert!(rt; it_is);
    Ok(())
}

// How many calls came before the first of a unit that waited on the other stream.
#[tactic(auto, using(crate::proofs::Storing::stores_calls))]
fn calls_before<R: Threads + Wait + Sync>(
    rt: &R,
    alloc: Global,
    w: &Workload,
) -> Result<u32, Want> {
    w.known();
    let work = Slow {
        calls: AtomicU32::new(0),
        came: AtomicBool::new(false),
        before: AtomicU32::new(u32::MAX),
    };
    let orders = [StoredOrder::rotating(), StoredOrder::mirroring()];
    run_streams(rt, alloc, w, &orders, &work, 1_000, false)?;
    Ok(work.before.load(Ordering::SeqCst))
}

fn waited<R: Threads + Wait + Sync>(rt: &R, alloc: Global) -> Result<u32, Fail> {
    let w = read(alloc, WAITING.as_bytes())?;
    Ok(calls_before(rt, alloc, &w)?)
}

// All units of stream 0 come first if a waiting stream is called only when the other has done its turns.
#[test]
fn ready_units_do_not_wait_for_long_calls(rt: HostRuntime) -> Result<(), Fail> {
    let before = waited(&rt, rt.alloc())?;
    assert!(rt; before < 60, "{before} calls came before");
    Ok(())
}
