//! Streams that wait for work: a busy one calls them, and they do not leave their wave for nothing.

ghost use Rattle.std.specs.Prelude.{None};
ghost use Rattle.abt_machine.specs.Limits.{function_limit};

use abt_machine::{Outcome, StreamNo, UnitNo, Want, Workload};
use abt_order::StoredOrder;
use abt_streams::{read_lives, run_lives};
use abt_waves::run_streams;
use abt_work::{AnyWork, Work};
use abt_workload::read;
use std::alloc::{AllocError, Global};
use std::hint::spin_loop;
use std::sync::Wait;
use std::sync::atomic::{AtomicBool, AtomicU32, Ordering};
use std::test::Fail;
use std::thread::Threads;

// Stream 1 makes one step, and then waits. Units 0 and 1 revive one another on stream 0 for ever. Beside them unit 3 makes 4,000 steps, by
// which stream 1 sleeps, and then creates unit 2 for it.
static BUSY: &str =
    "abt 3\nstreams 2\npool 0 fifo mpmc\npool 1 fifo mpmc\nsched 0 prio 0\nsched 1 prio 1\nstream 0 main 0\nstream 1 main 1\nunits 5\nunit 0 ult at 0\nrevive 1 0\nunit 1 ult at 0\nrevive 0 0\nunit 2 ult later\nset 1\nunit 3 ult at 0\nrepeat 4000 yield\ncreate 2 1\nunit 4 ult at 1\nset 1\nend\n";

// The unit that is created.
const CREATED: UnitNo = UnitNo(2);

// How many steps each stream may make.
const STEPS: u64 = 70_000;

// The step of stream 0 that is held: by then a stream with work has called those that wait.
const HELD: u32 = 60_000;

// The most turns that a held step waits.
const TURNS: u32 = 50_000_000;

// Holds the first step of stream 0 until stream 1 has made one, and a later one until the created unit makes its step.
#[derive(Drop)]
struct Holding {
    steps: AtomicU32,
    started: AtomicBool,
    came: AtomicBool,
    met: AtomicBool,
}

impl Holding {
    fn new() -> Holding {
        Holding {
            steps: AtomicU32::new(0),
            started: AtomicBool::new(false),
            came: AtomicBool::new(false),
            met: AtomicBool::new(false),
        }
    }

    // Holds a step of stream 0.
    fn hold(&self) {
        let step = self.steps.fetch_add(1, Ordering::SeqCst);
        if step == 0 {
            is_seen(&self.started);
        }
        if step == HELD {
            self.met.store(is_seen(&self.came), Ordering::SeqCst);
        }
    }
}

impl Work for Holding {
    ghost count = { λ _. function_limit };

    ghost returns = { λ _ _ _ _ _. None };

    fn before_step(&self, stream: StreamNo, unit: UnitNo, _at: u32) {
        if unit == CREATED {
            self.came.store(true, Ordering::SeqCst);
        }
        if stream == StreamNo(0) {
            self.hold();
        } else {
            self.started.store(true, Ordering::SeqCst);
        }
    }

    fn call(&self, _function: u32, _unit: UnitNo, acc: u64, _keys: &[u64]) -> u64 {
        acc
    }

    fn accepts(
        &self,
        _function: u32,
        _unit: UnitNo,
        _acc: u64,
        _keys: &[u64],
        _value: u64,
    ) -> bool {
        true
    }
}

// Whether the flag is set within the turns that a held step waits.
pub(crate) fn is_seen(flag: &AtomicBool) -> bool {
    for _ in 0..TURNS {
        if flag.load(Ordering::SeqCst) {
            return true;
        }
        spin_loop();
    }
    false
}

// Whether the created unit comes while stream 0 is at work.
#[tactic(auto, using(crate::proofs::Storing::stores_calls))]
fn comes<R: Threads + Wait + Sync>(rt: &R, alloc: Global, w: &Workload) -> Result<bool, Want> {
    w.known();
    let work = Holding::new();
    let orders = [StoredOrder::rotating(), StoredOrder::mirroring()];
    let run = run_streams(rt, alloc, w, &orders, &work, STEPS, false)?;
    let met = work.met.load(Ordering::SeqCst);
    Ok(met && run.outcome == Outcome::Budget(StreamNo(0)))
}

fn busy_comes<R: Threads + Wait + Sync>(rt: &R, alloc: Global) -> Result<bool, Fail> {
    let w = read(alloc, BUSY.as_bytes())?;
    Ok(comes(rt, alloc, &w)?)
}

#[test]
fn a_busy_stream_calls_those_that_wait(rt: HostRuntime) -> Result<(), Fail> {
    let it_does = busy_comes(&rt, rt.alloc())?;
    assert!(rt; it_does);
    Ok(())
}

// How often each of two units waits for the other.
const TIMES: u32 = 100;

static PAIR: &str =
    "abt 1\nstreams 2\npool 0 fifo mpmc\npool 1 fifo mpmc\nsched 0 prio 0\nsched 1 prio 1\nstream 0 main 0\nstream 1 main 1\n";

// Appends a unit that sets the eventuals from this one on by turns, and one that waits for them.
fn push_turns(text: &mut String) -> Result<(), AllocError> {
    text.push_str(PAIR)?;
    for x in 0..2 * TIMES {
        writeln!(text, "object {x} eventual")?;
    }
    text.push_str("units 2\nunit 0 ult at 0\n")?;
    for x in 0..TIMES {
        writeln!(text, "eset {}\newait {}", 2 * x, 2 * x + 1)?;
    }
    text.push_str("unit 1 ult at 1\n")?;
    for x in 0..TIMES {
        writeln!(text, "ewait {}\neset {}", 2 * x, 2 * x + 1)?;
    }
    text.push_str("end\n")
}

// How many waves a run has whose streams all live.
#[tactic(auto, using(crate::proofs::Storing::stores_calls))]
fn count_waves<R: Threads + Wait + Sync>(
    rt: &R,
    alloc: Global,
    w: &Workload,
) -> Result<usize, Fail> {
    let lives = read_lives(alloc, w, b"")?;
    w.known();
    let orders = [StoredOrder::rotating(), StoredOrder::mirroring()];
    let run = run_lives(rt, alloc, w, &lives, &orders, &AnyWork, 1_000)?;
    Ok(run.waves.items().len())
}

// How many waves the run of the two units has.
fn waves_of_turns<R: Threads + Wait + Sync>(rt: &R, alloc: Global) -> Result<usize, Fail> {
    let mut text = String::new(alloc);
    push_turns(&mut text)?;
    let w = read(alloc, text.as_bytes())?;
    count_waves(rt, alloc, &w)
}

// If a stream left its wave whenever it finds nothing, there would be a wave for each time that a unit waits.
#[test]
fn streams_that_wait_for_one_another_stay_in_their_wave(rt: HostRuntime) -> Result<(), Fail> {
    let waves = waves_of_turns(&rt, rt.alloc())?;
    assert!(rt; waves < 20, "{waves} waves");
    Ok(())
}
