//! Runs on threads that end in each way, while the other streams sleep or are at work.

ghost use Rattle.std.specs.Prelude.{◌≤◌};

use abt_machine::{Outcome, StreamNo, Want, Workload};
use abt_order::StoredOrder;
use abt_waves::run_streams;
use abt_work::AnyWork;
use abt_workload::read;
use std::alloc::{AllocError, Global};
use std::sync::Wait;
use std::test::Fail;
use std::thread::Threads;

// How many steps each stream may make.
const STEPS: u64 = 100_000;

// How many steps the units of each other stream make.
const OTHERS: u64 = 300;

// Units 0 and 1, both in the pool of stream 0, how their runs end, and how many steps the two make.
type Way = (&'static str, Outcome, u64);

static FINISHED: Way = (
    "many 0 2 ult at 0\nrepeat 200 yield\n",
    Outcome::Finished,
    400,
);

// Nobody sets the eventual.
static STUCK: Way = (
    "many 0 2 ult at 0\nrepeat 200 yield\newait 0\n",
    Outcome::Stuck,
    402,
);

// The two revive one another.
static BUDGET: Way = (
    "unit 0 ult at 0\nrevive 1 0\nunit 1 ult at 0\nrevive 0 0\n",
    Outcome::Budget(StreamNo(0)),
    STEPS,
);

// Appends streams with a private pool each.
fn push_streams(text: &mut String, streams: u32) -> Result<(), AllocError> {
    writeln!(text, "abt 2\nstreams {streams}")?;
    for s in 0..streams {
        writeln!(text, "pool {s} fifo priv of {s}")?;
    }
    for s in 0..streams {
        writeln!(text, "sched {s} prio {s}")?;
    }
    for s in 0..streams {
        writeln!(text, "stream {s} main {s}")?;
    }
    text.push_str("object 0 eventual\n")
}

// Appends three units for each stream but the first.
fn push_others(text: &mut String, streams: u32) -> Result<(), AllocError>
    requires { streams ≤ 16 }
{
    for s in 1..streams {
        let first = 3 * s - 1;
        writeln!(text, "many {first} 3 ult at {s}\nrepeat 100 yield")?;
    }
    text.push_str("end\n")
}

// The workload of this way over so many streams, of which the others are at work or asleep.
fn workload_of(alloc: Global, way: &Way, streams: u32, at_work: bool) -> Result<Workload, Fail>
    requires { streams ≤ 16 }
{
    let (lines, _, _) = way;
    let mut text = String::new(alloc);
    push_streams(&mut text, streams)?;
    if at_work {
        let units = 3 * streams;
        writeln!(text, "units {}", units.saturating_sub(1))?;
        text.push_str(lines)?;
        push_others(&mut text, streams)?;
    } else {
        writeln!(text, "units 2\n{lines}end")?;
    }
    Ok(read(alloc, text.as_bytes())?)
}

// Whether the run of a workload ends so, after so many steps.
#[tactic(auto, using(crate::proofs::Storing::stores_calls))]
fn is_run<R: Threads + Wait + Sync>(
    rt: &R,
    alloc: Global,
    w: &Workload,
    outcome: Outcome,
    steps: u64,
) -> Result<bool, Want> {
    w.known();
    let orders = [StoredOrder::rotating(), StoredOrder::mirroring()];
    let run = run_streams(rt, alloc, w, &orders, &AnyWork, STEPS, false)?;
    Ok(run.outcome == outcome && run.steps == steps)
}

// Whether the run of this way ends so, while the others are asleep and while they are at work.
fn ends_so<R: Threads + Wait + Sync>(
    rt: &R,
    alloc: Global,
    way: &Way,
    streams: u32,
) -> Result<bool, Fail>
    requires { streams ≤ 16 }
{
    let (_, outcome, steps) = way;
    let asleep = workload_of(alloc, way, streams, false)?;
    let at_work = workload_of(alloc, way, streams, true)?;
    let others = OTHERS * (streams.saturating_sub(1) as u64);
    Ok(
        is_run(rt, alloc, &asleep, *outcome, *steps)?
            && is_run(rt, alloc, &at_work, *outcome, steps.saturating_add(others))?,
    )
}

// Whether it ends so with 2, with 4 and with 16 streams.
fn ends<R: Threads + Wait + Sync>(rt: &R, alloc: Global, way: &Way) -> Result<bool, Fail> {
    Ok(ends_so(rt, alloc, way, 2)? && ends_so(rt, alloc, way, 4)? && ends_so(rt, alloc, way, 16)?)
}

#[test]
fn runs_finish_beside_other_streams(rt: HostRuntime) -> Result<(), Fail> {
    let they_do = ends(&rt, rt.alloc(), &FINISHED)?;
    assert!(rt; they_do);
    Ok(())
}

#[test]
fn runs_are_stuck_beside_other_streams(rt: HostRuntime) -> Result<(), Fail> {
    let they_are = ends(&rt, rt.alloc(), &STUCK)?;
    assert!(rt; they_are);
    Ok(())
}

#[test]
fn streams_are_spent_beside_other_streams(rt: HostRuntime) -> Result<(), Fail> {
    let they_are = ends(&rt, rt.alloc(), &BUDGET)?;
    assert!(rt; they_are);
    Ok(())
}
