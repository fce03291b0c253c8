//! A whole run on the caller's thread, by what its report says.

use crate::reports::is_reported;
use abt_drain::drain;
use abt_machine::{Want, Workload};
use abt_order::StoredOrder;
use abt_workload::read;
use std::alloc::{AllocError, Global};
use std::test::Fail;

// Two streams steal from one another: each of forty units adds one to a number, and the last prints it.
static SHARED: &str =
    "abt 1\nstreams 2\npool 0 deque mpmc\npool 1 deque mpmc\nsched 0 randws 1 0 1\nsched 1 randws 2 1 0\nstream 0 main 0\nstream 1 main 1\nobject 0 mutex\nunits 41\n";

/// The report on them.
pub(crate) static SHARED_REPORT: &str =
    "unit 0 done:\nunit 1 done:\nunit 2 done:\nunit 3 done:\nunit 4 done:\nunit 5 done:\nunit 6 done:\nunit 7 done:\nunit 8 done:\nunit 9 done:\nunit 10 done:\nunit 11 done:\nunit 12 done:\nunit 13 done:\nunit 14 done:\nunit 15 done:\nunit 16 done:\nunit 17 done:\nunit 18 done:\nunit 19 done:\nunit 20 done:\nunit 21 done:\nunit 22 done:\nunit 23 done:\nunit 24 done:\nunit 25 done:\nunit 26 done:\nunit 27 done:\nunit 28 done:\nunit 29 done:\nunit 30 done:\nunit 31 done:\nunit 32 done:\nunit 33 done:\nunit 34 done:\nunit 35 done:\nunit 36 done:\nunit 37 done:\nunit 38 done:\nunit 39 done:\nunit 40 done: 40\ntally units 41 unborn 0 pool 0 stream 0 blocked 0 done 41 asked 0 access 0 steps 244\nfinished\n";

// Whether the run of a workload in rotation has this report, if its journal is kept or if it is not.
fn is_run(
    alloc: Global,
    w: &Workload,
    steps: u64,
    keeps: bool,
    report: &str,
) -> Result<bool, Want> {
    let orders = [StoredOrder::rotating(), StoredOrder::mirroring()];
    let run = drain(alloc, w, &orders, steps, keeps)?;
    Ok(is_reported(alloc, w, run.steps, &run.picture, run.outcome, report))
}

// Appends forty units that add, and the one that joins them all and prints.
fn push_shared(text: &mut String) -> Result<(), AllocError> {
    text.push_str(SHARED)?;
    for u in 0..40 {
        let pool = u % 2;
        write!(
            text,
            "unit {u} ult at {pool}\nlock 0\nload 0\nadd 1\nstore 0\nunlock 0\n"
        )?;
    }
    text.push_str("unit 40 ult at 0\n")?;
    for u in 0..40 {
        writeln!(text, "join {u}")?;
    }
    text.push_str("lock 0\nload 0\nprint\nunlock 0\nend\n")
}

/// The workload of these units.
pub(crate) fn shared(alloc: Global) -> Result<Workload, Fail> {
    let mut text = String::new(alloc);
    push_shared(&mut text)?;
    Ok(read(alloc, text.as_bytes())?)
}

// Whether their run in rotation has this report, and the one without a journal too.
fn share(alloc: Global) -> Result<bool, Fail> {
    let w = shared(alloc)?;
    let kept = is_run(alloc, &w, 10_000, true, SHARED_REPORT)?;
    let other = is_run(alloc, &w, 10_000, false, SHARED_REPORT)?;
    Ok(kept && other)
}

#[test]
fn two_streams_share_a_number(rt: HostRuntime) -> Result<(), Fail> {
    let they_do = share(rt.alloc())?;
    assert!(rt; they_do);
    Ok(())
}
