//! A few steps of each workload.

use crate::calls::{drained_text, journal_of, judged, kept_journal, threaded};
use crate::loads::{LOADS, Load};
use abt_check::Verdict;
use abt_machine::{Journal, Workload};
use std::alloc::Global;
use std::io;
use std::sync::Wait;
use std::thread::Threads;

// How many steps each stream may make.
const STEPS: u64 = 100;

/// Of each workload, how many events its run on one thread has, and that this run's text is read as a run, as any run on threads is
/// one.
pub fn small<R: Threads + Wait + Sync + Print>(rt: &R, alloc: Global) -> io::Result<()> {
    for load in LOADS {
        small_load(rt, alloc, load)?;
    }
    Ok(())
}

// A line of one workload.
fn small_load<R: Threads + Wait + Sync + Print>(
    rt: &R,
    alloc: Global,
    load: Load,
) -> io::Result<()> {
    let w = load.workload(alloc)?;
    let read = drained_journal(alloc, &w)?;
    let drained = judged(alloc, &w, &read)?;
    let threaded = threaded_verdict(rt, alloc, &w)?;
    println!(rt;
        "{name}: {events} events, {drained:?}; on threads {threaded:?}",
        name = load.name(),
        events = read.items().len()
    )
}

// The journal of the run on one thread, read from its text.
fn drained_journal(alloc: Global, w: &Workload) -> io::Result<Journal> {
    let text = drained_text(alloc, w, STEPS)?;
    journal_of(alloc, &text)
}

// Whether the journal of a run on threads is a run.
fn threaded_verdict<R: Threads + Wait + Sync>(
    rt: &R,
    alloc: Global,
    w: &Workload,
) -> io::Result<Verdict> {
    let run = threaded(rt, alloc, w, STEPS, true)?;
    let journal = kept_journal(run)?;
    judged(alloc, w, &journal)
}
