//! Runs and verdicts. For each call Err says that memory ran out, that a text is not a journal's, or that a run kept none. No scheduler of these
//! workloads has a stored order, but a run is passed two.

ghost use Rattle.std.specs.Prelude.{◌≤◌, length};

use crate::turning::{Length, Turning};
use abt_check::{Verdict, check};
use abt_commons::Objects;
use abt_drain::{Run, drain, start_streams};
use abt_machine::{Journal, Want, Workload};
use abt_order::StoredOrder;
use abt_report::{TextFault, journal_text, read_journal};
use abt_stream::Stream;
use abt_waves::{Starts, run_streams, run_wave};
use abt_work::AnyWork;
use std::alloc::Global;
use std::io;
use std::sync::Wait;
use std::thread::Threads;

fn no_memory(_want: Want) -> io::Error {
    io::Error::from(io::ErrorKind::OutOfMemory)
}

fn not_journal(cause: TextFault) -> io::Error {
    io::Error::from(match cause {
        TextFault::Bad { .. } => io::ErrorKind::InvalidData,
        TextFault::Memory => io::ErrorKind::OutOfMemory,
    })
}

/// The run of a workload on this thread. Its journal is kept if `keeps`.
pub fn drained(alloc: Global, w: &Workload, steps: u64, keeps: bool) -> io::Result<Run> {
    let orders = [StoredOrder::rotating(), StoredOrder::mirroring()];
    drain(alloc, w, &orders, steps, keeps).map_err(no_memory)
}

/// A run of a workload on threads. Its journal is kept if `keeps`.
#[tactic(auto, using(crate::proofs::Storing::stores_calls))]
pub fn threaded<R: Threads + Wait + Sync>(
    rt: &R,
    alloc: Global,
    w: &Workload,
    steps: u64,
    keeps: bool,
) -> io::Result<Run> {
    let orders = [StoredOrder::rotating(), StoredOrder::mirroring()];
    w.known();
    run_streams(rt, alloc, w, &orders, &AnyWork, steps, keeps).map_err(no_memory)
}

/// A run of a workload on threads, whose units call functions of this length. Its journal is not kept.
#[tactic(auto, using(crate::proofs::Storing::stores_calls))]
pub fn calling<R: Threads + Wait + Sync>(
    rt: &R,
    alloc: Global,
    w: &Workload,
    length: Length,
    steps: u64,
) -> io::Result<Run> {
    let orders = [StoredOrder::rotating(), StoredOrder::mirroring()];
    let turning = Turning { length };
    w.known();
    run_streams(rt, alloc, w, &orders, &turning, steps, false).map_err(no_memory)
}

/// How many events the streams of a workload make in a first wave, on threads. Their logs are not kept.
pub fn waved<R: Threads + Wait + Sync>(
    rt: &R,
    alloc: Global,
    w: &Workload,
    steps: u64,
) -> io::Result<u64> {
    let orders = [StoredOrder::rotating(), StoredOrder::mirroring()];
    let streams = first_wave(rt, alloc, &orders, w, steps).map_err(no_memory)?;
    Ok(
        streams.iter().fold(0, |events: u64, stream| {
            events.saturating_add(stream.written())
        }),
    )
}

// The streams of a workload after a first wave.
#[tactic(auto, using(crate::proofs::Storing::stores_calls))]
fn first_wave<'w, R: Threads + Wait + Sync>(
    rt: &'w R,
    alloc: Global,
    orders: &[StoredOrder],
    w: &'w Workload,
    steps: u64,
) -> Result<Vec<Stream>, Want>
    requires orders { 2 ≤ length orders.now }
{
    w.known();
    let streams = start_streams(alloc, w, steps, false)?;
    let objects = Objects::place(alloc, w)?;
    let live = vec![in alloc; true; w.streams() as usize]?;
    let (_, streams) = run_wave(
        rt,
        alloc,
        w,
        orders,
        &AnyWork,
        objects,
        streams,
        &live,
        &Starts::new(),
    )?;
    Ok(streams)
}

/// Whether a journal is a run of a workload.
#[tactic(auto, using(crate::proofs::Storing::stores_calls))]
pub fn judged(alloc: Global, w: &Workload, journal: &Journal) -> io::Result<Verdict> {
    let orders = [StoredOrder::rotating(), StoredOrder::mirroring()];
    w.known();
    check(alloc, w, &orders, &AnyWork, journal).map_err(no_memory)
}

/// The journal of a run that kept it.
pub fn kept_journal(run: Run) -> io::Result<Journal> {
    let Run { journal, .. } = run;
    journal.ok_or(io::Error::from(io::ErrorKind::InvalidData))
}

/// The text of the journal of a workload's run on this thread.
pub fn drained_text(alloc: Global, w: &Workload, steps: u64) -> io::Result<Vec<u8>> {
    let journal = kept_journal(drained(alloc, w, steps, true)?)?;
    journal_text(alloc, &journal).map_err(no_memory)
}

/// The journal of a text.
pub fn journal_of(alloc: Global, text: &[u8]) -> io::Result<Journal> {
    if text.len() >= u32::MAX as usize {
        return Err(io::Error::from(io::ErrorKind::InvalidData));
    }
    read_journal(alloc, text).map_err(not_journal)
}
