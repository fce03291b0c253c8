//! Runs on threads beside the flows of their workloads.

use abt_flow::{Flow, find_flow, first_violation};
use abt_machine::{Piece, Want, Workload};
use abt_order::StoredOrder;
use abt_report::Picture;
use abt_waves::run_streams;
use abt_work::AnyWork;
use abt_workload::read;
use std::alloc::{AllocError, Global};
use std::sync::Wait;
use std::test::Fail;
use std::thread::Threads;

// How many times the workload is run.
const TIMES: u32 = 10;

const UNITS: u32 = 200;

const CHAINS: u32 = 4;

static STREAMS: &str =
    "abt 1\nstreams 4\npool 0 fifo mpmc\npool 1 fifo mpmc\npool 2 fifo mpmc\npool 3 fifo mpmc\nsched 0 prio 0\nsched 1 prio 1\nsched 2 prio 2\nsched 3 prio 3\nstream 0 main 0\nstream 1 main 1\nstream 2 main 2\nstream 3 main 3\n";

// Appends a unit of a chain. It waits twice for the one before it, if there is one, and adds 1 to what that had.
fn push_unit(text: &mut String, u: u32) -> Result<(), AllocError> {
    let pool = u / CHAINS % 4;
    writeln!(text, "unit {u} ult at {pool}")?;
    if u >= CHAINS {
        let before = u - CHAINS;
        writeln!(text, "ewait {before}\newait {before}")?;
    }
    writeln!(text, "add 1\nprint\neset {u}")
}

// Appends units in four chains over four streams.
fn push_chains(text: &mut String) -> Result<(), AllocError> {
    text.push_str(STREAMS)?;
    for x in 0..UNITS {
        writeln!(text, "object {x} eventual")?;
    }
    writeln!(text, "units {UNITS}")?;
    for u in 0..UNITS {
        push_unit(text, u)?;
    }
    text.push_str("end\n")
}

// The workload of these units.
fn chains(alloc: Global) -> Result<Workload, Fail> {
    let mut text = String::new(alloc);
    push_chains(&mut text)?;
    Ok(read(alloc, text.as_bytes())?)
}

// The flow of a workload, if that is confluent and has one.
#[tactic(auto, using(crate::proofs::Storing::stores_calls))]
fn flow_of(alloc: Global, w: &Workload) -> Result<Option<Flow>, Want> {
    if first_violation(alloc, w)?.is_some() {
        return Ok(None);
    }
    w.known();
    find_flow(alloc, w, &AnyWork)
}

// Whether there is a row for each unit, and that of the last is the length of its chain.
fn counts(flow: &Flow) -> bool {
    match flow.items().last() {
        Some(last) => {
            flow.items().len() == UNITS as usize && last.items() == [Piece::Number(50)].as_slice()
        }
        None => false,
    }
}

// Whether the units put out what the flow says.
fn put_out(picture: &Picture, flow: &Flow) -> bool {
    if picture.items().len() != flow.items().len() {
        return false;
    }
    picture
        .items()
        .iter()
        .zip(flow.items())
        .all(|(row, output)| row.output.items() == output.items())
}

// Whether they put it out in a run on threads.
#[tactic(auto, using(crate::proofs::Storing::stores_calls))]
fn is_put_out<R: Threads + Wait + Sync>(
    rt: &R,
    alloc: Global,
    w: &Workload,
    flow: &Flow,
) -> Result<bool, Want> {
    let orders = [StoredOrder::rotating(), StoredOrder::mirroring()];
    w.known();
    let run = run_streams(rt, alloc, w, &orders, &AnyWork, 10_000, false)?;
    Ok(put_out(&run.picture, flow))
}

// Whether they put it out in each run, and the last unit counts its chain.
fn count<R: Threads + Wait + Sync>(
    rt: &R,
    alloc: Global,
    w: &Workload,
    flow: &Flow,
) -> Result<bool, Want> {
    for _ in 0..TIMES {
        if !is_put_out(rt, alloc, w, flow)? {
            return Ok(false);
        }
    }
    Ok(counts(flow))
}

// Whether the workload has a flow that its runs put out and that counts the last chain.
fn has_flow<R: Threads + Wait + Sync>(rt: &R, alloc: Global, w: &Workload) -> Result<bool, Want> {
    match flow_of(alloc, w)? {
        Some(flow) => count(rt, alloc, w, &flow),
        None => Ok(false),
    }
}

// Whether the workload of the chains has such a flow.
fn chains_count<R: Threads + Wait + Sync>(rt: &R, alloc: Global) -> Result<bool, Fail> {
    let w = chains(alloc)?;
    Ok(has_flow(rt, alloc, &w)?)
}

#[test]
fn runs_put_out_their_flow(rt: HostRuntime) -> Result<(), Fail> {
    let they_do = chains_count(&rt, rt.alloc())?;
    assert!(rt; they_do);
    Ok(())
}
