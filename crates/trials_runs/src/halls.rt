//! A run over one lock around all objects, by what its report says.

ghost use Rattle.std.specs.Prelude.{◌≤◌, length};

use crate::drains::{SHARED_REPORT, shared};
use abt_machine::{Want, Workload};
use abt_order::StoredOrder;
use abt_report::report;
use abt_work::AnyWork;
use hall_waves::run_in_hall;
use std::alloc::Global;
use std::sync::Wait;
use std::test::Fail;
use std::thread::Threads;

// How many times the run is repeated.
const TIMES: u32 = 10;

// The report of a run in a hall.
#[tactic(auto, using(crate::proofs::Storing::stores_calls))]
fn report_of<R: Threads + Wait + Sync>(
    rt: &R,
    alloc: Global,
    w: &Workload,
    orders: &[StoredOrder],
) -> Result<Vec<u8>, Want>
    requires { 2 ≤ length orders.now }
{
    w.known();
    let run = run_in_hall(rt, alloc, w, orders, &AnyWork, 10_000, false)?;
    report(alloc, w, &run.picture, run.outcome, run.steps)
}

#[test]
fn streams_in_a_hall_share_a_number(rt: HostRuntime) -> Result<(), Fail> {
    let alloc = rt.alloc();
    let orders = [StoredOrder::rotating(), StoredOrder::mirroring()];
    let w = shared(alloc)?;
    for _ in 0..TIMES {
        let report = report_of(&rt, alloc, &w, &orders)?;
        assert!(rt; report.as_slice() == SHARED_REPORT.as_bytes());
    }
    Ok(())
}
