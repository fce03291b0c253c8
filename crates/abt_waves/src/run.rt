//! A run on threads.

ghost use Rattle.std.specs.Prelude.{◌≤◌, IfOk, length};
ghost use Rattle.abt_machine.specs.Stored.{CallsStored};
ghost use Rattle.abt_order.specs.Stored.{IsAnsweredOrder, stored_of};
ghost use Rattle.abt_drain.specs.Ends.{LeavesRun};
ghost use Rattle.abt_waves.specs.Ends.{LeavesWaves};
ghost use Rattle.abt_waves.specs.Storing.{stored_by};

use crate::fleet::Fleet;
use crate::locks::{Locked, Locking, Orders, StoredOrders};
use abt_commons::Split;
use abt_drain::{Run, drain_with};
use abt_machine::{Want, Workload};
use abt_order::StoredOrder;
use abt_work::Work;
use std::alloc::Global;
use std::sync::Wait;
use std::thread::Threads;

/// Runs a workload whose streams may make `steps` steps each; `work` has the functions that its units call, and is called
/// before each step. While one stream alone has
/// anything to do, it makes its turns on the caller's thread, without a lock. In a wave each stream makes
/// turns on a thread of its own, over objects that have a lock each, until it is spent, or finds nothing while no other stream
/// has work, or finds nothing too often in a row. Waves go on until nothing is left to do or a stream is spent. If no thread can be
/// started the caller's does its work. A workload with one stream runs on the caller's thread, without a lock. The run keeps its
/// journal if `keeps`.
///
/// # Errors
///
/// Out of memory. If a stream lacks memory, the wave that it is in is the last.
pub fn run_streams<'w, R: Threads + Wait + Sync, P: Work + Sync>(
    rt: &'w R,
    alloc: Global,
    w: &'w Workload,
    orders: &[StoredOrder],
    work: &P,
    steps: u64,
    keeps: bool,
) -> Result<Run, Want>
    requires orders { 2 ≤ length orders.now }
    requires calls { CallsStored w.now (P.count work.now) }
    ensures run { IfOk result (LeavesRun w.now (stored_of orders.now (P.returns work.now)) (IsAnsweredOrder w.now orders.now) steps keeps) }
{
    if w.streams() == 1 {
        return drain_with(alloc, w, orders, work, steps, keeps);
    }
    let fleet = Fleet::new::<R, StoredOrders<'_>, Split<'w, R>>(
        alloc,
        w,
        &StoredOrders { orders },
        steps,
        keeps,
    )?;
    let (fleet, outcome) = fleet.run_split(rt, alloc, orders, work)?;
    fleet.end::<R, Split<'w, R>>(alloc, outcome)
}

/// The run in waves over any locks. Stamps are Lamport's if each site has a lock of its own.
pub fn run_over<
    'w,
    R: Threads + Wait + Sync,
    P: Work + Sync,
    O: Orders + Sync,
    X: Send + Drop,
    L: Locking<'w, R> + Locked<Pass = X> + Sync + Drop,
>(
    rt: &'w R,
    alloc: Global,
    w: &'w Workload,
    orders: &O,
    work: &P,
    steps: u64,
    keeps: bool,
) -> Result<Run, Want>
    requires orders { 2 ≤ length (O.shapes orders.now) }
    requires calls { CallsStored w.now (P.count work.now) }
    ensures run { IfOk result (LeavesWaves L.lock w.now (stored_by (O.shapes orders.now) (P.returns work.now)) (O.answered orders.now w.now) steps keeps) }
{
    let fleet = Fleet::new::<R, O, L>(alloc, w, orders, steps, keeps)?;
    let (fleet, outcome) = fleet.run::<R, P, O, X, L>(rt, alloc, orders, work)?;
    fleet.end::<R, L>(alloc, outcome)
}
