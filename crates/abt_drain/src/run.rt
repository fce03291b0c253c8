//! A run on the caller's thread.

ghost use Rattle.std.specs.Prelude.{◌≤◌, IfOk, None, length};
ghost use Rattle.abt_machine.specs.Stored.{CallsStored};
ghost use Rattle.abt_order.specs.Stored.{IsAnsweredOrder, stored_of};
ghost use Rattle.abt_drain.specs.Ends.{LeavesRotation};

use crate::crew::Crew;
use abt_machine::{Journal, Outcome, Want, Workload};
use abt_order::StoredOrder;
use abt_report::Picture;
use abt_work::{AnyWork, Work};
use std::alloc::Global;

/// A run: its journal, if it was kept, how many steps it made, its units at the end, and how it ended.
#[derive(Drop)]
pub struct Run {
    pub journal: Option<Journal>,
    pub steps: u64,
    pub picture: Picture,
    pub outcome: Outcome,
}

/// Runs a workload whose streams may make `steps` steps each. In order of number each stream makes turns until one is a step,
/// ends a round empty, or is none since the stream is spent; this goes on until a rotation without a step leaves nothing to do
/// or a stream spent. A call leaves its unit's accumulator as it is. The journal is kept if `keeps`. Err: out of memory.
#[tactic(auto, using(crate::proofs::Functions::calls_stored))]
pub fn drain(
    alloc: Global,
    w: &Workload,
    orders: &[StoredOrder],
    steps: u64,
    keeps: bool,
) -> Result<Run, Want>
    requires orders { 2 ≤ length orders.now }
    ensures run { IfOk result (LeavesRotation w.now (stored_of orders.now (λ _ _ _ _. None)) (IsAnsweredOrder w.now orders.now) steps keeps) }
{
    w.known();
    drain_with(alloc, w, orders, &AnyWork, steps, keeps)
}

/// The same as `drain` for a workload whose units call functions; `work` has these, and is called before each step. A function runs
/// on the caller's thread.
pub fn drain_with<P: Work>(
    alloc: Global,
    w: &Workload,
    orders: &[StoredOrder],
    work: &P,
    steps: u64,
    keeps: bool,
) -> Result<Run, Want>
    requires orders { 2 ≤ length orders.now }
    requires calls { CallsStored w.now (P.count work.now) }
    ensures run { IfOk result (LeavesRotation w.now (stored_of orders.now (P.returns work.now)) (IsAnsweredOrder w.now orders.now) steps keeps) }
{
    let mut crew = Crew::new(alloc, w, orders, steps, keeps)?;
    let outcome = crew.run(orders, work)?;
    crew.end(alloc, outcome)
}
