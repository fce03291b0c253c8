//! Whether a journal is a run of a workload.

ghost use Rattle.std.specs.Prelude.{◌≤◌, IfOk, List, length};
ghost use Rattle.abt_check.specs.Verdicts.{IsJudged, OneVerdict};
ghost use Rattle.abt_model.specs.Stored.{stored_with};
ghost use Rattle.abt_machine.specs.Stored.{CallsStored, Stored};
ghost use Rattle.abt_machine.specs.declared.workload.Parts.{Parts};
ghost use Rattle.abt_order.specs.Stored.{stored_of};

use crate::judge::Judge;
use crate::verdict::Verdict;
use abt_machine::{Journal, OrderShape, Want, Workload};
use abt_model::shapes;
use abt_order::StoredOrder;
use abt_work::Work;
use std::alloc::Global;

/// Judges a journal: it is a run of the workload with stamps, or the verdict has the greatest number of its first events that
/// are one. Of the stored orders only the shapes count: a round by a free order may visit its pools in any order, and no
/// order is called. A call is right if its function accepts what it returned; with `AnyWork` any word is. Out of memory is the
/// only error.
pub fn check<P: Work>(
    alloc: Global,
    w: &Workload,
    orders: &[StoredOrder],
    work: &P,
    journal: &Journal,
) -> Result<Verdict, Want>
    requires orders { 2 ≤ length orders.now }
    requires calls { CallsStored w.now (P.count work.now) }
    ensures { IfOk result (IsJudged w.now (stored_of orders.now (P.returns work.now)) journal.now) }
{
    let shapes = shapes(alloc, orders)?;
    judge(alloc, w, &shapes, work, journal)
}

/// A journal has one right verdict.
pub fn one_verdict()
    ensures { (W : Parts) (Z : Stored) → OneVerdict W Z }
{}

// Judges a journal. `z` has the shapes of the stored orders.
fn judge<P: Work>(
    alloc: Global,
    w: &Workload,
    z: &[OrderShape],
    work: &P,
    journal: &Journal,
) -> Result<Verdict, Want>
    requires orders { 2 ≤ length z.now }
    requires calls { CallsStored w.now (P.count work.now) }
    ensures { IfOk result (IsJudged w.now (stored_with z.now (P.returns work.now)) journal.now) }
{
    w.known();
    let mut judge = Judge::start(alloc, w)?;
    for (at, event) in journal.items().iter().enumerate() {
        if !judge.follow(w, z, work, event)? {
            return Ok(Verdict::Bad { at: at as u64 });
        }
    }
    Ok(Verdict::Run)
}
