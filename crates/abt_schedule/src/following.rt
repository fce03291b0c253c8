//! Where the schedule of a journal leads.

ghost use Rattle.std.specs.Prelude.{◌≤◌, IfOk, length};
ghost use Rattle.abt_check.specs.Verdicts.{IsStampedRun};
ghost use Rattle.abt_machine.specs.Rounds.{OrdersStored};
ghost use Rattle.abt_machine.specs.Runs.{Run};
ghost use Rattle.abt_machine.specs.Stored.{CallsStored};
ghost use Rattle.abt_machine.specs.Valid.{IsValid};
ghost use Rattle.abt_model.specs.Stored.{stored_with};
ghost use Rattle.abt_order.specs.Stored.{stored_of};
ghost use Rattle.abt_schedule.specs.Follows.{IsFollowed, IsLeftBy};
ghost use Rattle.abt_schedule.specs.Reaching.{IsReached};

use crate::followed::{Followed, Left};
use crate::reached::Reached;
use abt_check::{Verdict, check};
use abt_machine::{Journal, OrderShape, Want, Workload};
use abt_model::shapes;
use abt_order::StoredOrder;
use abt_report::count_steps;
use abt_work::Work;
use std::alloc::Global;

/// Makes the events of a journal again, in its order, over a workload whose streams may make `steps` steps each, and says where
/// they lead; or how many of its first events are a run with stamps, if not all are. Of the stored orders only the shapes
/// count: a round by a free order may visit its pools in any order. A call is right if its function accepts what it returned.
/// Out of memory is the only error.
pub fn follow_schedule<P: Work>(
    alloc: Global,
    w: &Workload,
    orders: &[StoredOrder],
    work: &P,
    journal: &Journal,
    steps: u64,
) -> Result<Followed, Want>
    requires orders { 2 ≤ length orders.now }
    requires calls { CallsStored w.now (P.count work.now) }
    ensures { IfOk result (IsFollowed w.now (stored_of orders.now (P.returns work.now)) steps journal.now) }
{
    match check(alloc, w, orders, work, journal)? {
        Verdict::Bad { at } => Ok(Followed::Bad { at }),
        Verdict::Run => {
            let shapes = shapes(alloc, orders)?;
            let left = leave(alloc, w, &shapes, work, journal, steps)?;
            Ok(Followed::Left(left))
        }
    }
}

// What a stamped run leaves whose streams may make `steps` steps each.
fn leave<P: Work>(
    alloc: Global,
    w: &Workload,
    z: &[OrderShape],
    work: &P,
    journal: &Journal,
    steps: u64,
) -> Result<Left, Want>
    requires orders { 2 ≤ length z.now }
    requires calls { CallsStored w.now (P.count work.now) }
    requires run { IsStampedRun w.now (stored_with z.now (P.returns work.now)) journal.now }
    ensures { IfOk result (IsLeftBy w.now steps journal.now) }
{
    w.known();
    let reached = follow(alloc, w, z, work, journal)?;
    let end = reached.outcome(w, steps);
    let picture = reached.model.picture(alloc, w)?;
    let steps = count_steps(journal.items());
    Ok(Left {
        steps,
        picture,
        end,
    })
}

// Where a run leads.
fn follow<P: Work>(
    alloc: Global,
    w: &Workload,
    z: &[OrderShape],
    work: &P,
    journal: &Journal,
) -> Result<Reached, Want>
    requires valid { IsValid w.now }
    requires stored { OrdersStored w.now z.now }
    requires calls { CallsStored w.now (P.count work.now) }
    requires run { Run w.now (stored_with z.now (P.returns work.now)) journal.now }
    ensures { IfOk result (IsReached w.now (stored_with z.now (P.returns work.now)) journal.now) }
{
    let mut reached = Reached::start(alloc, w)?;
    for event in journal.items() {
        reached.follow(w, z, work, event)?;
    }
    Ok(reached)
}
