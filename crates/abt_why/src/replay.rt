//! A model of streams and objects after a journal.

ghost use Rattle.std.specs.Prelude.{◌≤◌, IfOk, length};
ghost use Rattle.abt_machine.specs.Runs.{Run};
ghost use Rattle.abt_machine.specs.Stored.{CallsStored};
ghost use Rattle.abt_model.specs.Stored.{stored_with};
ghost use Rattle.abt_why.specs.Replays.{HasFollowed};

use abt_machine::{Journal, OrderShape, Want, Workload};
use abt_model::Model;
use abt_work::Work;
use std::alloc::Global;

/// The model after the journal's events. `z` has the shapes of the stored orders. Out of memory is the only error.
pub(crate) fn replay<P: Work>(
    alloc: Global,
    w: &Workload,
    z: &[OrderShape],
    work: &P,
    journal: &Journal,
) -> Result<Model, Want>
    requires orders { 2 ≤ length z.now }
    requires calls { CallsStored w.now (P.count work.now) }
    requires run { Run w.now (stored_with z.now (P.returns work.now)) journal.now }
    ensures { IfOk result (HasFollowed w.now (stored_with z.now (P.returns work.now)) journal.now) }
{
    w.known();
    let mut model = Model::start(alloc, w)?;
    for event in journal.items() {
        model.follow(w, z, work, event.stream, &event.what)?;
    }
    Ok(model)
}
