//! Why a run is stuck, after its journal.

ghost use Rattle.std.specs.Prelude.{◌≡◌, ◌≤◌, ◌++◌, IfOk, length};
ghost use Rattle.abt_machine.specs.Runs.{Run, last_state};
ghost use Rattle.abt_machine.specs.Sound.{Sound};
ghost use Rattle.abt_machine.specs.State.{State};
ghost use Rattle.abt_machine.specs.Stored.{CallsStored, Stored};
ghost use Rattle.abt_model.specs.Models.{StandsFor};
ghost use Rattle.abt_order.specs.Stored.{shapes_of, stored_of};
ghost use Rattle.abt_why.specs.Texts.{text_of_waits, why_text};

use crate::cycles::push_cycles;
use crate::finding::waits;
use crate::replay::replay;
use crate::texts::push_waits;
use crate::waits::Wait;
use abt_machine::{Journal, OrderShape, Want, Workload};
use abt_model::Model;
use abt_order::StoredOrder;
use abt_work::Work;
use std::alloc::Global;

/// Appends what each unit waits for that is neither unborn nor ended after the journal's events, and the cycles of units that wait
/// for one another. Out of memory is the only error.
pub fn append_why<P: Work>(
    alloc: Global,
    out: &mut Vec<u8>,
    w: &Workload,
    orders: &[StoredOrder],
    work: &P,
    journal: &Journal,
) -> Result<(), Want>
    requires orders { 2 ≤ length orders.now }
    requires calls { CallsStored w.now (P.count work.now) }
    requires run { Run w.now (stored_of orders.now (P.returns work.now)) journal.now }
    ensures { IfOk result (λ _. out.new.items ≡ out.old.items ++ why_text w.now (last_state w.now journal.now)) }
{
    let shapes = shapes(alloc, orders)?;
    let model = replay(alloc, w, &shapes, work, journal)?;
    append_held(alloc, out, w, &model)
}

// The shapes of stored orders.
fn shapes(alloc: Global, orders: &[StoredOrder]) -> Result<Vec<OrderShape>, Want>
    ensures { IfOk result (λ shapes. shapes.items ≡ shapes_of orders.now) }
{
    let mut shapes = Vec::with_capacity(alloc, orders.len())?;
    for order in orders {
        shapes.push(order.shape())?;
    }
    Ok(shapes)
}

// Appends the text of each sound state for which the model stands.
fn append_held(alloc: Global, out: &mut Vec<u8>, w: &Workload, model: &Model) -> Result<(), Want>
    ensures { IfOk result (λ _. (Z : Stored) (S : State) → Sound w.now Z S → StandsFor w.now S model.now → out.new.items ≡ out.old.items ++ why_text w.now S) }
{
    let picture = model.picture(alloc, w)?;
    let waits = waits(alloc, w, model.objects().slots(), picture.items())?;
    append_waits(alloc, out, &waits)
}

// Appends the lines of units that wait for this, and of their cycles.
fn append_waits(alloc: Global, out: &mut Vec<u8>, waits: &[Wait]) -> Result<(), Want>
    ensures { IfOk result (λ _. out.new.items ≡ out.old.items ++ text_of_waits waits.now) }
{
    push_waits(out, waits)?;
    push_cycles(alloc, out, waits)
}
