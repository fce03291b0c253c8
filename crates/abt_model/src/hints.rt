//! One event that a stream may make next.

ghost use Rattle.std.specs.Prelude.{ℕ, ◌≡◌, ◌<◌, ◌↔◌, Contains, IfNone, IfSome, IsTrue, None, Some, length};
ghost use Rattle.abt_bounds.specs.Laws.{returned, visited};
ghost use Rattle.abt_machine.specs.Next.{StepDue, due_of_unit};
ghost use Rattle.abt_machine.specs.Rounds.{IsNextPool, OrdersStored};
ghost use Rattle.abt_machine.specs.Sound.{IsUnderWay};
ghost use Rattle.abt_machine.specs.Stored.{CallsStored};
ghost use Rattle.abt_machine.specs.Turns.{due_of};
ghost use Rattle.abt_machine.specs.Valid.{IsValid};
ghost use Rattle.abt_machine.specs.Workloads.{body_at};
ghost use Rattle.abt_model.specs.Hints.{CallsNext, MayBeTold, MayReturn, function_of};
ghost use Rattle.abt_model.specs.Stored.{stored_with};
ghost use Rattle.abt_model.specs.Turns.{CanMove, IsOfWorkload};
ghost use Rattle.abt_order.specs.Schedulers.{pool_numbers};
ghost use Rattle.abt_plans.specs.Marks.{mark_of};

use crate::visits::may_visit;
use abt_machine::{Op, OrderShape, PoolNo, Returned, StreamNo, UnitNo, What, Workload};
use abt_plans::{HandDue, Mark, hand_due};
use abt_replay::{Frame, Lane, Unit};
use abt_work::Work;

/// A hint that tells an event of stream `s` that may be next by what it holds: a round visits the first of the pools `wanted`
/// that it may visit next, or the first that its scheduler lists if it may visit none of them, and a call returns what its
/// function returns. `z` has the shapes of the stored orders.
pub(crate) fn hint_of<P: Work>(
    lane: &Lane,
    w: &Workload,
    z: &[OrderShape],
    work: &P,
    s: StreamNo,
    wanted: &[PoolNo],
) -> What
    requires valid { IsValid w.now }
    requires stored { OrdersStored w.now z.now }
    requires calls { CallsStored w.now (P.count work.now) }
    requires stream { s.0 < w.now.streams }
    requires lane { CanMove w.now z.now lane.now }
    ensures { MayBeTold w.now (stored_with z.now (P.returns work.now)) s.0 lane.now (visited result) (returned result) }
{
    if !lane.tray().is_empty() {
        return plain();
    }
    if lane.next().is_some() {
        return plain();
    }
    if let Some(unit) = lane.hand() {
        return unit_hint(w, work, s, lane.mark(), unit);
    }
    if lane.top().empty && lane.is_stacked() {
        return plain();
    }
    What::Miss(next_of(w, z, lane.top(), wanted))
}

// A hint that visits no pool and returns no word.
fn plain() -> What
    ensures visits { visited result ≡ None }
    ensures returns { returned result ≡ None }
{
    What::Leave(UnitNo(0))
}

// A hint that tells what the unit in the hand of stream `s` does next.
fn unit_hint<P: Work>(w: &Workload, work: &P, s: StreamNo, mark: Mark, unit: &Unit) -> What
    requires valid { IsValid w.now }
    requires stream { s.0 < w.now.streams }
    requires calls { CallsStored w.now (P.count work.now) }
    requires number { unit.now.number < length w.now.units }
    ensures visits { visited result ≡ None }
    ensures returns { MayReturn w.now (P.returns work.now) s.0 (mark_of mark) unit.now (returned result) }
{
    match called_next(w, s, mark, unit) {
        None => plain(),
        Some(function) => {
            let word = work.call(function, unit.number(), unit.acc(), unit.keys());
            What::Call(unit.number(), unit.position(), Returned::new(word))
        }
    }
}

/// The function that the unit in the hand of stream `s`, which has this mark, is to call next, if it is to call one.
pub(crate) fn called_next(w: &Workload, s: StreamNo, mark: Mark, unit: &Unit) -> Option<u32>
    requires valid { IsValid w.now }
    requires stream { s.0 < w.now.streams }
    requires number { unit.now.number < length w.now.units }
    ensures { CallsNext w.now s.0 (mark_of mark) unit.now result }
{
    match hand_due(w, s, mark, unit.number(), unit.position()) {
        HandDue::Step(op) => called(op),
        HandDue::End(_) => None,
        HandDue::Enter(_) => None,
    }
}

/// Whether stream `s` is to make a step.
pub(crate) fn is_to_step(lane: &Lane, w: &Workload, s: StreamNo) -> bool
    requires valid { IsValid w.now }
    requires stream { s.0 < w.now.streams }
    requires hand { IfSome lane.now.hand (IsOfWorkload w.now) }
    ensures { IsTrue result ↔ (due_of w.now s.0 lane.now ≡ StepDue) }
{
    if !lane.tray().is_empty() {
        return false;
    }
    if lane.next().is_some() {
        return false;
    }
    match lane.hand() {
        None => false,
        Some(unit) => steps_next(w, s, lane.mark(), unit),
    }
}

// Whether the unit in the hand of stream `s`, which has this mark, is to make a step.
fn steps_next(w: &Workload, s: StreamNo, mark: Mark, unit: &Unit) -> bool
    requires valid { IsValid w.now }
    requires stream { s.0 < w.now.streams }
    requires number { unit.now.number < length w.now.units }
    ensures { IsTrue result ↔ (due_of_unit w.now s.0 (mark_of mark) (body_at w.now unit.now.number) unit.now.carried.position ≡ StepDue) }
{
    match hand_due(w, s, mark, unit.number(), unit.position()) {
        HandDue::Step(_) => true,
        HandDue::End(_) => false,
        HandDue::Enter(_) => false,
    }
}

// The function that the operation calls, if it is a call.
fn called(op: Op) -> Option<u32>
    ensures { result ≡ function_of (Some op) }
{
    match op {
        Op::Call(function) => Some(function),
        _ => None,
    }
}

// A pool that the frame's round may visit next: the first of these that it may, and else the first that its scheduler lists.
fn next_of(w: &Workload, z: &[OrderShape], frame: &Frame, wanted: &[PoolNo]) -> PoolNo
    requires valid { IsValid w.now }
    requires stored { OrdersStored w.now z.now }
    requires under_way { IsUnderWay w.now z.now frame.now }
    ensures { IsNextPool w.now z.now frame.now result.0 }
{
    if let Some(p) = first_next(w, z, frame, wanted) {
        return p;
    }
    match first_next(w, z, frame, w.sched(frame.sched).pools.items()) {
        Some(p) => p,
        None => unreachable!(),
    }
}

// The first of the pools that the frame's round may visit next.
fn first_next(w: &Workload, z: &[OrderShape], frame: &Frame, pools: &[PoolNo]) -> Option<PoolNo>
    requires valid { IsValid w.now }
    requires stored { OrdersStored w.now z.now }
    requires under_way { IsUnderWay w.now z.now frame.now }
    ensures found { IfSome result (λ p. IsNextPool w.now z.now frame.now p.0) }
    ensures none { IfNone result ((p : ℕ) → Contains (pool_numbers pools.now) p → IsNextPool w.now z.now frame.now p → ⊥) }
{
    for p in pools {
        if may_visit(w, z, frame, *p) {
            return Some(*p);
        }
    }
    None
}
