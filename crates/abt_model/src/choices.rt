//! What a stream may do next.

ghost use Rattle.std.specs.Prelude.{ℕ, ◌≡◌, ◌<◌, ◌%◌, ◌^◌, [], ◌∷◌, IfOk, MatchOption, None, Some, length};
ghost use Rattle.abt_machine.specs.Rounds.{OrdersStored};
ghost use Rattle.abt_machine.specs.Sound.{IsUnderWay};
ghost use Rattle.abt_machine.specs.Stored.{CallsStored};
ghost use Rattle.abt_machine.specs.Valid.{IsValid};
ghost use Rattle.abt_model.specs.Choices.{AreChoicesOf, Give};
ghost use Rattle.abt_model.specs.Hints.{MayReturnAny, Tell, TellCall, TellRuns, TellUnseen, TellVisits};
ghost use Rattle.abt_model.specs.Stored.{stored_with};
ghost use Rattle.abt_model.specs.Turns.{CanMove};
ghost use Rattle.abt_plans.specs.Marks.{mark_of};

use crate::hints::called_next;
use crate::visits::{lists, next_pool};
use abt_machine::{OrderShape, PoolNo, Returned, StreamNo, UnitNo, Want, What, Workload};
use abt_plans::Mark;
use abt_replay::{Frame, Lane, Next, Unit};
use abt_work::Work;
use std::alloc::Global;

/// What a stream may do next.
#[derive(Drop)]
pub enum Choices {
    /// Hints: for each event that may come there is one that visits the same pool and returns the same word.
    These(Vec<What>),
    /// A call of the function of this number, which may return more than one word.
    AnyWord(u32),
}

/// What stream `s` may do next, by what it holds. `z` has the shapes of the stored orders. Out of memory is the only error.
pub(crate) fn choices_of<P: Work>(
    alloc: Global,
    lane: &Lane,
    w: &Workload,
    z: &[OrderShape],
    work: &P,
    s: StreamNo,
) -> Result<Choices, Want>
    requires valid { IsValid w.now }
    requires stored { OrdersStored w.now z.now }
    requires calls { CallsStored w.now (P.count work.now) }
    requires stream { s.0 < w.now.streams }
    requires lane { CanMove w.now z.now lane.now }
    ensures { IfOk result (AreChoicesOf w.now (stored_with z.now (P.returns work.now)) s.0 lane.now) }
{
    if !lane.tray().is_empty() {
        return Ok(Choices::These(plain(alloc)?));
    }
    if lane.next().is_some() {
        return Ok(Choices::These(plain(alloc)?));
    }
    if let Some(unit) = lane.hand() {
        return runs(alloc, w, work, s, lane.mark(), unit);
    }
    if lane.top().empty && lane.is_stacked() {
        return Ok(Choices::These(plain(alloc)?));
    }
    let hints = visits(alloc, w, z, lane.top())?;
    Ok(Choices::These(hints))
}

// A hint for an event that visits no pool and returns no word.
fn plain(alloc: Global) -> Result<Vec<What>, Want>
    ensures { IfOk result (λ hints. Tell hints.items None None) }
{
    one(alloc, What::Leave(UnitNo(0)))
}

// One hint.
fn one(alloc: Global, hint: What) -> Result<Vec<What>, Want>
    ensures { IfOk result (λ hints. hints.items ≡ hint ∷ []) }
{
    let mut hints = Vec::new(alloc);
    hints.push(hint)?;
    Ok(hints)
}

// What the unit in the hand of stream `s` may do next: a hint that returns what its function returns, if it is to call one, and
// else one that returns no word.
fn runs<P: Work>(
    alloc: Global,
    w: &Workload,
    work: &P,
    s: StreamNo,
    mark: Mark,
    unit: &Unit,
) -> Result<Choices, Want>
    requires valid { IsValid w.now }
    requires stream { s.0 < w.now.streams }
    requires calls { CallsStored w.now (P.count work.now) }
    requires number { unit.now.number < length w.now.units }
    ensures { IfOk result (Give (TellRuns w.now (P.returns work.now) s.0 (mark_of mark) unit.now) (MayReturnAny w.now (P.returns work.now) s.0 (mark_of mark) unit.now)) }
{
    match called_next(w, s, mark, unit) {
        None => Ok(Choices::These(plain(alloc)?)),
        Some(function) => calls(alloc, work, function, unit),
    }
}

// What a unit that is to call the function may do next.
fn calls<P: Work>(alloc: Global, work: &P, function: u32, unit: &Unit) -> Result<Choices, Want>
    requires stored { function < P.count work.now }
    ensures { IfOk result (Give (TellCall (P.returns work.now) function unit.now) (λ f. (f ≡ function) × (P.returns work.now f unit.now.number unit.now.carried.acc unit.now.carried.keys ≡ None))) }
{
    match returned(work, function, unit) {
        None => Ok(Choices::AnyWord(function)),
        Some(value) => {
            let hint = What::Call(unit.number(), unit.position(), Returned::new(value));
            Ok(Choices::These(one(alloc, hint)?))
        }
    }
}

// What the function returns for the unit, if it may return no other word.
fn returned<P: Work>(work: &P, function: u32, unit: &Unit) -> Option<u64>
    requires { function < P.count work.now }
    ensures { MatchOption result (P.returns work.now function unit.now.number unit.now.carried.acc unit.now.carried.keys ≡ None) (λ n. (m : ℕ) × (P.returns work.now function unit.now.number unit.now.carried.acc unit.now.carried.keys ≡ Some m) × (n ≡ m % 2 ^ 64)) }
{
    let word = work.call(function, unit.number(), unit.acc(), unit.keys());
    if work.accepts(
        function,
        unit.number(),
        unit.acc(),
        unit.keys(),
        word.wrapping_add(1),
    ) {
        return None;
    }
    Some(word)
}

// Hints for visits of the pools that may be next in the frame's round. `z` has the shapes of the stored orders.
fn visits(alloc: Global, w: &Workload, z: &[OrderShape], frame: &Frame) -> Result<Vec<What>, Want>
    requires valid { IsValid w.now }
    requires stored { OrdersStored w.now z.now }
    requires under_way { IsUnderWay w.now z.now frame.now }
    ensures { IfOk result (λ hints. TellVisits w.now z.now frame.now hints.items) }
{
    match next_pool(w, z, frame) {
        Next::One(p) => one(alloc, What::Miss(p)),
        Next::Any => unseen(
            alloc,
            w.sched(frame.sched).pools.items(),
            frame.seen.as_slice(),
        ),
    }
}

// Hints for visits of the pools that were not seen.
fn unseen(alloc: Global, pools: &[PoolNo], seen: &[PoolNo]) -> Result<Vec<What>, Want>
    ensures { IfOk result (λ hints. TellUnseen pools.now seen.now hints.items) }
{
    let mut hints = Vec::new(alloc);
    for p in pools {
        if !lists(seen, *p) {
            hints.push(What::Miss(*p))?;
        }
    }
    Ok(hints)
}
