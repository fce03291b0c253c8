//! Streams and objects at the start of a run.

ghost use Rattle.std.specs.Prelude.{ℕ, ◌≡◌, ◌<◌, IfOk, length};
ghost use Rattle.abt_calls.specs.Starts.{start_desk, start_part, start_phase, start_pool};
ghost use Rattle.abt_model.specs.Lists.{AreMade, AreNumbered};
ghost use Rattle.abt_model.specs.Starts.{AreObjectsAtStart, slot_at};
ghost use Rattle.abt_machine.specs.Fronts.{is_some_of};
ghost use Rattle.abt_machine.specs.Start.{start};
ghost use Rattle.abt_machine.specs.Values.{owned_at};
ghost use Rattle.abt_replay.specs.Phases.{phase_of};
ghost use Rattle.abt_machine.specs.Workloads.{start_of};

use abt_machine::{Body, ObjectNo, PoolNo, StreamNo, Thing, UnitNo, Want, Workload};
use abt_replay::{
    Barrier, Desk, Eventual, Future, Kept, Lane, Monitor, Objects, Phase, Pool, RwLock, Slot, Unit,
};
use std::alloc::Global;
use std::collections::VecDeque;

/// What each stream holds. Out of memory is the only error.
pub(crate) fn lanes(alloc: Global, w: &Workload) -> Result<Vec<Lane>, Want>
    ensures { IfOk result (λ lanes. AreNumbered w.now.streams (start_part w.now) lanes.items) }
{
    numbered(alloc, w.streams(), |s| Ok(Lane::new(alloc, w, StreamNo(s))))
}

/// All objects. Out of memory is the only error.
pub(crate) fn objects(alloc: Global, w: &Workload) -> Result<Objects, Want>
    ensures { IfOk result (AreObjectsAtStart w.now) }
{
    let pools = numbered(alloc, w.pools(), |p| pool(alloc, w, PoolNo(p)))?;
    let desks = numbered(alloc, w.units(), |u| desk(alloc, w, UnitNo(u)))?;
    let slots = numbered(alloc, w.objects(), |x| slot(alloc, w, ObjectNo(x)))?;
    Ok(Objects::new(pools, desks, slots))
}

// What is made of each number below `count`, in order. Out of memory is the only error.
fn numbered<T: Drop, F: Fn(u32) -> Result<T, Want>>(
    alloc: Global,
    count: u32,
    make: F,
) -> Result<Vec<T>, Want>
    requires { (k : ℕ) → k < count → F.pre make k }
    ensures { IfOk result (λ items. AreMade (F.post make) count items.items) }
{
    let mut items = Vec::with_capacity(alloc, count as usize)?;
    for k in 0..count {
        items.push(make(k)?)?;
    }
    Ok(items)
}

// A pool, with the units that start there in order of number.
fn pool(alloc: Global, w: &Workload, p: PoolNo) -> Result<Pool, Want>
    requires { p.0 < length w.now.pools }
    ensures { IfOk result (λ pool. pool ≡ start_pool w.now p.0) }
{
    let mut units = VecDeque::new(alloc);
    for u in 0..w.units() {
        if starts_in(w, p, UnitNo(u)) {
            units.push_back(Unit::make(alloc, w, UnitNo(u))?)?;
        }
    }
    Ok(Pool::new(w.pool(p).kind, units))
}

// Whether the unit starts in the pool.
fn starts_in(w: &Workload, p: PoolNo, u: UnitNo) -> bool
    requires { u.0 < length w.now.units }
    ensures { result ≡ is_some_of p.0 (start_of w.now u.0) }
{
    match w.unit(u).start {
        Some(start) => start.0 == p.0,
        None => false,
    }
}

// The desk of a unit, which has the unit if that starts in no pool.
fn desk(alloc: Global, w: &Workload, u: UnitNo) -> Result<Desk, Want>
    requires { u.0 < length w.now.units }
    ensures { IfOk result (λ desk. desk ≡ start_desk w.now u.0) }
{
    let sched = matches!(&w.unit(u).body, Body::Sched(_));
    let phase = phase(alloc, w, u)?;
    Ok(Desk::new(u, sched, phase, VecDeque::new(alloc)))
}

// Where the unit is: at its desk if it starts in no pool.
fn phase(alloc: Global, w: &Workload, u: UnitNo) -> Result<Phase, Want>
    requires { u.0 < length w.now.units }
    ensures { IfOk result (λ phase. phase_of phase ≡ start_phase (owned_at (start w.now) u.0) (start_of w.now u.0)) }
{
    match w.unit(u).start {
        Some(_) => Ok(Phase::Out),
        None => Ok(Phase::Unborn(Unit::make(alloc, w, u)?)),
    }
}

// A declared object.
fn slot(alloc: Global, w: &Workload, x: ObjectNo) -> Result<Slot, Want>
    requires { x.0 < length w.now.objects }
    ensures { IfOk result (λ slot. slot ≡ slot_at w.now x.0) }
{
    let kept = match w.thing(x) {
        Thing::Mutex => Kept::Monitor(Monitor::new(alloc, w.conditions(x))?),
        Thing::Cond(_) => Kept::WithItsMutex,
        Thing::Eventual => Kept::Eventual(Eventual::new(alloc)),
        Thing::Future(size, combine) => Kept::Future(Future::new(alloc, size, combine)),
        Thing::Barrier(size) => Kept::Barrier(Barrier::new(alloc, size)),
        Thing::RwLock => Kept::RwLock(RwLock::new(alloc, w.units())?),
    };
    Ok(Slot { kept })
}
