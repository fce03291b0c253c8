//! The objects of a workload as a run starts with them.

ghost use Rattle.std.specs.Prelude.{◌≡◌, ◌<◌, ◌+◌, length, IfOk, OnOk, Some};
ghost use Rattle.abt_calls.specs.Starts.{start_desk, start_thing};
ghost use Rattle.abt_machine.specs.Workloads.{start_of, thing_at};
ghost use Rattle.abt_commons.specs.Kinds.{object_in};
ghost use Rattle.abt_commons.specs.Placing.{ArePlaced, IsNewUnit, empty_pools, placed_units, placed_things, units_in_pools};

use crate::acts::Act;
use crate::objects::Objects;
use crate::one::One;
use crate::shared::Shared;
use abt_barrier::Barrier;
use abt_booth::Object;
use abt_desk::Desk;
use abt_eventual::{Eventual, Future};
use abt_machine::{Body, ObjectNo, PoolNo, Thing, UnitNo, Want, Workload};
use abt_monitor::Monitor;
use abt_pool::Pool;
use abt_rwlock::RwLock;
use abt_unit::Unit;
use std::alloc::Global;

impl<'w> Objects<'w> {
    /// The objects as a run starts with them: units with a start stand in their pools in order of number, and all others are
    /// unborn. Each clock is 0.
    pub fn place(alloc: Global, w: &'w Workload) -> Result<Objects<'w>, Want>
        ensures { IfOk result (ArePlaced w.now) }
    {
        let count = w.pools() as usize + w.units() as usize + w.objects() as usize;
        let clocks = vec![in alloc; 0; count]?;
        let mut ones = Vec::with_capacity(alloc, count)?;
        place_pools(alloc, w, &mut ones)?;
        place_units(alloc, w, &mut ones)?;
        place_things(alloc, w, &mut ones)?;
        Ok(Objects { w, ones, clocks })
    }
}

// All pools, with no unit.
fn place_pools<'w>(alloc: Global, w: &'w Workload, ones: &mut Vec<One<'w>>) -> Result<(), Want>
    requires { length ones.old.items ≡ 0 }
    ensures { OnOk result (ones.new.items ≡ empty_pools w.now (length w.now.pools)) }
{
    for p in 0..w.pools() {
        let pool = Pool::new(w.pool(PoolNo(p)).kind);
        let shared = Box::new(alloc, Shared::Pool(pool))?;
        ones.push(One { w, shared })?;
    }
    Ok(())
}

// All units, each at its desk or in the pool where it starts.
fn place_units<'w>(alloc: Global, w: &'w Workload, ones: &mut Vec<One<'w>>) -> Result<(), Want>
    requires { ones.old.items ≡ empty_pools w.now (length w.now.pools) }
    ensures { OnOk result (ones.new.items ≡ placed_units w.now (length w.now.units)) }
{
    for u in 0..w.units() {
        place_unit(alloc, w, UnitNo(u), ones)?;
    }
    Ok(())
}

// One more unit.
fn place_unit<'w>(
    alloc: Global,
    w: &'w Workload,
    u: UnitNo,
    ones: &mut Vec<One<'w>>,
) -> Result<(), Want>
    requires unit { u.0 < length w.now.units }
    requires before { ones.old.items ≡ placed_units w.now u.0 }
    ensures { OnOk result (ones.new.items ≡ placed_units w.now (u.0 + 1)) }
{
    let unit = Unit::make(alloc, w, u)?;
    let desk = desk_of(w, u, unit, ones);
    let shared = Box::new(alloc, Shared::Desk(desk))?;
    ones.push(One { w, shared })?;
    Ok(())
}

// The desk of the unit. If it starts in a pool, the unit is put there.
fn desk_of<'w>(w: &'w Workload, u: UnitNo, unit: Box<Unit>, ones: &mut Vec<One<'w>>) -> Desk
    requires unit { IsNewUnit w.now u.0 unit.value }
    requires before { ones.old.items ≡ placed_units w.now u.0 }
    ensures desk { result ≡ start_desk w.now u.0 }
    ensures pools { ones.new.items ≡ units_in_pools w.now (u.0 + 1) u.0 }
{
    let part = w.unit(u);
    let sched = matches!(&part.body, Body::Sched(_));
    let mut desk = Desk::new(unit, sched);
    let Some(p) = part.start else {
        return desk;
    };
    let Ok(unit) = desk.create(p) else {
        unreachable!()
    };
    put(w, u, p, unit, ones);
    desk
}

// The unit is the last in the pool where it starts.
fn put<'w>(w: &'w Workload, u: UnitNo, p: PoolNo, unit: Box<Unit>, ones: &mut Vec<One<'w>>)
    requires unit { IsNewUnit w.now u.0 unit.value }
    requires start { start_of w.now u.0 ≡ Some p.0 }
    requires before { ones.old.items ≡ placed_units w.now u.0 }
    ensures { ones.new.items ≡ units_in_pools w.now (u.0 + 1) u.0 }
{
    w.known();
    ones[p.0 as usize].run(Act::Put(unit));
}

// All things that are declared as objects.
fn place_things<'w>(alloc: Global, w: &'w Workload, ones: &mut Vec<One<'w>>) -> Result<(), Want>
    requires { ones.old.items ≡ placed_units w.now (length w.now.units) }
    ensures { OnOk result (ones.new.items ≡ placed_things w.now (length w.now.objects)) }
{
    for x in 0..w.objects() {
        let thing = placed_thing(alloc, w, ObjectNo(x))?;
        let shared = Box::new(alloc, thing)?;
        ones.push(One { w, shared })?;
    }
    Ok(())
}

// A thing at the start.
fn placed_thing(alloc: Global, w: &Workload, x: ObjectNo) -> Result<Shared, Want>
    requires { x.0 < length w.now.objects }
    ensures { IfOk result (λ shared. object_in shared ≡ start_thing w.now x.0 (thing_at w.now x.0)) }
{
    w.known();
    Ok(match w.thing(x) {
        Thing::Mutex => Shared::Monitor(Monitor::new(alloc, w.conditions(x))?),
        Thing::Cond(_) => Shared::WithItsMutex,
        Thing::Eventual => Shared::Eventual(Eventual::new()),
        Thing::Future(size, combine) => Shared::Future(Future::new(size, combine)),
        Thing::Barrier(size) => Shared::Barrier(Barrier::new(size)),
        Thing::RwLock => Shared::RwLock(RwLock::new(alloc, w.units())?),
    })
}
