//! Whether something is left to do, and whether all units have ended.

ghost use Rattle.std.specs.Prelude.{◌<◌, ◌↔◌, IsTrue};
ghost use Rattle.std.specs.List.{All};
ghost use Rattle.abt_machine.specs.declared.events.Site.TheVariants as site;
ghost use Rattle.abt_model.specs.Ends.{AreEmptyPools, HasEmptyPools};
ghost use Rattle.abt_outcomes.specs.Values.{IsEmptyPool, IsIdle, IsOverAt, LooksEnded};
ghost use Rattle.abt_replay.specs.Objects.{object_at};

use abt_machine::{PoolNo, StreamNo, UnitNo, Workload};
use abt_replay::{Lane, Objects, Phase};

/// Whether no stream has a unit or a stacked frame.
pub(crate) fn are_idle(lanes: &[Lane]) -> bool
    ensures { IsTrue result ↔ All IsIdle lanes.now }
{
    for lane in lanes {
        if !is_idle(lane) {
            return false;
        }
    }
    true
}

// Whether the stream has no unit and no stacked frame.
fn is_idle(lane: &Lane) -> bool
    ensures { IsTrue result ↔ IsIdle lane.now }
{
    if !lane.tray().is_empty() {
        return false;
    }
    if lane.next().is_some() {
        return false;
    }
    if lane.hand().is_some() {
        return false;
    }
    !lane.is_stacked()
}

/// Whether the pools that main schedulers list are empty.
pub(crate) fn are_empty(w: &Workload, objects: &Objects) -> bool
    ensures { IsTrue result ↔ AreEmptyPools w.now objects.now }
{
    for s in 0..w.streams() {
        if !has_empty_pools(w, objects, StreamNo(s)) {
            return false;
        }
    }
    true
}

// Whether the pools that the main scheduler of the stream lists are empty.
fn has_empty_pools(w: &Workload, objects: &Objects, s: StreamNo) -> bool
    requires { s.0 < w.now.streams }
    ensures { IsTrue result ↔ HasEmptyPools w.now objects.now s.0 }
{
    w.known();
    for p in w.sched(w.main(s)).pools.items() {
        if !is_empty(objects, *p) {
            return false;
        }
    }
    true
}

// Whether the pool is there and has no unit.
fn is_empty(objects: &Objects, p: PoolNo) -> bool
    ensures { IsTrue result ↔ IsEmptyPool (object_at objects.now (site.Pool p)) }
{
    match objects.pools().get(p.0 as usize) {
        Some(pool) => pool.units().is_empty(),
        None => false,
    }
}

/// Whether every unit is at its desk, unborn or ended.
pub(crate) fn are_over(w: &Workload, objects: &Objects) -> bool
    ensures { IsTrue result ↔ LooksEnded w.now (object_at objects.now) }
{
    for u in 0..w.units() {
        if !is_over(objects, UnitNo(u)) {
            return false;
        }
    }
    true
}

// Whether the unit is at its desk, unborn or ended.
fn is_over(objects: &Objects, u: UnitNo) -> bool
    ensures { IsTrue result ↔ IsOverAt (object_at objects.now (site.Desk u)) }
{
    match objects.desks().get(u.0 as usize) {
        Some(desk) => matches!(desk.phase(), Phase::Unborn(_) | Phase::Ended(_, _)),
        None => false,
    }
}
