//! Where units stand before any operation is done, and who waits for each need.

ghost use Rattle.std.specs.Prelude.{◌+◌, ◌<◌, ◌≡◌, IfOk, length, replicate, slice_set};
ghost use Rattle.abt_orderly.specs.Passing.{AreStanding};
ghost use Rattle.abt_orderly.specs.declared.scanning.Standing.TheVariants as place;
ghost use Rattle.abt_orderly.specs.Scanning.{HasScanned, HasUnits, HasWaited, HasWaitedAll, IsScanned};

use crate::needs::{created, need, needs_count, ops_count};
use abt_machine::{UnitNo, Want, Workload};
use std::alloc::Global;

// Where a unit stands: it waits for the operation that creates it, or it is there, and is reached or not.
#[derive(Clone, Copy)]
pub(crate) enum Standing {
    Unborn,
    Reached,
    Unreached,
}

// Where a unit stands if no operation creates it.
fn first_standing(w: &Workload, u: UnitNo) -> Standing
    requires { u.0 < length w.now.units }
    ensures { IsScanned w.now 0 0 u.0 result }
{
    match w.unit(u).start {
        Some(_) => Standing::Reached,
        None => Standing::Unreached,
    }
}

// Where units stand if no operation creates one.
fn first_standings(alloc: Global, w: &Workload) -> Result<Vec<Standing>, Want>
    ensures { IfOk result (λ standing. HasScanned w.now 0 0 (length w.now.units) standing.items) }
{
    let mut standing = Vec::new(alloc);
    for u in 0..w.units() {
        standing.push(first_standing(w, UnitNo(u)))?;
    }
    Ok(standing)
}

// A unit that is created is not born yet.
fn unmake(standing: &mut [Standing], v: UnitNo)
    requires { v.0 < length standing.old }
    ensures { standing.new ≡ slice_set standing.old v.0 place.Unborn }
{
    standing[v.0 as usize] = Standing::Unborn;
}

// Looks at an operation that may create a unit.
fn scan_at(w: &Workload, u: UnitNo, k: u32, standing: &mut [Standing])
    requires unit { u.0 < length w.now.units }
    requires scanned { HasScanned w.now u.0 k (length w.now.units) standing.old }
    ensures { HasScanned w.now u.0 (k + 1) (length w.now.units) standing.new }
{
    w.known();
    match created(w, u, k) {
        Some(v) => unmake(standing, v),
        None => {}
    }
}

// Looks at the operations of a unit.
fn scan_unit(w: &Workload, u: UnitNo, standing: &mut [Standing])
    requires unit { u.0 < length w.now.units }
    requires scanned { HasScanned w.now u.0 0 (length w.now.units) standing.old }
    ensures { HasScanned w.now (u.0 + 1) 0 (length w.now.units) standing.new }
{
    for k in 0..ops_count(w, u) {
        scan_at(w, u, k, standing);
    }
}

// Where units stand before any operation is done.
pub(crate) fn standings(alloc: Global, w: &Workload) -> Result<Vec<Standing>, Want>
    ensures { IfOk result (λ standing. AreStanding w.now (replicate (length w.now.units) 0) standing.items) }
{
    let mut standing = first_standings(alloc, w)?;
    for u in 0..w.units() {
        scan_unit(w, UnitNo(u), &mut standing);
    }
    Ok(standing)
}

// An empty list for each need.
fn no_lists(alloc: Global, w: &Workload) -> Result<Vec<Vec<UnitNo>>, Want>
    ensures { IfOk result (λ waiting. HasWaited w.now 0 0 waiting.items) }
{
    let mut waiting = Vec::new(alloc);
    for _i in 0..needs_count(w) {
        waiting.push(Vec::new(alloc))?;
    }
    Ok(waiting)
}

// Puts a unit into the list of what an operation needs, if it needs something.
fn wait_at(waiting: &mut Vec<Vec<UnitNo>>, w: &Workload, u: UnitNo, k: u32) -> Result<(), Want>
    requires unit { u.0 < length w.now.units }
    requires waited { HasWaited w.now u.0 k waiting.old.items }
    ensures { IfOk result (λ _. HasWaited w.now u.0 (k + 1) waiting.new.items) }
{
    w.known();
    match need(w, u, k) {
        Some(i) => {
            waiting[i].push(u)?;
            Ok(())
        }
        None => Ok(()),
    }
}

// Puts a unit into the lists of what its operations need.
fn wait_unit(waiting: &mut Vec<Vec<UnitNo>>, w: &Workload, u: UnitNo) -> Result<(), Want>
    requires unit { u.0 < length w.now.units }
    requires waited { HasWaited w.now u.0 0 waiting.old.items }
    ensures { IfOk result (λ _. HasWaited w.now (u.0 + 1) 0 waiting.new.items) }
{
    for k in 0..ops_count(w, u) {
        wait_at(waiting, w, u, k)?;
    }
    Ok(())
}

// For each need the units that need it somewhere.
pub(crate) fn wait_lists(alloc: Global, w: &Workload) -> Result<Vec<Vec<UnitNo>>, Want>
    ensures { IfOk result (λ waiting. HasWaitedAll w.now waiting.items) }
{
    let mut waiting = no_lists(alloc, w)?;
    for u in 0..w.units() {
        wait_unit(&mut waiting, w, UnitNo(u))?;
    }
    Ok(waiting)
}

// All units.
pub(crate) fn all_units(alloc: Global, w: &Workload) -> Result<Vec<UnitNo>, Want>
    ensures { IfOk result (λ us. HasUnits (length w.now.units) us.items) }
{
    let mut us = Vec::new(alloc);
    for u in 0..w.units() {
        us.push(UnitNo(u))?;
    }
    Ok(us)
}
