//! Whether each unit comes to a pool that a main scheduler lists, and no operation waits for a barrier.

ghost use Rattle.std.specs.Prelude.{◌<◌, ◌↔◌, IsTrue, length, ℕ};
ghost use Rattle.abt_machine.specs.Operations.{IsDeclared};
ghost use Rattle.abt_orderly.specs.Listing.{AreListed, IsPlacedAt, IsPlacedOp, IsPlacedUnit, StartsWell};

use crate::needs::ops_count;
use abt_machine::{Op, UnitNo, Workload};

// Whether an operation creates no unit in a pool that isn't listed, and is no wait for a barrier.
fn is_placed(w: &Workload, listed: &[bool], op: Op) -> bool
    requires declared { IsDeclared w.now op }
    requires listed { AreListed w.now listed.now }
    ensures { IsTrue result ↔ IsPlacedOp w.now op }
{
    match op {
        Op::Create(_, p) => listed[p.0 as usize],
        Op::BarWait(_) => false,
        _ => true,
    }
}

// Whether this holds of an operation of a unit, if it has one there.
fn is_placed_at(w: &Workload, listed: &[bool], u: UnitNo, k: u32) -> bool
    requires unit { u.0 < length w.now.units }
    requires listed { AreListed w.now listed.now }
    ensures { IsTrue result ↔ IsPlacedAt w.now u.0 k }
{
    w.known();
    match w.op(u, k) {
        Some(op) => is_placed(w, listed, op),
        None => true,
    }
}

// Whether a unit starts in a listed pool, if it has a start.
fn starts_well(w: &Workload, listed: &[bool], u: UnitNo) -> bool
    requires unit { u.0 < length w.now.units }
    requires listed { AreListed w.now listed.now }
    ensures { IsTrue result ↔ StartsWell w.now u.0 }
{
    w.known();
    match w.unit(u).start {
        Some(p) => listed[p.0 as usize],
        None => true,
    }
}

// Whether a unit and all that it creates come to listed pools, and it waits for no barrier.
fn is_placed_unit(w: &Workload, listed: &[bool], u: UnitNo) -> bool
    requires unit { u.0 < length w.now.units }
    requires listed { AreListed w.now listed.now }
    ensures { IsTrue result ↔ IsPlacedUnit w.now u.0 }
{
    for k in 0..ops_count(w, u) {
        if !is_placed_at(w, listed, u, k) {
            return false;
        }
    }
    starts_well(w, listed, u)
}

// Whether this holds of all units.
pub(crate) fn has_placed_units(w: &Workload, listed: &[bool]) -> bool
    requires { AreListed w.now listed.now }
    ensures { IsTrue result ↔ ((u : ℕ) → IsPlacedUnit w.now u) }
{
    for u in 0..w.units() {
        if !is_placed_unit(w, listed, UnitNo(u)) {
            return false;
        }
    }
    true
}
