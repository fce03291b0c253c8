//! What operations need, meet and create.

ghost use Rattle.std.specs.Prelude.{◌<◌, ◌≡◌, length};
ghost use Rattle.abt_flow.specs.Finishing.{op_count};
ghost use Rattle.abt_orderly.specs.Needs.{creates_at, meets_at, need_at, unit_need, needs_in};

use abt_machine::{Op, UnitNo, Workload};

// How many operations a unit has.
pub(crate) fn ops_count(w: &Workload, u: UnitNo) -> u32
    requires { u.0 < length w.now.units }
    ensures { result ≡ op_count w.now u.0 }
{
    w.known();
    w.unit(u).body.ops().len() as u32
}

// How many needs there may be.
pub(crate) fn needs_count(w: &Workload) -> usize
    ensures { result ≡ needs_in w.now }
{
    w.objects() as usize + w.units() as usize
}

// The need that a unit is at its end.
fn unit_need(w: &Workload, u: UnitNo) -> usize
    ensures { result ≡ unit_need w.now u.0 }
{
    w.objects() as usize + u.0 as usize
}

// What an operation of a unit needs, beside those before it.
pub(crate) fn need(w: &Workload, u: UnitNo, k: u32) -> Option<usize>
    requires { u.0 < length w.now.units }
    ensures { result ≡ need_at w.now u.0 k }
{
    match w.op(u, k) {
        Some(Op::EvWait(x)) => Some(x.0 as usize),
        Some(Op::Join(v)) => Some(unit_need(w, v)),
        _ => None,
    }
}

// The need that an operation of a unit meets, or that its end meets, if it has no operation there.
pub(crate) fn met_need(w: &Workload, u: UnitNo, k: u32) -> Option<usize>
    requires { u.0 < length w.now.units }
    ensures { result ≡ meets_at w.now u.0 k }
{
    match w.op(u, k) {
        Some(Op::EvSet(x)) => Some(x.0 as usize),
        Some(_) => None,
        None => Some(unit_need(w, u)),
    }
}

// The unit that an operation of a unit creates, if it creates one.
pub(crate) fn created(w: &Workload, u: UnitNo, k: u32) -> Option<UnitNo>
    requires { u.0 < length w.now.units }
    ensures { result ≡ creates_at w.now u.0 k }
{
    match w.op(u, k) {
        Some(Op::Create(v, _)) => Some(v),
        _ => None,
    }
}
