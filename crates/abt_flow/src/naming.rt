//! What operations name, and whether an operation before them names it.

ghost use Rattle.std.specs.Prelude.{◌+◌, ◌<◌, ◌≡◌, IfOk, MatchBool, Some, length};
ghost use Rattle.abt_machine.specs.Workloads.{body_at, op_at, ops_of};
ghost use Rattle.abt_flow.specs.Checks.{HasNamed, NamesAgain, named_by, names_in};

use crate::role::Role;
use abt_machine::{Op, UnitNo, Want, Workload};
use std::alloc::Global;

// What operations name: the eventual that one sets, or the unit that one creates.
#[derive(Clone, Copy)]
pub(crate) enum Naming {
    Sets,
    Creates,
}

impl Naming {
    fn of(self, op: Op) -> Option<u32>
        ensures { result ≡ named_by self op }
    {
        match (self, Role::of(op)) {
            (Naming::Sets, Role::SetValue(x)) => Some(x.0),
            (Naming::Creates, Role::Create(v, _)) => Some(v.0),
            _ => None,
        }
    }

    // How many numbers may be named.
    fn count(self, w: &Workload) -> u32
        ensures { result ≡ names_in w.now self }
    {
        match self {
            Naming::Sets => w.objects(),
            Naming::Creates => w.units(),
        }
    }
}

// How many operations a unit has.
pub(crate) fn ops_count(w: &Workload, u: UnitNo) -> u32
    requires { u.0 < length w.now.units }
    ensures { result ≡ length (ops_of (body_at w.now u.0)) }
{
    w.known();
    w.unit(u).body.ops().len() as u32
}

// Marks what an operation names, and says whether it wasn't marked.
pub(crate) fn mark(
    w: &Workload,
    naming: Naming,
    u: UnitNo,
    k: u32,
    op: Op,
    seen: &mut [bool],
) -> bool
    requires unit { u.0 < length w.now.units }
    requires at { op_at w.now u.0 k ≡ Some op }
    requires named { HasNamed w.now naming u.0 k seen.old }
    ensures { MatchBool result (HasNamed w.now naming u.0 (k + 1) seen.new) (NamesAgain w.now naming u.0 k) }
{
    let Some(x) = naming.of(op) else {
        return true;
    };
    w.known();
    let x = x as usize;
    if seen[x] {
        return false;
    }
    seen[x] = true;
    true
}

// A table in which nothing is marked.
pub(crate) fn none_named(alloc: Global, w: &Workload, naming: Naming) -> Result<Vec<bool>, Want>
    ensures { IfOk result (λ seen. HasNamed w.now naming 0 0 seen.items) }
{
    Ok(vec![in alloc; false; naming.count(w) as usize]?)
}
