//! The table of a search for a flow, before any operation.

ghost use Rattle.std.specs.Prelude.{Contains, MatchOption, None, ◌+◌, ◌<◌, ◌≡◌, IfOk, length, replicate};
ghost use Rattle.abt_machine.specs.Workloads.{op_at};
ghost use Rattle.abt_machine.specs.declared.numbers.UnitNo.{UnitNo};
ghost use Rattle.abt_flow.specs.Flow.{IsReached};
ghost use Rattle.abt_flow.specs.Tables.{AreFresh, AwaitsNone, AwaitsValue, HasWaited, HasWaitedAll, Listed, Longer};

use crate::memory::Progress;
use crate::naming::ops_count;
use crate::role::Role;
use abt_machine::{ObjectNo, UnitNo, Want, Workload};
use std::alloc::Global;

// Every unit at its beginning.
pub(crate) fn fresh_units(alloc: Global, w: &Workload) -> Result<Vec<Progress>, Want>
    ensures { IfOk result (λ units. AreFresh w.now units.items (length w.now.units)) }
{
    let mut units = Vec::new(alloc);
    for _u in 0..w.units() {
        units.push(Progress::fresh(alloc, w)?)?;
    }
    Ok(units)
}

// No value for each of n eventuals.
pub(crate) fn no_values(alloc: Global, n: u32) -> Result<Vec<Option<u64>>, Want>
    ensures { IfOk result (λ values. values.items ≡ replicate n None) }
{
    Ok(vec![in alloc; None; n as usize]?)
}

// An empty list for each object.
fn no_lists(alloc: Global, w: &Workload) -> Result<Vec<Vec<UnitNo>>, Want>
    ensures { IfOk result (λ waiting. Listed w.now waiting.items) }
{
    let mut waiting = Vec::new(alloc);
    for _x in 0..w.objects() {
        waiting.push(Vec::new(alloc))?;
    }
    Ok(waiting)
}

// The eventual that an operation of a unit waits for, if it waits for one.
fn awaited_at(w: &Workload, u: UnitNo, k: u32) -> Option<ObjectNo>
    requires { u.0 < length w.now.units }
    ensures { MatchOption result (AwaitsNone (op_at w.now u.0 k)) (AwaitsValue (op_at w.now u.0 k)) }
{
    match Role::of(w.op(u, k)?) {
        Role::AwaitValue(x) => Some(x),
        _ => None,
    }
}

// Puts a unit into the list of the eventual that an operation waits for, if it waits for one.
fn wait_at(waiting: &mut Vec<Vec<UnitNo>>, w: &Workload, u: UnitNo, k: u32) -> Result<(), Want>
    requires unit { u.0 < length w.now.units }
    requires reached { IsReached w.now u.0 }
    requires listed { Listed w.now waiting.old.items }
    requires waited { HasWaited w.now waiting.old.items u.0 k }
    ensures listed { IfOk result (λ _. Listed w.now waiting.new.items) }
    ensures longer { IfOk result (λ _. Longer waiting.old.items waiting.new.items) }
    ensures waited { IfOk result (λ _. HasWaited w.now waiting.new.items u.0 (k + 1)) }
{
    w.known();
    match awaited_at(w, u, k) {
        Some(x) => {
            waiting[x.0 as usize].push(u)?;
            Ok(())
        }
        None => Ok(()),
    }
}

// Puts a unit into the lists of the eventuals that it waits for.
fn wait_unit(waiting: &mut Vec<Vec<UnitNo>>, w: &Workload, u: UnitNo) -> Result<(), Want>
    requires unit { u.0 < length w.now.units }
    requires reached { IsReached w.now u.0 }
    requires listed { Listed w.now waiting.old.items }
    ensures listed { IfOk result (λ _. Listed w.now waiting.new.items) }
    ensures longer { IfOk result (λ _. Longer waiting.old.items waiting.new.items) }
    ensures waited { IfOk result (λ _. HasWaitedAll w.now waiting.new.items u.0) }
{
    for k in 0..ops_count(w, u) {
        wait_at(waiting, w, u, k)?;
    }
    Ok(())
}

// For each object the units that wait for it somewhere, if it is an eventual.
pub(crate) fn wait_lists(
    alloc: Global,
    w: &Workload,
    reached: &[UnitNo],
) -> Result<Vec<Vec<UnitNo>>, Want>
    requires { (v : UnitNo) → Contains reached.now v → IsReached w.now v.0 }
    ensures listed { IfOk result (λ waiting. Listed w.now waiting.items) }
    ensures waited { IfOk result (λ waiting. (v : UnitNo) → Contains reached.now v → HasWaitedAll w.now waiting.items v.0) }
{
    w.known();
    let mut waiting = no_lists(alloc, w)?;
    for u in reached {
        wait_unit(&mut waiting, w, *u)?;
    }
    Ok(waiting)
}
