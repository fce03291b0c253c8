//! Units that operations name, and events that touch no object but the desk of their own unit.

ghost use Rattle.std.specs.Prelude.{ℕ, ◌≡◌, ◌<◌, IfOk, Some, length, option_map};
ghost use Rattle.std.specs.Bool.{OnTrue};
ghost use Rattle.abt_explore.specs.Named.{IsPrivate, IsUnmarked, MarksNamed, unit_named};
ghost use Rattle.abt_machine.specs.Workloads.{op_at};
ghost use Rattle.abt_machine.specs.declared.events.What.TheVariants as what;
ghost use Rattle.abt_machine.specs.declared.numbers.UnitNo.{UnitNo};
ghost use Rattle.abt_machine.specs.declared.operations.Op.{Op};

use abt_machine::{Code, Op, StreamNo, UnitNo, Want, What, Workload};
use abt_plans::step_site;
use std::alloc::Global;

/// A table of all units, in which each unit that an operation names is marked.
pub(crate) fn named_units(alloc: Global, w: &Workload) -> Result<Vec<bool>, Want>
    ensures { IfOk result (λ named. MarksNamed w.now named.items) }
{
    let mut named = vec![in alloc; false; w.units() as usize]?;
    for u in 0..w.units() {
        mark_unit(w, UnitNo(u), &mut named);
    }
    Ok(named)
}

// Marks the units that a unit's operations name.
fn mark_unit(w: &Workload, u: UnitNo, named: &mut [bool])
    requires { u.0 < length w.now.units }
    ensures old { (v : ℕ) → IsUnmarked named.new v → IsUnmarked named.old v }
    ensures new { (v k : ℕ) (o : Op) → IsUnmarked named.new v → op_at w.now u.0 k ≡ Some o → unit_named o ≡ Some v → ⊥ }
{
    for op in w.unit(u).body.ops() {
        if let Some(v) = named_by(*op) {
            mark(v, named);
        }
    }
}

// Marks a unit, if it is in the table.
fn mark(u: UnitNo, named: &mut [bool])
    ensures old { (v : ℕ) → IsUnmarked named.new v → IsUnmarked named.old v }
    ensures new { IsUnmarked named.new u.0 → ⊥ }
{
    if (u.0 as usize) < named.len() {
        named[u.0 as usize] = true;
    }
}

// The unit whose desk the operation calls, if it is not that of the unit which makes it.
fn named_by(op: Op) -> Option<UnitNo>
    ensures { option_map (λ (v : UnitNo). v.0) result ≡ unit_named op }
{
    match op {
        Op::Resume(v)
        | Op::Create(v, _)
        | Op::Join(v)
        | Op::Cancel(v)
        | Op::Migrate(v, _)
        | Op::MigrateTo(v, _)
        | Op::Migratable(v, _)
        | Op::Revive(v, _) => Some(v),
        _ => None,
    }
}

/// Whether what stream `s` does touches no object, or only the desk of its unit, which is not marked, or is a load of a mutex that the
/// unit owns.
pub(crate) fn is_private(w: &Workload, named: &[bool], s: StreamNo, what: &What) -> bool
    requires stream { s.0 < w.now.streams }
    requires named { MarksNamed w.now named.now }
    ensures { OnTrue result (IsPrivate w.now s.0 what.now) }
{
    match *what {
        What::Step(u, at, code) => u.0 < w.units() && is_private_step(w, s, u, at, code),
        What::Call(_, _, _) | What::Enter(_) | What::Leave(_) => true,
        What::Look(u) | What::End(u, _) => is_unmarked(named, u),
        What::Miss(_) | What::Take(_, _) | What::Put(_, _) => false,
    }
}

// Whether the step touches no object, or is a load of a mutex that the unit owns.
fn is_private_step(w: &Workload, s: StreamNo, u: UnitNo, at: u32, code: Code) -> bool
    requires stream { s.0 < w.now.streams }
    requires unit { u.0 < length w.now.units }
    ensures { OnTrue result (IsPrivate w.now s.0 (what.Step u at code)) }
{
    match w.op(u, at) {
        Some(Op::Load(_)) => code == Code::Ok,
        _ => step_site(w, s, u, at).is_none(),
    }
}

// Whether the table has the unit, and does not mark it.
fn is_unmarked(named: &[bool], u: UnitNo) -> bool
    ensures { OnTrue result (IsUnmarked named.now u.0) }
{
    match named.get(u.0 as usize) {
        Some(marked) => !*marked,
        None => false,
    }
}
