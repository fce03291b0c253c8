//! What is due for the unit in hand.

ghost use Rattle.std.specs.Prelude.{ℕ, ◌<◌, length};
ghost use Rattle.abt_machine.specs.State.{Left, Plain};
ghost use Rattle.abt_machine.specs.Valid.{IsValid};
ghost use Rattle.abt_plans.specs.Dues.{DueIs, ProgramIs};
ghost use Rattle.abt_plans.specs.Marks.{mark_of};

use crate::pools::takes_all;
use abt_machine::{Body, Cause, Op, SchedNo, StreamNo, UnitNo, Workload};

/// What is to become of the unit in hand: it goes on, it was asked to end, it is a scheduler unit whose frame is gone, or it is
/// a thread that has ended itself.
#[derive(Clone, Copy, Debug, PartialEq, Eq)]
pub enum Mark {
    Plain,
    Asked,
    Left,
    Exited,
}

/// The end of the unit in hand, its start as a scheduler, or its next step.
#[derive(Clone, Copy, Debug, PartialEq, Eq)]
pub enum HandDue {
    End(Cause),
    Enter(SchedNo),
    Step(Op),
}

/// What is due for the unit in hand of stream `s`, which has this number and position.
#[inline(always)]
pub fn hand_due(w: &Workload, s: StreamNo, mark: Mark, unit: UnitNo, position: u32) -> HandDue
    requires valid { IsValid w.now }
    requires stream { s.0 < w.now.streams }
    requires unit { unit.0 < length w.now.units }
    ensures { DueIs w.now s.0 (mark_of mark) unit.0 position result }
{
    match mark {
        Mark::Asked => HandDue::End(Cause::Asked),
        Mark::Plain => plain(w, s, unit, position),
        Mark::Left => left(w, unit, position),
        Mark::Exited => HandDue::End(Cause::Own),
    }
}

// What is due if nothing was asked of the unit.
#[inline(always)]
fn plain(w: &Workload, s: StreamNo, unit: UnitNo, position: u32) -> HandDue
    requires valid { IsValid w.now }
    requires stream { s.0 < w.now.streams }
    requires unit { unit.0 < length w.now.units }
    ensures { DueIs w.now s.0 Plain unit.0 position result }
{
    match &w.unit(unit).body {
        Body::Sched(g) => {
            if takes_all(w, s, w.sched(*g).pools.items()) {
                HandDue::Enter(*g)
            } else {
                HandDue::End(Cause::Access)
            }
        }
        Body::Ult(ops) | Body::Task(ops) => program(ops.items(), position),
    }
}

// What is due if the unit, being a scheduler unit, has left.
fn left(w: &Workload, unit: UnitNo, position: u32) -> HandDue
    requires valid { IsValid w.now }
    requires unit { unit.0 < length w.now.units }
    ensures { (s : ℕ) → DueIs w.now s Left unit.0 position result }
{
    match &w.unit(unit).body {
        Body::Sched(_) => HandDue::End(Cause::Done),
        Body::Ult(ops) | Body::Task(ops) => program(ops.items(), position),
    }
}

// What is due at that position of a program.
fn program(ops: &[Op], at: u32) -> HandDue
    ensures { ProgramIs ops.now at result }
{
    match ops.get(at as usize) {
        Some(op) => HandDue::Step(*op),
        None => HandDue::End(Cause::Done),
    }
}
