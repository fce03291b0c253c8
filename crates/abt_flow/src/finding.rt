//! The flow of a confluent workload.

ghost use Rattle.std.specs.Prelude.{◌<◌, ◌≡◌, IfOk, List, MatchBool, MatchOption, length, map, ℕ};
ghost use Rattle.abt_machine.specs.declared.events.Piece.{Piece};
ghost use Rattle.abt_machine.specs.Stored.{CallsStored};
ghost use Rattle.abt_flow.specs.Confluent.{Confluent};
ghost use Rattle.abt_flow.specs.Flow.{IsFlow};
ghost use Rattle.abt_flow.specs.Tables.{AreReached, IsDone, IsStuck};
ghost use Rattle.abt_flow.specs.declared.memory.Progress.{Progress};

use crate::memory::Progress;
use crate::naming::ops_count;
use crate::reaching::Reached;
use crate::table::Table;
use abt_machine::{Items, Output, UnitNo, Want, Workload};
use abt_work::Work;
use std::alloc::Global;

/// A unit's output.
pub type FlowRow = Output;

/// The outputs of all units, in order of number. A unit that isn't reached has none.
pub type Flow = Items<FlowRow>;

// Whether a unit is at its end, if it is reached.
fn is_done_at(w: &Workload, units: &[Progress], marks: &[bool], u: u32) -> bool
    requires unit { u < length w.now.units }
    requires all { length units.now ≡ length w.now.units }
    requires marks { AreReached w.now marks.now }
    ensures { MatchBool result (IsDone w.now units.now u) (IsStuck w.now units.now u) }
{
    if !marks[u as usize] {
        return true;
    }
    ops_count(w, UnitNo(u)) <= units[u as usize].position
}

// Whether every unit that is reached is at its end.
fn is_done(w: &Workload, units: &[Progress], marks: &[bool]) -> bool
    requires all { length units.now ≡ length w.now.units }
    requires marks { AreReached w.now marks.now }
    ensures { MatchBool result ((u : ℕ) → u < length w.now.units → IsDone w.now units.now u) ((u : ℕ) × IsStuck w.now units.now u) }
{
    for u in 0..w.units() {
        if !is_done_at(w, units, marks, u) {
            return false;
        }
    }
    true
}

// What all units put out.
fn rows(alloc: Global, units: Vec<Progress>) -> Result<Vec<FlowRow>, Want>
    ensures { IfOk result (λ rows. rows.items ≡ map (λ (p : Progress). p.output.items) units.items) }
{
    let mut rows = Vec::new(alloc);
    'rows: for unit in units {
        rows.push(FlowRow::new(unit.into_output()))?;
    }
    Ok(rows)
}

/// What the units of a confluent workload put out by their programs alone, if that is defined. It is not defined if some wait
/// of a reached unit has no operation of a reached unit that sets its eventual, or has one that comes only after the wait, or if
/// a call of a reached unit may return more than one word. Each operation is done once.
pub fn find_flow<P: Work>(alloc: Global, w: &Workload, work: &P) -> Result<Option<Flow>, Want>
    requires confluent { Confluent w.now }
    requires stored { CallsStored w.now (P.count work.now) }
    ensures { IfOk result (λ flow. MatchOption flow ((rows : List (List Piece)) → IsFlow w.now (P.returns work.now) rows → ⊥) (IsFlow w.now (P.returns work.now))) }
{
    w.known();
    let Reached { units, marks } = Reached::find(alloc, w)?;
    let mut table = Table::make(alloc, w, units)?;
    table.run_all(w, work)?;
    if !is_done(w, &table.units, &marks) {
        return Ok(None);
    }
    let Table { units, .. } = table;
    Ok(Some(Flow::new(rows(alloc, units)?)))
}
