//! Which units are reached.

ghost use Rattle.std.specs.Prelude.{◌+◌, ◌<◌, ◌≡◌, IfOk, MatchOption, Some, length, ℕ};
ghost use Rattle.abt_machine.specs.Workloads.{op_at, start_of};
ghost use Rattle.abt_flow.specs.Flow.{IsReached};
ghost use Rattle.abt_flow.specs.Tables.{AddsUnit, Closes, CreatesNone, CreatesUnit, Finds, Grows, HasMarked, IsClosedBelow, IsMarked};

use crate::confluence::has_start;
use crate::naming::ops_count;
use crate::role::Role;
use abt_machine::{UnitNo, Want, Workload};
use std::alloc::Global;

// The units that are reached, in the order in which they were found, and for each unit whether it is one.
#[derive(Drop)]
pub(crate) struct Reached {
    pub(crate) units: Vec<UnitNo>,
    pub(crate) marks: Vec<bool>,
}

// The unit that an operation of a unit creates, if it creates one.
fn created_at(w: &Workload, u: UnitNo, k: u32) -> Option<UnitNo>
    requires { u.0 < length w.now.units }
    ensures { MatchOption result (CreatesNone (op_at w.now u.0 k)) (CreatesUnit (op_at w.now u.0 k)) }
{
    match Role::of(w.op(u, k)?) {
        Role::Create(v, _) => Some(v),
        _ => None,
    }
}

impl Reached {
    // Adds a unit, unless it is there.
    fn add(&mut self, u: UnitNo) -> Result<(), Want>
        requires { u.0 < length self.old.marks.items }
        ensures { IfOk result (λ _. AddsUnit u self.old.units.items self.old.marks.items self.new.units.items self.new.marks.items) }
    {
        let i = u.0 as usize;
        if self.marks[i] {
            return Ok(());
        }
        self.marks[i] = true;
        self.units.push(u)?;
        Ok(())
    }

    // Adds the unit that an operation creates, if it creates one.
    fn add_created(&mut self, w: &Workload, u: UnitNo, k: u32) -> Result<(), Want>
        requires finds { Finds w.now self.old.units.items self.old.marks.items }
        requires reached { IsReached w.now u.0 }
        requires unit { u.0 < length w.now.units }
        requires marked { HasMarked w.now self.old.marks.items u.0 k }
        ensures finds { IfOk result (λ _. Finds w.now self.new.units.items self.new.marks.items) }
        ensures grows { IfOk result (λ _. Grows self.old.units.items self.old.marks.items self.new.units.items self.new.marks.items) }
        ensures marked { IfOk result (λ _. HasMarked w.now self.new.marks.items u.0 (k + 1)) }
    {
        w.known();
        match created_at(w, u, k) {
            Some(v) => self.add(v),
            None => Ok(()),
        }
    }

    // Adds the units that a unit creates.
    fn add_all_created(&mut self, w: &Workload, u: UnitNo) -> Result<(), Want>
        requires finds { Finds w.now self.old.units.items self.old.marks.items }
        requires reached { IsReached w.now u.0 }
        requires unit { u.0 < length w.now.units }
        ensures finds { IfOk result (λ _. Finds w.now self.new.units.items self.new.marks.items) }
        ensures grows { IfOk result (λ _. Grows self.old.units.items self.old.marks.items self.new.units.items self.new.marks.items) }
        ensures marked { IfOk result (λ _. Closes w.now self.new.marks.items u.0) }
    {
        for k in 0..ops_count(w, u) {
            self.add_created(w, u, k)?;
        }
        Ok(())
    }

    // Adds a unit, if it has a start.
    fn add_start(&mut self, w: &Workload, u: UnitNo) -> Result<(), Want>
        requires finds { Finds w.now self.old.units.items self.old.marks.items }
        requires unit { u.0 < length w.now.units }
        ensures finds { IfOk result (λ _. Finds w.now self.new.units.items self.new.marks.items) }
        ensures grows { IfOk result (λ _. Grows self.old.units.items self.old.marks.items self.new.units.items self.new.marks.items) }
        ensures marked { IfOk result (λ _. (p : ℕ) → start_of w.now u.0 ≡ Some p → IsMarked self.new.marks.items u.0) }
    {
        if has_start(w, u) {
            return self.add(u);
        }
        Ok(())
    }

    // The units that have a start.
    fn starts(alloc: Global, w: &Workload) -> Result<Self, Want>
        ensures finds { IfOk result (λ reached. Finds w.now reached.units.items reached.marks.items) }
        ensures marked { IfOk result (λ reached. (u p : ℕ) → start_of w.now u ≡ Some p → IsMarked reached.marks.items u) }
    {
        let mut reached = Reached {
            units: Vec::new(alloc),
            marks: vec![in alloc; false; w.units() as usize]?,
        };
        for u in 0..w.units() {
            reached.add_start(w, UnitNo(u))?;
        }
        Ok(reached)
    }

    // Adds the units that a unit of the list creates, if the list is that long.
    fn look(&mut self, w: &Workload, at: usize) -> Result<(), Want>
        requires finds { Finds w.now self.old.units.items self.old.marks.items }
        requires closed { IsClosedBelow w.now self.old.units.items self.old.marks.items at }
        ensures finds { IfOk result (λ _. Finds w.now self.new.units.items self.new.marks.items) }
        ensures grows { IfOk result (λ _. Grows self.old.units.items self.old.marks.items self.new.units.items self.new.marks.items) }
        ensures closed { IfOk result (λ _. IsClosedBelow w.now self.new.units.items self.new.marks.items (at + 1)) }
    {
        w.known();
        let count = self.units.len();
        if count <= at {
            return Ok(());
        }
        let u = self.units[at];
        self.add_all_created(w, u)
    }

    // The units that are reached. Each is looked at once, in the order in which they are found.
    pub(crate) fn find(alloc: Global, w: &Workload) -> Result<Self, Want>
        ensures finds { IfOk result (λ reached. Finds w.now reached.units.items reached.marks.items) }
        ensures all { IfOk result (λ reached. (u : ℕ) → IsReached w.now u → IsMarked reached.marks.items u) }
    {
        let mut reached = Reached::starts(alloc, w)?;
        for at in 0..w.units() {
            reached.look(w, at as usize)?;
        }
        Ok(reached)
    }
}
