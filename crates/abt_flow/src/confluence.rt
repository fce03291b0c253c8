//! The first operation by which a workload is not confluent.

ghost use Rattle.std.specs.Prelude.{◌+◌, ◌<◌, ◌≡◌, ◌↔◌, IfOk, IfSome, IsTrue, MatchBool, MatchOption, None, Some, length, ℕ};
ghost use Rattle.abt_machine.specs.Operations.{IsDeclared};
ghost use Rattle.abt_machine.specs.Workloads.{access_of, op_at, start_of};
ghost use Rattle.abt_flow.specs.Checks.{IsPlainOp, Violates};
ghost use Rattle.abt_flow.specs.Violations.{Clears, IsFirstViolation};
ghost use Rattle.abt_flow.specs.Confluent.{Confluent, IsOpen};

use crate::naming::{Naming, mark, none_named, ops_count};
use crate::role::Role;
use abt_machine::{Access, Op, PoolNo, UnitNo, Want, Workload};
use std::alloc::Global;

// Whether every stream may put into a pool.
fn is_open(w: &Workload, p: PoolNo) -> bool
    requires { p.0 < length w.now.pools }
    ensures { IsTrue result ↔ IsOpen (access_of w.now p.0) }
{
    match w.pool(p).access {
        Access::Mpsc(_) | Access::Mpmc => true,
        Access::Priv(_) | Access::Spsc(_, _) | Access::Spmc(_) => false,
    }
}

// Whether a unit has a start.
pub(crate) fn has_start(w: &Workload, u: UnitNo) -> bool
    requires { u.0 < length w.now.units }
    ensures { MatchBool result ((p : ℕ) × (start_of w.now u.0 ≡ Some p)) (start_of w.now u.0 ≡ None) }
{
    w.unit(u).start.is_some()
}

// Whether an operation does not depend on the schedule and, if it creates a unit, that unit has no start and its pool is open.
fn is_plain(w: &Workload, op: Op) -> bool
    requires { IsDeclared w.now op }
    ensures { IsTrue result ↔ IsPlainOp w.now op }
{
    match Role::of(op) {
        Role::Create(v, p) => !has_start(w, v) && is_open(w, p),
        Role::Depend => false,
        _ => true,
    }
}

/// An operation by which a workload is not confluent.
#[derive(Clone, Copy, Debug, PartialEq, Eq)]
pub struct Violation {
    /// The unit that has the operation.
    pub unit: UnitNo,
    /// The operation's position in the unit's program, as events count it.
    pub position: u32,
    /// The operation.
    pub operation: Op,
}

// What is set and what is created by the operations so far.
#[derive(Drop)]
pub(crate) struct Seen {
    set: Vec<bool>,
    created: Vec<bool>,
}

impl Seen {
    // Before any operation.
    fn none(alloc: Global, w: &Workload) -> Result<Self, Want>
        ensures { IfOk result (Clears w.now 0 0) }
    {
        Ok(Seen {
            set: none_named(alloc, w, Naming::Sets)?,
            created: none_named(alloc, w, Naming::Creates)?,
        })
    }

    // Adds what an operation sets and creates, and says whether the operation is plain and the first to do so.
    fn admit(&mut self, w: &Workload, u: UnitNo, k: u32, op: Op) -> bool
        requires unit { u.0 < length w.now.units }
        requires at { op_at w.now u.0 k ≡ Some op }
        requires clear { Clears w.now u.0 k self.old }
        ensures { MatchBool result (Clears w.now u.0 (k + 1) self.new) (Violates w.now u.0 k op) }
    {
        w.known();
        if !is_plain(w, op) {
            return false;
        }
        if !mark(w, Naming::Sets, u, k, op, &mut self.set) {
            return false;
        }
        mark(w, Naming::Creates, u, k, op, &mut self.created)
    }

    // Adds an operation of a unit, if it has one there, and says whether it violates confluence.
    fn look_at(&mut self, w: &Workload, u: UnitNo, k: u32) -> Option<Violation>
        requires unit { u.0 < length w.now.units }
        requires clear { Clears w.now u.0 k self.old }
        ensures { MatchOption result (Clears w.now u.0 (k + 1) self.new) (IsFirstViolation w.now) }
    {
        let Some(operation) = w.op(u, k) else {
            return None;
        };
        if self.admit(w, u, k, operation) {
            return None;
        }
        Some(Violation {
            unit: u,
            position: k,
            operation,
        })
    }

    // Adds the operations of a unit, up to the first that violates confluence.
    fn look_through(&mut self, w: &Workload, u: UnitNo) -> Option<Violation>
        requires unit { u.0 < length w.now.units }
        requires clear { Clears w.now u.0 0 self.old }
        ensures { MatchOption result (Clears w.now (u.0 + 1) 0 self.new) (IsFirstViolation w.now) }
    {
        for k in 0..ops_count(w, u) {
            if let Some(violation) = self.look_at(w, u, k) {
                return Some(violation);
            }
        }
        None
    }
}

/// The first operation by which a workload is not confluent, in order of unit and then of position. If there is none, what the
/// units put out does not depend on the schedule: no operation depends on it, at most one sets each eventual, at most one creates
/// each unit that has no start and none any other, and units are created in pools that every stream may put into.
///
/// # Errors
/// Out of memory.
pub fn first_violation(alloc: Global, w: &Workload) -> Result<Option<Violation>, Want>
    ensures confluent { IfOk result (λ found. MatchOption found (Confluent w.now) (λ _. Confluent w.now → ⊥)) }
    ensures first { IfOk result (λ found. IfSome found (IsFirstViolation w.now)) }
{
    let mut seen = Seen::none(alloc, w)?;
    for u in 0..w.units() {
        if let Some(violation) = seen.look_through(w, UnitNo(u)) {
            return Ok(Some(violation));
        }
    }
    Ok(None)
}
