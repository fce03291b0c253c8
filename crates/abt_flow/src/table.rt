//! The programs of all units, run on as values of eventuals are found.

ghost use Rattle.std.specs.Prelude.{Contains, ℕ, ◌+◌, ◌<◌, ◌≡◌, IfOk, MatchBool, MatchOption, Some};
ghost use Rattle.abt_machine.specs.Numbers.{unit_no};
ghost use Rattle.abt_machine.specs.Stored.{CallsStored};
ghost use Rattle.abt_machine.specs.declared.numbers.UnitNo.{UnitNo};
ghost use Rattle.abt_machine.specs.declared.operations.Op.TheVariants as op;
ghost use Rattle.abt_flow.specs.Confluent.{Confluent};
ghost use Rattle.abt_flow.specs.Flow.{Functions, IsReached};
ghost use Rattle.abt_flow.specs.Tables.{AllRest, AllRun, IsNextOperation, IsOther, HasNoneLeft, Rests, UnitRuns, executed, runs_left};

use crate::beginning::{fresh_units, no_values, wait_lists};
use crate::memory::Progress;
use crate::role::Role;
use abt_machine::{ObjectNo, Op, UnitNo, Want, Workload};
use abt_work::Work;
use std::alloc::Global;

// Each unit's program, each eventual's value, once it is set, the units that are to be run on once it
// is, and those that are to be run now.
#[derive(Drop)]
pub(crate) struct Table {
    pub(crate) units: Vec<Progress>,
    values: Vec<Option<u64>>,
    waiting: Vec<Vec<UnitNo>>,
    ready: Vec<UnitNo>,
}

// Most methods take what functions return for their contracts alone, and only `call` calls one.
impl Table {
    // Every unit at its beginning, and ready if it is reached.
    pub(crate) fn make(alloc: Global, w: &Workload, reached: Vec<UnitNo>) -> Result<Self, Want>
        requires only { (v : UnitNo) → Contains reached.items v → IsReached w.now v.0 }
        requires every { (u : ℕ) → IsReached w.now u → Contains reached.items (unit_no u) }
        ensures { (R : Functions) → IfOk result (λ table. AllRun w.now R table) }
    {
        Ok(Table {
            units: fresh_units(alloc, w)?,
            values: no_values(alloc, w.objects())?,
            waiting: wait_lists(alloc, w, &reached)?,
            ready: reached,
        })
    }

    // Goes on past a wait, if the eventual has a value.
    fn await_value<P: Work>(&mut self, w: &Workload, work: &P, u: UnitNo, x: ObjectNo) -> bool
        requires confluent { Confluent w.now }
        requires reached { IsReached w.now u.0 }
        requires runs { UnitRuns w.now (P.returns work.now) u.0 self.old }
        requires here { IsNextOperation w.now self.old.units.items u.0 (op.EvWait x) }
        ensures runs { UnitRuns w.now (P.returns work.now) u.0 self.new }
        ensures left { runs_left self.new ≡ runs_left self.old }
        ensures more { MatchBool result (executed self.new.units.items ≡ executed self.old.units.items + 1) (Rests w.now (P.returns work.now) self.new.units.items self.new.values.items u.0) }
    {
        w.known();
        match self.values[x.0 as usize] {
            None => false,
            Some(value) => {
                self.units[u.0 as usize].receive(value);
                true
            }
        }
    }

    // Goes on with what a function returns, if it may return no other word.
    fn call<P: Work>(&mut self, w: &Workload, work: &P, u: UnitNo, f: u32) -> bool
        requires confluent { Confluent w.now }
        requires stored { CallsStored w.now (P.count work.now) }
        requires reached { IsReached w.now u.0 }
        requires runs { UnitRuns w.now (P.returns work.now) u.0 self.old }
        requires here { IsNextOperation w.now self.old.units.items u.0 (op.Call f) }
        ensures runs { UnitRuns w.now (P.returns work.now) u.0 self.new }
        ensures left { runs_left self.new ≡ runs_left self.old }
        ensures more { MatchBool result (executed self.new.units.items ≡ executed self.old.units.items + 1) (Rests w.now (P.returns work.now) self.new.units.items self.new.values.items u.0) }
    {
        w.known();
        match self.units[u.0 as usize].returned(work, u, f) {
            None => false,
            Some(word) => {
                self.units[u.0 as usize].receive(word);
                true
            }
        }
    }

    // Sets an eventual, after which those that wait for it are to be run.
    fn set_value<P: Work>(
        &mut self,
        w: &Workload,
        work: &P,
        u: UnitNo,
        x: ObjectNo,
    ) -> Result<(), Want>
        requires confluent { Confluent w.now }
        requires reached { IsReached w.now u.0 }
        requires runs { UnitRuns w.now (P.returns work.now) u.0 self.old }
        requires here { IsNextOperation w.now self.old.units.items u.0 (op.EvSet x) }
        ensures runs { IfOk result (λ _. UnitRuns w.now (P.returns work.now) u.0 self.new) }
        ensures left { IfOk result (λ _. runs_left self.new ≡ runs_left self.old) }
        ensures more { IfOk result (λ _. executed self.new.units.items ≡ executed self.old.units.items + 1) }
    {
        w.known();
        let i = x.0 as usize;
        self.ready.extend_from_slice(&self.waiting[i])?;
        self.waiting[i].clear();
        self.values[i] = Some(self.units[u.0 as usize].acc);
        self.units[u.0 as usize].pass();
        Ok(())
    }

    // Does an operation that looks at nothing else.
    fn compute<P: Work>(&mut self, w: &Workload, work: &P, u: UnitNo, op: Op) -> Result<(), Want>
        requires confluent { Confluent w.now }
        requires reached { IsReached w.now u.0 }
        requires runs { UnitRuns w.now (P.returns work.now) u.0 self.old }
        requires here { IsNextOperation w.now self.old.units.items u.0 op }
        requires other { IsOther op }
        ensures runs { IfOk result (λ _. UnitRuns w.now (P.returns work.now) u.0 self.new) }
        ensures left { IfOk result (λ _. runs_left self.new ≡ runs_left self.old) }
        ensures more { IfOk result (λ _. executed self.new.units.items ≡ executed self.old.units.items + 1) }
    {
        w.known();
        self.units[u.0 as usize].compute(op)
    }

    // The next operation of a unit, if it doesn't rest.
    fn next<P: Work>(&self, w: &Workload, work: &P, u: UnitNo) -> Option<Op>
        requires reached { IsReached w.now u.0 }
        requires runs { UnitRuns w.now (P.returns work.now) u.0 self.now }
        ensures { MatchOption result (HasNoneLeft w.now self.now.units.items u.0) (IsNextOperation w.now self.now.units.items u.0) }
    {
        w.known();
        w.op(u, self.units[u.0 as usize].position)
    }

    // Does the next operation of a unit, unless it rests.
    fn step<P: Work>(&mut self, w: &Workload, work: &P, u: UnitNo) -> Result<bool, Want>
        requires confluent { Confluent w.now }
        requires stored { CallsStored w.now (P.count work.now) }
        requires reached { IsReached w.now u.0 }
        requires runs { UnitRuns w.now (P.returns work.now) u.0 self.old }
        ensures runs { IfOk result (λ _. UnitRuns w.now (P.returns work.now) u.0 self.new) }
        ensures left { IfOk result (λ _. runs_left self.new ≡ runs_left self.old) }
        ensures more { IfOk result (λ more. MatchBool more (executed self.new.units.items ≡ executed self.old.units.items + 1) (Rests w.now (P.returns work.now) self.new.units.items self.new.values.items u.0)) }
    {
        let Some(op) = self.next(w, work, u) else {
            return Ok(false);
        };
        match Role::of(op) {
            Role::Call(f) => Ok(self.call(w, work, u, f)),
            Role::AwaitValue(x) => Ok(self.await_value(w, work, u, x)),
            Role::SetValue(x) => {
                self.set_value(w, work, u, x)?;
                Ok(true)
            }
            _ => {
                self.compute(w, work, u, op)?;
                Ok(true)
            }
        }
    }

    // Runs a unit on until it rests.
    fn run<P: Work>(&mut self, w: &Workload, work: &P, u: UnitNo) -> Result<(), Want>
        requires confluent { Confluent w.now }
        requires stored { CallsStored w.now (P.count work.now) }
        requires reached { IsReached w.now u.0 }
        requires runs { UnitRuns w.now (P.returns work.now) u.0 self.old }
        ensures runs { IfOk result (λ _. UnitRuns w.now (P.returns work.now) u.0 self.new) }
        ensures left { IfOk result (λ _. runs_left self.new ≡ runs_left self.old) }
        ensures rests { IfOk result (λ _. Rests w.now (P.returns work.now) self.new.units.items self.new.values.items u.0) }
    {
        'steps: loop {
            if !self.step(w, work, u)? {
                return Ok(());
            }
        }
    }

    // Runs units on until all of them rest.
    pub(crate) fn run_all<P: Work>(&mut self, w: &Workload, work: &P) -> Result<(), Want>
        requires confluent { Confluent w.now }
        requires stored { CallsStored w.now (P.count work.now) }
        requires run { AllRun w.now (P.returns work.now) self.old }
        ensures { IfOk result (λ _. AllRest w.now (P.returns work.now) self.new) }
    {
        while let Some(u) = self.ready.pop() {
            self.run(w, work, u)?;
        }
        Ok(())
    }
}
