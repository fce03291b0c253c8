//! How far the program of a unit has come, and what it works on.

ghost use Rattle.std.specs.Prelude.{ℕ, ◌+◌, ◌-◌, ◌%◌, ◌<◌, ◌≡◌, ◌^◌, IfOk, MatchOption, None, Some, length};
ghost use Rattle.abt_flow.specs.Effects.{effect};
ghost use Rattle.abt_flow.specs.Tables.{ComputesTo, HasKey, IsComputed, IsFresh, memory_in};
ghost use Rattle.abt_machine.specs.Stored.{IsReturned};

use crate::role::Role;
use abt_machine::{Op, Piece, UnitNo, Want, Workload};
use abt_work::Work;
use std::alloc::Global;

// A unit's program: its next operation, and its memory.
#[derive(Drop)]
pub(crate) struct Progress {
    pub(crate) position: u32,
    pub(crate) acc: u64,
    keys: Vec<u64>,
    pub(crate) output: Vec<Piece>,
}

impl Progress {
    // Before the first operation.
    pub(crate) fn fresh(alloc: Global, w: &Workload) -> Result<Self, Want>
        ensures { IfOk result (λ p. IsFresh w.now p) }
    {
        Ok(Progress {
            position: 0,
            acc: 0,
            keys: vec![in alloc; 0; w.keys() as usize]?,
            output: Vec::new(alloc),
        })
    }

    // What a function returns for a unit with this program, if it may return no other word.
    pub(crate) fn returned<P: Work>(&self, work: &P, u: UnitNo, f: u32) -> Option<u64>
        requires { f < P.count work.now }
        ensures { MatchOption result (P.returns work.now f u.0 self.now.acc self.now.keys.items ≡ None) (λ n. (m : ℕ) × (P.returns work.now f u.0 self.now.acc self.now.keys.items ≡ Some m) × (n ≡ m % 2 ^ 64)) }
    {
        let word = work.call(f, u, self.acc, &self.keys);
        if work.accepts(f, u, self.acc, &self.keys, word.wrapping_add(1)) {
            return None;
        }
        Some(word)
    }

    // Goes on with what a function returned, or with the value of an eventual.
    pub(crate) fn receive(&mut self, value: u64)
        requires { self.old.position < 2 ^ 32 - 1 }
        ensures { self.new ≡ record self.old { position = self.old.position + 1; acc = value } }
    {
        self.acc = value;
        self.position += 1;
    }

    // Goes on past an operation that changes nothing.
    pub(crate) fn pass(&mut self)
        requires { self.old.position < 2 ^ 32 - 1 }
        ensures { self.new ≡ record self.old { position = self.old.position + 1 } }
    {
        self.position += 1;
    }

    // Does an operation that looks at nothing else.
    fn change(&mut self, op: Op) -> Result<(), Want>
        requires computed { IsComputed (effect op) }
        requires key { HasKey op (length self.old.keys.items) }
        ensures memory { IfOk result (λ _. ComputesTo (effect op) (memory_in self.old) (memory_in self.new)) }
        ensures position { self.new.position ≡ self.old.position }
    {
        match Role::of(op) {
            Role::Set(n) => self.acc = n,
            Role::Add(n) => self.acc = self.acc.wrapping_add(n),
            Role::Say(word) => self.output.push(Piece::Said(word))?,
            Role::Print => self.output.push(Piece::Number(self.acc))?,
            Role::KeySet(k) => self.keys[k as usize] = self.acc,
            Role::KeyGet(k) => self.acc = self.keys[k as usize],
            Role::Calc(calc, k) => self.acc = calc.word_from(self.acc, self.keys[k as usize]),
            Role::Call(_)
            | Role::Create(_, _)
            | Role::AwaitValue(_)
            | Role::SetValue(_)
            | Role::Pass
            | Role::Depend => {}
        }
        Ok(())
    }

    // Does an operation that looks at nothing else, and goes on.
    pub(crate) fn compute(&mut self, op: Op) -> Result<(), Want>
        requires room { self.old.position < 2 ^ 32 - 1 }
        requires computed { IsComputed (effect op) }
        requires key { HasKey op (length self.old.keys.items) }
        ensures memory { IfOk result (λ _. ComputesTo (effect op) (memory_in self.old) (memory_in self.new)) }
        ensures position { IfOk result (λ _. self.new.position ≡ self.old.position + 1) }
    {
        self.change(op)?;
        self.position += 1;
        Ok(())
    }

    // What was put out.
    pub(crate) fn into_output(self) -> Vec<Piece>
        ensures { result.items ≡ self.output.items }
    {
        let Progress { output, .. } = self;
        output
    }
}
