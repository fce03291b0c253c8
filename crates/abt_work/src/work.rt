//! The user's code in a run.

ghost use Rattle.std.specs.Prelude.{◌≡◌, ◌<◌, ◌^◌, ◌↔◌, IfSome, IsTrue, None};
ghost use Rattle.abt_machine.specs.Stored.{IsReturned};

use abt_machine::{StreamNo, UnitNo};

/// The functions that units call by their numbers, and what is called before each step. Threads share it by reference, and no
/// lock is held while its methods run, but for a `before_step` of which `watches` says that it does nothing. A method that does
/// not return holds up its stream for ever.
pub trait Work {
    ghost use Rattle.std.specs.Prelude.{ℕ, List, Option};

    // How many functions there are.
    ghost count: { Self → ℕ };

    // What function f returns for a unit with this number, accumulator and keys; any word if there is none.
    ghost returns: { Self → ℕ → ℕ → ℕ → List ℕ → Option ℕ };

    /// What is called before the unit's step at this position; a call is a step.
    fn before_step(&self, stream: StreamNo, unit: UnitNo, at: u32);

    /// Whether `before_step` does anything. Where it does nothing, a stream may keep locks from one step to the next.
    fn watches(&self) -> bool {
        true
    }

    /// What the function of this number returns for a unit with this number, accumulator and keys, which becomes the unit's
    /// accumulator. It cannot fail, and it does not learn which stream calls, so that its result does not depend on the schedule.
    fn call(&self, function: u32, unit: UnitNo, acc: u64, keys: &[u64]) -> u64
        requires stored { function < count self.now }
        ensures { IfSome (returns self.now function unit.0 acc keys.now) (λ n. result ≡ n) };

    /// Whether the function may return this value, as who judges a journal asks: of a function that returns one value whether it
    /// is that value, of any other true.
    fn accepts(&self, function: u32, unit: UnitNo, acc: u64, keys: &[u64], value: u64) -> bool
        requires stored { function < count self.now }
        ensures { IsTrue result ↔ IsReturned (returns self.now function unit.0 acc keys.now) value };
}

/// A function of each number, of which nothing is known, and nothing before a step: for runs whose units call no function, and for
/// judging a journal without the functions of its run.
#[derive(Clone, Copy, Debug, PartialEq, Eq)]
pub struct AnyWork;

impl Work for AnyWork {
    ghost count = { λ _. 2 ^ 32 };

    ghost returns = { λ _ _ _ _ _. None };

    fn before_step(&self, _stream: StreamNo, _unit: UnitNo, _at: u32) {}

    fn watches(&self) -> bool {
        false
    }

    fn call(&self, _function: u32, _unit: UnitNo, acc: u64, _keys: &[u64]) -> u64 {
        acc
    }

    fn accepts(
        &self,
        _function: u32,
        _unit: UnitNo,
        _acc: u64,
        _keys: &[u64],
        _value: u64,
    ) -> bool {
        true
    }
}
