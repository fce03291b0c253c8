//! A future, and its calls. None of them takes memory.

ghost use Rattle.std.specs.Prelude.{◌≡◌, ◌≢◌, ◌<◌, ◌↔◌, [], IfSome, IsTrue};
ghost use Rattle.std.specs.List.{find};
ghost use Rattle.abt_machine.specs.Acts.{Await, Fill, Number, Reset, Rested, Test};
ghost use Rattle.abt_machine.specs.Futures.{FutureGives, with_one_more};
ghost use Rattle.abt_machine.specs.Pools.{is_unit};
ghost use Rattle.abt_machine.specs.Numbers.{truth};
ghost use Rattle.abt_unit.specs.Units.{IsFree};
ghost use Rattle.abt_chain.specs.Results.{coded_or, given_or, unit_found, units_woken};

use crate::waking::woken_with;
use abt_chain::Chain;
use abt_machine::{Code, Combine, UnitNo};
use abt_unit::Unit;
use std::marker::Model;

/// A value that is made of several: it is ready when all of its compartments are filled. Units wait for it.
#[derive(Drop)]
pub struct Future {
    size: u32,
    combine: Combine,
    filled: u32,
    value: u64,
    waiters: Chain,
}

impl Model for Future {
    ghost use Rattle.std.specs.Prelude.{◌≤◌};
    ghost use Rattle.abt_machine.specs.Values.{FutureValue};

    ghost Value = { FutureValue };

    ghost view = { λ f. record {
      size = f.size;
      combine = f.combine;
      filled = f.filled;
      value = f.value;
      waiters = f.waiters.units;
    } };

    ghost invariant = { λ f. f.filled ≤ f.size };
}

impl Future {
    /// A future of that many compartments, none of which is filled, and of that rule. Nobody waits.
    pub fn new(size: u32, combine: Combine) -> Future
        requires { 0 < size }
        ensures { result ≡ record { size = size; combine = combine; filled = 0; value = 0; waiters = [] } }
    {
        Future {
            size,
            combine,
            filled: 0,
            value: 0,
            waiters: Chain::new(),
        }
    }

    /// The unit goes on with the value in its accumulator if the future is ready. Else it waits.
    pub fn wait(&mut self, mut unit: Box<Unit>) -> Option<Box<Unit>>
        requires { IsFree unit.value }
        ensures gives { FutureGives self.old (Await unit.value.owned) (given_or Rested result) self.new }
        ensures free { IfSome result (λ given. IsFree given.value) }
        ensures room { IfSome result (λ given. given.value.spare ≡ unit.value.spare) }
    {
        if self.is_ready() {
            unit.receive(self.value);
            return Some(unit);
        }
        self.waiters.push_back(unit);
        None
    }

    /// Fills one compartment. With the last the future is ready: all units that wait come out in order, each with the
    /// future's value in its accumulator. `FutureFull` if it is ready.
    pub fn set(&mut self, value: u64) -> Result<Chain, Code>
        ensures { FutureGives self.old (Fill value) (coded_or units_woken result) self.new }
    {
        if self.is_ready() {
            return Err(Code::FutureFull);
        }
        self.fill(value);
        if self.is_ready() {
            return Ok(woken_with(self.value, &mut self.waiters));
        }
        Ok(Chain::new())
    }

    /// No compartment is filled any longer. The units that wait go on waiting.
    pub fn reset(&mut self)
        ensures { FutureGives self.old Reset Rested self.new }
    {
        self.filled = 0;
        self.value = 0;
    }

    /// Whether the future is ready.
    pub fn test(&self) -> bool
        ensures { FutureGives self.now Test (Number (truth result)) self.now }
    {
        self.is_ready()
    }

    /// All units that wait, in order.
    pub fn into_units(self) -> Chain
        ensures { result.units ≡ self.waiters }
    {
        let Future { waiters, .. } = self;
        waiters
    }

    /// The first unit of that number among those that wait. The time is that of a walk over them.
    pub fn waiter(&self, u: UnitNo) -> Option<&Unit>
        ensures { find (is_unit u.0) self.now.waiters ≡ unit_found result }
    {
        self.waiters.find(u)
    }

    fn is_ready(&self) -> bool
        ensures { IsTrue result ↔ (self.now.filled ≡ self.now.size) }
    {
        self.filled == self.size
    }

    // Fills one more compartment, by the future's rule.
    fn fill(&mut self, value: u64)
        requires { self.old.filled ≢ self.old.size }
        ensures { self.new ≡ with_one_more value self.old }
    {
        self.value = self.combine.combined(self.value, self.filled, value);
        self.filled += 1;
    }
}
