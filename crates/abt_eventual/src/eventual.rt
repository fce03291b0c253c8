//! An eventual, and its calls. None of them takes memory.

ghost use Rattle.std.specs.Prelude.{◌≡◌, [], IfSome, None};
ghost use Rattle.std.specs.List.{find};
ghost use Rattle.abt_machine.specs.Acts.{Await, Fill, Number, Reset, Rested, Test};
ghost use Rattle.abt_machine.specs.Eventuals.{EventualGives};
ghost use Rattle.abt_machine.specs.Pools.{is_unit};
ghost use Rattle.abt_machine.specs.Numbers.{truth};
ghost use Rattle.abt_unit.specs.Units.{IsFree};
ghost use Rattle.abt_chain.specs.Results.{coded_or, given_or, unit_found, units_woken};

use crate::waking::woken_with;
use abt_chain::Chain;
use abt_machine::{Code, UnitNo};
use abt_unit::Unit;
use std::marker::Model;

/// A value that is set once, and the units that wait for it.
#[derive(Drop)]
pub struct Eventual {
    value: Option<u64>,
    waiters: Chain,
}

impl Model for Eventual {
    ghost use Rattle.abt_machine.specs.Values.{EventualValue};

    ghost Value = { EventualValue };

    ghost view = { λ e. record { value = e.value; waiters = e.waiters.units } };
}

impl Eventual {
    /// Not ready, and nobody waits.
    pub fn new() -> Eventual
        ensures { result ≡ record { value = None; waiters = [] } }
    {
        Eventual {
            value: None,
            waiters: Chain::new(),
        }
    }

    /// The unit goes on with the value in its accumulator if the eventual is ready. Else it waits.
    pub fn wait(&mut self, mut unit: Box<Unit>) -> Option<Box<Unit>>
        requires { IsFree unit.value }
        ensures gives { EventualGives self.old (Await unit.value.owned) (given_or Rested result) self.new }
        ensures free { IfSome result (λ given. IsFree given.value) }
        ensures room { IfSome result (λ given. given.value.spare ≡ unit.value.spare) }
    {
        match self.value {
            None => {
                self.waiters.push_back(unit);
                None
            }
            Some(value) => {
                unit.receive(value);
                Some(unit)
            }
        }
    }

    /// Makes the eventual ready with that value: all units that wait come out in order, each with the value in its
    /// accumulator. `EventualSet` if it is ready.
    pub fn set(&mut self, value: u64) -> Result<Chain, Code>
        ensures { EventualGives self.old (Fill value) (coded_or units_woken result) self.new }
    {
        match self.value {
            None => {
                self.value = Some(value);
                Ok(woken_with(value, &mut self.waiters))
            }
            Some(_) => Err(Code::EventualSet),
        }
    }

    /// The eventual is not ready any longer. The units that wait go on waiting.
    pub fn reset(&mut self)
        ensures { EventualGives self.old Reset Rested self.new }
    {
        self.value = None;
    }

    /// Whether the eventual is ready.
    pub fn test(&self) -> bool
        ensures { EventualGives self.now Test (Number (truth result)) self.now }
    {
        self.value.is_some()
    }

    /// All units that wait, in order.
    pub fn into_units(self) -> Chain
        ensures { result.units ≡ self.waiters }
    {
        let Eventual { value: _, waiters } = self;
        waiters
    }

    /// The first unit of that number among those that wait. The time is that of a walk over them.
    pub fn waiter(&self, u: UnitNo) -> Option<&Unit>
        ensures { find (is_unit u.0) self.now.waiters ≡ unit_found result }
    {
        self.waiters.find(u)
    }
}
