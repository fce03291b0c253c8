//! A barrier, and its calls.

ghost use Rattle.std.specs.Prelude.{◌≡◌, ◌<◌, ◌+◌, ◌↔◌, [], length};
ghost use Rattle.std.specs.List.{find};
ghost use Rattle.abt_machine.specs.Acts.{Arrive};
ghost use Rattle.abt_machine.specs.Barriers.{BarrierGives};
ghost use Rattle.abt_machine.specs.Pools.{is_unit};
ghost use Rattle.abt_unit.specs.Units.{IsFree};
ghost use Rattle.abt_chain.specs.Results.{unit_found};
ghost use Rattle.abt_barrier.specs.Arrivals.{IfThrough, arrival_answer};
ghost use Rattle.abt_barrier.specs.declared.arrival.Arrival.TheVariants as arrival;

use crate::Arrival;
use abt_chain::Chain;
use abt_machine::UnitNo;
use abt_unit::Unit;
use std::marker::Model;
use std::mem;

/// A barrier of some number of parties, and the units that wait at it in order of arrival.
#[derive(Drop)]
pub struct Barrier {
    size: u32,
    waiting: u32,
    waiters: Chain,
}

impl Model for Barrier {
    ghost use Rattle.std.specs.Prelude.{◌≡◌, ◌<◌, length};
    ghost use Rattle.abt_machine.specs.Values.{BarrierValue};

    ghost Value = { BarrierValue };

    ghost view = { λ b. record { size = b.size; waiters = b.waiters.units } };

    ghost invariant = { λ b. (b.waiting ≡ length b.waiters.units) × (b.waiting < b.size) };
}

impl Barrier {
    /// A barrier of that many parties, at which none waits.
    pub fn new(n: u32) -> Barrier
        requires { 0 < n }
        ensures { result ≡ record { size = n; waiters = [] } }
    {
        Barrier {
            size: n,
            waiting: 0,
            waiters: Chain::new(),
        }
    }

    /// The unit waits, or is the last that the barrier waited for.
    pub fn arrive(&mut self, unit: Box<Unit>) -> Arrival
        requires free { IsFree unit.value }
        ensures gives { BarrierGives self.old (Arrive unit.value.owned) (arrival_answer result) self.new }
        ensures waits { (result ≡ arrival.Rested) ↔ (length self.old.waiters + 1 < self.old.size) }
        ensures same { IfThrough result (λ caller. caller.value ≡ unit.value) }
    {
        if self.waiting + 1 < self.size {
            self.waiting += 1;
            self.waiters.push_back(unit);
            return Arrival::Rested;
        }
        self.waiting = 0;
        Arrival::Through(unit, mem::replace(&mut self.waiters, Chain::new()))
    }

    /// All units that wait, in order.
    pub fn into_units(self) -> Chain
        ensures { result.units ≡ self.waiters }
    {
        let Barrier { waiters, .. } = self;
        waiters
    }

    /// The waiter of that number. The time is that of a walk over those that wait.
    pub fn waiter(&self, u: UnitNo) -> Option<&Unit>
        ensures { find (is_unit u.0) self.now.waiters ≡ unit_found result }
    {
        self.waiters.find(u)
    }
}
