//! The waiters of a condition.

ghost use Rattle.std.specs.Prelude.{◌≡◌, [], ◌∷◌, ◌++◌, IfNone, IfSome};
ghost use Rattle.std.specs.List.{find};
ghost use Rattle.abt_machine.specs.Pools.{is_unit};
ghost use Rattle.abt_unit.specs.Units.{IsFree};
ghost use Rattle.abt_chain.specs.Results.{unit_found};

use abt_chain::Chain;
use abt_machine::UnitNo;
use abt_unit::Unit;
use std::marker::Model;
use std::mem;

/// The units that wait at one condition, which contracts see as their list.
#[derive(Drop)]
pub struct Waiters {
    units: Chain,
}

impl Model for Waiters {
    ghost use Rattle.std.specs.Prelude.{List};
    ghost use Rattle.abt_machine.specs.Values.{Owned};

    ghost Value = { List Owned };

    ghost view = { λ waiters. waiters.units.units };
}

impl Waiters {
    pub fn new() -> Waiters
        ensures { result ≡ [] }
    {
        Waiters {
            units: Chain::new(),
        }
    }

    pub fn push_back(&mut self, unit: Box<Unit>)
        requires { IsFree unit.value }
        ensures { self.new ≡ self.old ++ unit.value.owned ∷ [] }
    {
        self.units.push_back(unit);
    }

    pub fn take_front(&mut self) -> Option<Box<Unit>>
        ensures none { IfNone result ((self.old ≡ []) × (self.new ≡ [])) }
        ensures first { IfSome result (λ unit. self.old ≡ unit.value.owned ∷ self.new) }
        ensures free { IfSome result (λ unit. IsFree unit.value) }
    {
        self.units.take_front()
    }

    pub fn take_all(&mut self) -> Chain
        ensures all { result.units ≡ self.old }
        ensures none_left { self.new ≡ [] }
    {
        mem::replace(&mut self.units, Chain::new())
    }

    pub fn drain_into(&mut self, other: &mut Chain)
        ensures drained { self.new ≡ [] }
        ensures appended { other.new.units ≡ other.old.units ++ self.old }
    {
        self.units.drain_into(other);
    }

    pub fn find(&self, number: UnitNo) -> Option<&Unit>
        ensures { find (is_unit number.0) self.now ≡ unit_found result }
    {
        self.units.find(number)
    }
}
