//! A pool, and its calls.

ghost use Rattle.std.specs.Prelude.{◌≡◌, ◌==◌, [], IfSome, length};
ghost use Rattle.std.specs.List.{find};
ghost use Rattle.abt_machine.specs.declared.events.Code.TheVariants.{Absent};
ghost use Rattle.abt_machine.specs.Acts.{Coded, Miss, Put, Remove, Rested, Take};
ghost use Rattle.abt_machine.specs.Pools.{HasSide, PoolGives, is_unit};
ghost use Rattle.abt_unit.specs.Units.{IsFree};
ghost use Rattle.abt_chain.specs.Results.{given_or, unit_found};

use abt_chain::Chain;
use abt_machine::{Kind, Side, UnitNo};
use abt_unit::Unit;
use std::marker::Model;

/// A pool of ready units, which it owns.
#[derive(Drop)]
pub struct Pool {
    kind: Kind,
    units: Chain,
}

impl Model for Pool {
    ghost use Rattle.abt_machine.specs.Values.{PoolValue};

    ghost Value = { PoolValue };

    ghost view = { λ p. record { kind = p.kind; units = p.units.units } };
}

impl Pool {
    pub fn new(kind: Kind) -> Pool
        ensures { result ≡ record { kind = kind; units = [] } }
    {
        Pool {
            kind,
            units: Chain::new(),
        }
    }

    pub fn is_empty(&self) -> bool
        ensures { result ≡ (length self.now.units == 0) }
    {
        self.units.is_empty()
    }

    /// Puts the unit behind all others.
    #[inline(always)]
    pub fn put(&mut self, unit: Box<Unit>)
        requires free { IsFree unit.value }
        ensures { PoolGives self.old (Put unit.value.owned) Rested self.new }
    {
        self.units.push_back(unit);
    }

    /// Takes the unit at that end. A FIFO pool is asked for its front alone.
    #[inline(always)]
    pub fn take(&mut self, side: Side) -> Option<Box<Unit>>
        requires side { HasSide self.old.kind side }
        ensures gives { PoolGives self.old (Take side) (given_or Miss result) self.new }
        ensures kind { self.new.kind ≡ self.old.kind }
        ensures free { IfSome result (λ unit. IsFree unit.value) }
    {
        match side {
            Side::Front => self.units.take_front(),
            Side::Back => self.units.take_back(),
        }
    }

    /// Takes the first unit of that number out, wherever it stands; the others stay in order. The time is that of a walk over
    /// the pool.
    pub fn remove(&mut self, u: UnitNo) -> Option<Box<Unit>>
        ensures gives { PoolGives self.old (Remove u.0) (given_or (Coded Absent) result) self.new }
        ensures kind { self.new.kind ≡ self.old.kind }
        ensures free { IfSome result (λ unit. IsFree unit.value) }
    {
        self.units.remove(u)
    }

    /// All units, in order.
    pub fn into_units(self) -> Chain
        ensures { result.units ≡ self.units }
    {
        let Pool { kind: _, units } = self;
        units
    }

    /// The first unit of that number. The time is that of a walk over the pool.
    pub fn find(&self, u: UnitNo) -> Option<&Unit>
        ensures { find (is_unit u.0) self.now.units ≡ unit_found result }
    {
        self.units.find(u)
    }
}
