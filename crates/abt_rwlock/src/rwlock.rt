//! A reader-writer lock, and its calls.

ghost use Rattle.std.specs.Prelude.{◌≡◌, [], IfErr, IfOk, IfSome, None, replicate};
ghost use Rattle.std.specs.List.{find};
ghost use Rattle.abt_machine.specs.Acts.{Coded, Load, Number, ReadLock, Rested, RwUnlock, Store, WriteLock};
ghost use Rattle.abt_machine.specs.Holders.{holds};
ghost use Rattle.abt_machine.specs.Pools.{is_unit};
ghost use Rattle.abt_machine.specs.RwLocks.{RwLockGives, may_read};
ghost use Rattle.abt_machine.specs.declared.events.Wish.TheVariants as wish;
ghost use Rattle.abt_unit.specs.Units.{IsFree};
ghost use Rattle.abt_chain.specs.Results.{back_or, coded_or, given_or, unit_found, units_woken};

use crate::holders::Holders;
use crate::serving::pass_on;
use crate::waiters::Waiters;
use abt_chain::{Chain, Refused};
use abt_machine::{Code, UnitNo, Want, Wish};
use abt_unit::Unit;
use std::alloc::Global;
use std::marker::Model;

/// A lock that is free, held by one unit that writes, or held by units that read, each with a count of how often it does; the
/// units that wait for it in order of arrival; and the number that it guards.
///
/// When nobody holds the lock, the first waiter gets it: to write, or to read together with all waiters up to the first that
/// wants to write. A unit that reads already may read again at once.
#[derive(Drop)]
pub struct RwLock {
    holders: Holders,
    waiters: Waiters,
    number: u64,
}

impl Model for RwLock {
    ghost use Rattle.abt_machine.specs.Values.{RwLockValue};
    ghost use Rattle.abt_rwlock.specs.Parts.{lock_of};

    ghost Value = { RwLockValue };

    ghost view = { λ l. lock_of l.holders l.waiters l.number };
}

impl RwLock {
    /// A free lock that guards 0, for units whose numbers are below `units`: there is room for a count and a wish of each. It
    /// alone of a lock's calls takes memory. Of a unit with a greater number no read is counted, and if it waits it is served
    /// as one that wants to write, so callers pass none.
    pub fn new(alloc: Global, units: u32) -> Result<RwLock, Want>
        ensures { IfOk result (λ made. made ≡ record {
          lock = record { writer = None; counts = replicate units 0; wishes = replicate units wish.Read; number = 0 };
          waiters = [];
        }) }
    {
        Ok(RwLock {
            holders: Holders::new(alloc, units)?,
            waiters: Waiters::new(alloc, units)?,
            number: 0,
        })
    }

    /// The unit reads once more if it reads already, or if no unit writes and none waits. Else it waits, and wants to read.
    /// It comes back with `RwHeld` if it writes, and with `RwFull` if it reads 65,535 times.
    pub fn rdlock(&mut self, unit: Box<Unit>) -> Result<Option<Box<Unit>>, Refused>
        requires { IsFree unit.value }
        ensures gives { RwLockGives self.old (ReadLock unit.value.owned) (back_or (given_or Rested) result) self.new }
        ensures same { IfOk result (λ next. IfSome next (λ given. given.value ≡ unit.value)) }
        ensures back { IfErr result (λ refused. refused.unit.value ≡ unit.value) }
    {
        let who = unit.number();
        if self.holders.is_writer(who) {
            return Err(Refused {
                unit,
                code: Code::RwHeld,
            });
        }
        let count = self.holders.count(who);
        if count == u16::MAX {
            return Err(Refused {
                unit,
                code: Code::RwFull,
            });
        }
        if self.may_read(who) {
            self.holders.set_count(who, count + 1);
            return Ok(Some(unit));
        }
        self.waiters.push(unit, Wish::Read);
        Ok(None)
    }

    /// The unit writes if the lock is free. Else it waits, and wants to write. It comes back with `RwHeld` if it reads or writes.
    pub fn wrlock(&mut self, unit: Box<Unit>) -> Result<Option<Box<Unit>>, Refused>
        requires { IsFree unit.value }
        ensures gives { RwLockGives self.old (WriteLock unit.value.owned) (back_or (given_or Rested) result) self.new }
        ensures same { IfOk result (λ next. IfSome next (λ given. given.value ≡ unit.value)) }
        ensures back { IfErr result (λ refused. refused.unit.value ≡ unit.value) }
    {
        let who = unit.number();
        if self.holds(who) {
            return Err(Refused {
                unit,
                code: Code::RwHeld,
            });
        }
        if self.holders.are_none() {
            self.holders.set_writer(Some(who));
            return Ok(Some(unit));
        }
        self.waiters.push(unit, Wish::Write);
        Ok(None)
    }

    /// A unit that writes gives up the lock, and one that reads reads once less. If the lock is then free, the first waiter, if
    /// it wants to write, holds it and comes out; if it wants to read, it and all waiters up to the first that wants to write
    /// hold it and come out in order. `NotHolder` if the unit neither reads nor writes.
    pub fn unlock(&mut self, who: UnitNo) -> Result<Chain, Code>
        ensures { RwLockGives self.old (RwUnlock who.0) (coded_or units_woken result) self.new }
    {
        if !self.holds(who) {
            return Err(Code::NotHolder);
        }
        self.holders.give_up(who);
        Ok(pass_on(&mut self.holders, &mut self.waiters))
    }

    /// The number that the lock guards, for a unit that reads or writes. `NotHolder` for any other.
    pub fn load(&self, who: UnitNo) -> Result<u64, Code>
        ensures { RwLockGives self.now (Load who.0) (coded_or Number result) self.now }
    {
        if !self.holds(who) {
            return Err(Code::NotHolder);
        }
        Ok(self.number)
    }

    /// Sets the number that the lock guards, for the unit that writes. `NotHolder` for any other.
    pub fn store(&mut self, who: UnitNo, value: u64) -> Code
        ensures { RwLockGives self.old (Store who.0 value) (Coded result) self.new }
    {
        if !self.holders.is_writer(who) {
            return Code::NotHolder;
        }
        self.number = value;
        Code::Ok
    }

    /// All units that wait, in order. The time is that of a walk over them.
    pub fn into_units(self) -> Chain
        ensures { result.units ≡ self.waiters }
    {
        let RwLock {
            holders: _,
            waiters,
            number: _,
        } = self;
        waiters.into_units()
    }

    /// The first waiter of that number. The time is that of a walk over them.
    pub fn waiter(&self, u: UnitNo) -> Option<&Unit>
        ensures { find (is_unit u.0) self.now.waiters ≡ unit_found result }
    {
        self.waiters.find(u)
    }

    fn may_read(&self, who: UnitNo) -> bool
        ensures { result ≡ may_read who.0 self.now }
    {
        self.holders.count(who) > 0 || (!self.holders.has_writer() && self.waiters.is_empty())
    }

    fn holds(&self, who: UnitNo) -> bool
        ensures { result ≡ holds who.0 self.now.lock }
    {
        self.holders.is_writer(who) || self.holders.count(who) > 0
    }
}
