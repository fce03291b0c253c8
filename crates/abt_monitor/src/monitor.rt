//! A mutex with the number that it guards, and its conditions.

ghost use Rattle.std.specs.Prelude.{◌≡◌, ◌<◌, ◌↔◌, Box, [], length, nat_lt, replicate, IfErr, IfOk, IfSome, IsTrue, None, Some, option_map};
ghost use Rattle.std.specs.List.{find};
ghost use Rattle.std.specs.Option.{ForSome};
ghost use Rattle.std.specs.declared.alloc.Global.{Global};
ghost use Rattle.abt_machine.specs.Acts.{Broadcast, Coded, Load, Lock, Number, Rested, Signal, Store, TryLock, Unlock, Wait};
ghost use Rattle.abt_machine.specs.Monitors.{MonitorGives, handed_over};
ghost use Rattle.abt_machine.specs.Pools.{is_unit};
ghost use Rattle.abt_machine.specs.Queues.{first};
ghost use Rattle.abt_unit.specs.Units.{IsFree, UnitValue};
ghost use Rattle.abt_chain.specs.Results.{back_or, coded_or, given_or, unit_found};
ghost use Rattle.abt_monitor.specs.Waiting.{waiters_of, with_waiters};

use crate::waiters::Waiters;
use abt_chain::{Chain, Refused};
use abt_machine::{Code, UnitNo, Want};
use abt_unit::Unit;
use std::alloc::Global;
use std::marker::Model;
use std::mem;

/// A mutex with its owner, the number that it guards, the units that wait for it, and those that wait at its conditions,
/// which are numbered from 0.
#[derive(Drop)]
pub struct Monitor {
    owner: Option<UnitNo>,
    number: u64,
    waiters: Chain,
    conds: Vec<Waiters>,
}

impl Model for Monitor {
    ghost use Rattle.std.specs.Prelude.{option_map};
    ghost use Rattle.abt_machine.specs.declared.numbers.UnitNo.{UnitNo};
    ghost use Rattle.abt_machine.specs.Values.{MonitorValue};

    ghost Value = { MonitorValue };

    ghost view = { λ m. record {
      owner = option_map (λ (owner : UnitNo). owner.0) m.owner;
      number = m.number;
      waiters = m.waiters.units;
      conds = m.conds.items;
    } };
}

impl Monitor {
    /// A free mutex that guards 0, with that many conditions. It alone of a monitor's calls takes memory.
    pub fn new(alloc: Global, conds: u32) -> Result<Monitor, Want>
        ensures { IfOk result (λ monitor. monitor ≡ record { owner = None; number = 0; waiters = []; conds = replicate conds [] }) }
    {
        let mut chains = Vec::with_capacity(alloc, conds as usize)?;
        for _ in 0..conds {
            chains.push(Waiters::new())?;
        }
        Ok(Monitor {
            owner: None,
            number: 0,
            waiters: Chain::new(),
            conds: chains,
        })
    }

    /// The unit goes on as the owner if the mutex is free. Else it waits, also if it is itself the owner.
    #[inline(always)]
    pub fn lock(&mut self, unit: Box<Unit>) -> Option<Box<Unit>>
        requires { IsFree unit.value }
        ensures gives { MonitorGives self.old (Lock unit.value.owned) (given_or Rested result) self.new }
        ensures same { IfSome result (λ given. given.value ≡ unit.value) }
    {
        match self.owner {
            None => {
                self.owner = Some(unit.number());
                Some(unit)
            }
            Some(_) => {
                self.waiters.push_back(unit);
                None
            }
        }
    }

    /// Makes the unit of that number the owner, if the mutex is free. `MutexLocked` if it is held.
    pub fn trylock(&mut self, who: UnitNo) -> Code
        ensures { MonitorGives self.old (TryLock who.0) (Coded result) self.new }
    {
        match self.owner {
            None => {
                self.owner = Some(who);
                Code::Ok
            }
            Some(_) => Code::MutexLocked,
        }
    }

    /// The mutex goes to the first unit that waits for it, which comes out, and is free if there is none. `NotOwner`
    /// if it isn't `who`'s.
    #[inline(always)]
    pub fn unlock(&mut self, who: UnitNo) -> Result<Option<Box<Unit>>, Code>
        ensures gives { MonitorGives self.old (Unlock who.0) (coded_or (given_or Rested) result) self.new }
        ensures free { IfOk result (λ next. IfSome next (λ unit. IsFree unit.value)) }
    {
        if !self.is_owner(who) {
            return Err(Code::NotOwner);
        }
        Ok(self.hand_over())
    }

    /// The number that the mutex guards, for its owner. `NotOwner` for any other unit.
    pub fn load(&self, who: UnitNo) -> Result<u64, Code>
        ensures { MonitorGives self.now (Load who.0) (coded_or Number result) self.now }
    {
        if !self.is_owner(who) {
            return Err(Code::NotOwner);
        }
        Ok(self.number)
    }

    /// Sets the number that the mutex guards, for its owner. `NotOwner` for any other unit.
    pub fn store(&mut self, who: UnitNo, value: u64) -> Code
        ensures { MonitorGives self.old (Store who.0 value) (Coded result) self.new }
    {
        if !self.is_owner(who) {
            return Code::NotOwner;
        }
        self.number = value;
        Code::Ok
    }

    /// In one step the unit, which is the owner, waits at the condition and the mutex is handed over as by `unlock`: the
    /// unit that owns it now comes out, if there is one. The unit comes back with `NotOwner` if it isn't the owner.
    pub fn wait(&mut self, cond: u32, unit: Box<Unit>) -> Result<Option<Box<Unit>>, Refused>
        requires free { IsFree unit.value }
        requires cond { cond < length self.old.conds }
        ensures gives { MonitorGives self.old (Wait cond unit.value.owned) (back_or (given_or Rested) result) self.new }
        ensures free { IfOk result (λ next. IfSome next (λ given. IsFree given.value)) }
        ensures back { IfErr result (λ refused. refused.unit.value ≡ unit.value) }
    {
        if !self.is_owner(unit.number()) {
            return Err(Refused {
                unit,
                code: Code::NotOwner,
            });
        }
        self.conds[cond as usize].push_back(unit);
        Ok(self.hand_over())
    }

    /// Takes the first unit that waits at the condition. If the mutex is free the unit becomes the owner and comes out; if it
    /// is held the unit waits for it behind all others. None also if nobody waits at the condition.
    pub fn signal(&mut self, cond: u32) -> Option<Box<Unit>>
        requires { cond < length self.old.conds }
        ensures gives { MonitorGives self.old (Signal cond) (given_or Rested result) self.new }
        ensures free { IfSome result (λ unit. IsFree unit.value) }
    {
        let unit = self.conds[cond as usize].take_front()?;
        self.lock(unit)
    }

    /// As `signal` for each unit that waits at the condition, in order. Some has the unit that became the owner.
    pub fn broadcast(&mut self, cond: u32) -> Option<Box<Unit>>
        requires { cond < length self.old.conds }
        ensures gives { MonitorGives self.old (Broadcast cond) (given_or Rested result) self.new }
        ensures free { IfSome result (λ unit. IsFree unit.value) }
    {
        let woken = self.signal(cond);
        self.conds[cond as usize].drain_into(&mut self.waiters);
        woken
    }

    /// The first unit of that number among those that wait for the mutex, or at the condition that is given. The time is that
    /// of a walk over them.
    pub fn waiter(&self, cond: Option<u32>, u: UnitNo) -> Option<&Unit>
        requires { ForSome cond (λ cond. cond < length self.now.conds) }
        ensures { find (is_unit u.0) (waiters_of cond self.now) ≡ unit_found result }
    {
        match cond {
            None => self.waiters.find(u),
            Some(cond) => self.conds[cond as usize].find(u),
        }
    }

    /// Whether it has a condition of that number.
    pub fn has_condition(&self, cond: u32) -> bool
        ensures { result ≡ nat_lt cond (length self.now.conds) }
    {
        (cond as usize) < self.conds.len()
    }

    /// Takes out, in order, all units that wait for the mutex, or at the condition that is given: none if there is no
    /// condition of that number.
    pub fn take_waiters(&mut self, cond: Option<u32>) -> Chain
        ensures units { result.units ≡ waiters_of cond self.old }
        ensures left { self.new ≡ with_waiters cond [] self.old }
    {
        let Some(cond) = cond else {
            return mem::replace(&mut self.waiters, Chain::new());
        };
        if (cond as usize) < self.conds.len() {
            self.conds[cond as usize].take_all()
        } else {
            Chain::new()
        }
    }

    #[inline(always)]
    fn is_owner(&self, who: UnitNo) -> bool
        ensures { IsTrue result ↔ (self.now.owner ≡ Some who.0) }
    {
        self.owner == Some(who)
    }

    // The mutex goes to the first unit that waits for it, which comes out, and is free if there is none.
    #[inline(always)]
    fn hand_over(&mut self) -> Option<Box<Unit>>
        ensures new { self.new ≡ handed_over self.old }
        ensures first { option_map (λ (unit : Box UnitValue Global). unit.value.owned) result ≡ first self.old.waiters }
        ensures free { IfSome result (λ unit. IsFree unit.value) }
    {
        let next = self.waiters.take_front();
        self.owner = next.as_ref().map(|unit| unit.number());
        next
    }
}
