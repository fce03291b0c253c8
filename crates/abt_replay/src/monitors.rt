//! Monitors: a mutex with the number that it guards, and its conditions.

ghost use Rattle.std.specs.Prelude.{◌≡◌, ◌<◌, ◌↔◌, [], ◌∷◌, length, replicate, IfOk, IsTrue, None, Some, option_map};
ghost use Rattle.abt_calls.specs.Allowed.{MonitorAllows};
ghost use Rattle.abt_replay.specs.Acts.{act_of, answer_of};
ghost use Rattle.abt_machine.specs.Acts as asked;
ghost use Rattle.abt_machine.specs.Monitors.{MonitorGives, handed_over};
ghost use Rattle.abt_machine.specs.Queues.{first};
ghost use Rattle.abt_machine.specs.declared.numbers.UnitNo.{UnitNo};

use crate::acts::{Act, Answer};
use crate::keys::{Keyed, write_list, write_queue};
use crate::unit::{Unit, copied};
use abt_machine::{Code, UnitNo, Want};
use std::alloc::{AllocError, Global};
use std::collections::VecDeque;
use std::marker::Model;

/// The units that wait at one condition, in order of arrival.
#[derive(Drop)]
pub struct Waiters {
    units: VecDeque<Unit>,
}

impl Model for Waiters {
    ghost use Rattle.std.specs.Prelude.{List};
    ghost use Rattle.abt_machine.specs.Values.{Owned};

    ghost Value = { List Owned };

    ghost view = { λ waiters. waiters.units.items };
}

impl Clone for Waiters {
    ghost is_clone = { λ waiters copy. copy ≡ waiters };

    fn clone(&self) -> Result<Waiters, AllocError> {
        Ok(Waiters {
            units: copied(&self.units)?,
        })
    }
}

impl Keyed for Waiters {
    ghost use Rattle.abt_replay.specs.Keys.{list_key, unit_key};

    ghost key = { list_key unit_key };

    fn write(&self, out: &mut Vec<u8>) -> Result<(), Want> {
        write_queue(&self.units, out)
    }
}

/// A mutex with its owner, the number that it guards, the units that wait for it, and those that wait at its conditions,
/// which are numbered from 0.
#[derive(Drop)]
pub struct Monitor {
    owner: Option<UnitNo>,
    number: u64,
    waiters: VecDeque<Unit>,
    conds: Vec<Waiters>,
}

impl Model for Monitor {
    ghost use Rattle.std.specs.Prelude.{option_map};
    ghost use Rattle.abt_machine.specs.declared.numbers.UnitNo.{UnitNo};
    ghost use Rattle.abt_machine.specs.Values.{MonitorValue};

    ghost Value = { MonitorValue };

    ghost view = { λ m. record {
      owner = option_map (λ (owner : UnitNo). owner.0) m.owner;
      number = m.number;
      waiters = m.waiters.items;
      conds = m.conds.items;
    } };
}

impl Clone for Monitor {
    ghost is_clone = { λ monitor copy. copy ≡ monitor };

    fn clone(&self) -> Result<Monitor, AllocError> {
        Ok(Monitor {
            owner: self.owner,
            number: self.number,
            waiters: copied(&self.waiters)?,
            conds: Vec::from_clones(*self.conds.allocator(), self.conds.as_slice())?,
        })
    }
}

impl Keyed for Monitor {
    ghost use Rattle.abt_replay.specs.Keys.{monitor_key};

    ghost key = { monitor_key };

    #[tactic(auto, using(crate::proofs::Written::written))]
    fn write(&self, out: &mut Vec<u8>) -> Result<(), Want> {
        self.owner.write(out)?;
        self.number.write(out)?;
        write_queue(&self.waiters, out)?;
        write_list(self.conds.as_slice(), out)
    }
}

impl Monitor {
    /// A free mutex that guards 0, with that many conditions, at which nobody waits. Out of memory is the only error.
    pub fn new(alloc: Global, conds: u32) -> Result<Monitor, Want>
        ensures { IfOk result (λ monitor. monitor ≡ record { owner = None; number = 0; waiters = []; conds = replicate conds [] }) }
    {
        let mut lists = Vec::with_capacity(alloc, conds as usize)?;
        for _ in 0..conds {
            lists.push(Waiters {
                units: VecDeque::new(alloc),
            })?;
        }
        Ok(Monitor {
            owner: None,
            number: 0,
            waiters: VecDeque::new(alloc),
            conds: lists,
        })
    }

    /// The unit that owns the mutex, if one does.
    pub fn owner(&self) -> Option<UnitNo>
        ensures { option_map (λ (owner : UnitNo). owner.0) result ≡ self.now.owner }
    {
        self.owner
    }

    /// The units that wait for the mutex, in order of arrival.
    pub fn waiters(&self) -> &VecDeque<Unit>
        ensures { result.now.items ≡ self.now.waiters }
    {
        &self.waiters
    }

    /// The units that wait at each condition.
    pub fn conds(&self) -> &[Waiters]
        ensures { result.now ≡ self.now.conds }
    {
        self.conds.as_slice()
    }

    /// Answers the act.
    pub(crate) fn answer(&mut self, act: Act) -> Result<Answer, Want>
        requires allowed { MonitorAllows (length self.old.conds) (act_of act) }
        ensures { IfOk result (λ answer. MonitorGives self.old (act_of act) (answer_of answer) self.new) }
    {
        match act {
            Act::Lock(unit) => self.lock(unit),
            Act::TryLock(who) => Ok(self.trylock(who)),
            Act::Unlock(who) => Ok(self.unlock(who)),
            Act::Load(who) => Ok(self.load(who)),
            Act::Store(who, number) => Ok(self.store(who, number)),
            Act::Wait(cond, unit) => self.wait(cond, unit),
            Act::Signal(cond) => self.signal(cond),
            Act::Broadcast(cond) => self.broadcast(cond),
            _ => unreachable!(),
        }
    }

    fn lock(&mut self, unit: Unit) -> Result<Answer, Want>
        ensures { IfOk result (λ answer. MonitorGives self.old (asked.Lock unit) (answer_of answer) self.new) }
    {
        match self.owner {
            None => {
                self.owner = Some(unit.number());
                Ok(Answer::Given(unit))
            }
            Some(_) => {
                self.waiters.push_back(unit)?;
                Ok(Answer::Rested)
            }
        }
    }

    fn trylock(&mut self, who: UnitNo) -> Answer
        ensures { MonitorGives self.old (asked.TryLock who.0) (answer_of result) self.new }
    {
        match self.owner {
            None => {
                self.owner = Some(who);
                Answer::Code(Code::Ok)
            }
            Some(_) => Answer::Code(Code::MutexLocked),
        }
    }

    fn unlock(&mut self, who: UnitNo) -> Answer
        ensures { MonitorGives self.old (asked.Unlock who.0) (answer_of result) self.new }
    {
        if !self.is_owner(who) {
            return Answer::Code(Code::NotOwner);
        }
        match self.hand_over() {
            Some(unit) => Answer::Given(unit),
            None => Answer::Rested,
        }
    }

    fn load(&self, who: UnitNo) -> Answer
        ensures { MonitorGives self.now (asked.Load who.0) (answer_of result) self.now }
    {
        if !self.is_owner(who) {
            return Answer::Code(Code::NotOwner);
        }
        Answer::Number(self.number)
    }

    fn store(&mut self, who: UnitNo, number: u64) -> Answer
        ensures { MonitorGives self.old (asked.Store who.0 number) (answer_of result) self.new }
    {
        if !self.is_owner(who) {
            return Answer::Code(Code::NotOwner);
        }
        self.number = number;
        Answer::Code(Code::Ok)
    }

    fn wait(&mut self, cond: u32, unit: Unit) -> Result<Answer, Want>
        requires cond { cond < length self.old.conds }
        ensures { IfOk result (λ answer. MonitorGives self.old (asked.Wait cond unit) (answer_of answer) self.new) }
    {
        if !self.is_owner(unit.number()) {
            return Ok(Answer::Back(unit, Code::NotOwner));
        }
        self.conds[cond as usize].push(unit)?;
        match self.hand_over() {
            Some(unit) => Ok(Answer::Given(unit)),
            None => Ok(Answer::Rested),
        }
    }

    fn signal(&mut self, cond: u32) -> Result<Answer, Want>
        requires { cond < length self.old.conds }
        ensures { IfOk result (λ answer. MonitorGives self.old (asked.Signal cond) (answer_of answer) self.new) }
    {
        match self.conds[cond as usize].pop() {
            Some(unit) => self.lock(unit),
            None => Ok(Answer::Rested),
        }
    }

    fn broadcast(&mut self, cond: u32) -> Result<Answer, Want>
        requires { cond < length self.old.conds }
        ensures { IfOk result (λ answer. MonitorGives self.old (asked.Broadcast cond) (answer_of answer) self.new) }
    {
        let answer = self.signal(cond)?;
        self.conds[cond as usize].drain_into(&mut self.waiters)?;
        Ok(answer)
    }

    fn is_owner(&self, who: UnitNo) -> bool
        ensures { IsTrue result ↔ (self.now.owner ≡ Some who.0) }
    {
        self.owner == Some(who)
    }

    // The mutex goes to the first unit that waits for it, which comes out, and is free if there is none.
    fn hand_over(&mut self) -> Option<Unit>
        ensures new { self.new ≡ handed_over self.old }
        ensures first { result ≡ first self.old.waiters }
    {
        let next = self.waiters.pop_front();
        self.owner = match &next {
            None => None,
            Some(unit) => Some(unit.number()),
        };
        next
    }
}

impl Waiters {
    ghost use Rattle.std.specs.Prelude.{◌++◌, IfNone, IfSome};

    /// The units.
    pub fn units(&self) -> &VecDeque<Unit>
        ensures { result.now.items ≡ self.now }
    {
        &self.units
    }

    fn push(&mut self, unit: Unit) -> Result<(), Want>
        ensures { IfOk result (λ _. self.new ≡ self.old ++ unit ∷ []) }
    {
        self.units.push_back(unit)?;
        Ok(())
    }

    fn pop(&mut self) -> Option<Unit>
        ensures none { IfNone result ((self.old ≡ []) × (self.new ≡ [])) }
        ensures some { IfSome result (λ unit. self.old ≡ unit ∷ self.new) }
    {
        self.units.pop_front()
    }

    fn drain_into(&mut self, other: &mut VecDeque<Unit>) -> Result<(), Want>
        ensures drained { IfOk result (λ _. self.new ≡ []) }
        ensures other { IfOk result (λ _. other.new.items ≡ other.old.items ++ self.old) }
    {
        other.append(&mut self.units)?;
        Ok(())
    }
}
