//! Eventuals and futures.

ghost use Rattle.std.specs.Prelude.{◌≡◌, ◌≢◌, ◌<◌, ◌↔◌, [], map, IfOk, IsTrue, None};
ghost use Rattle.abt_calls.specs.Allowed.{EventualAllows};
ghost use Rattle.abt_replay.specs.Acts.{act_of, answer_of};
ghost use Rattle.abt_machine.specs.Acts as asked;
ghost use Rattle.abt_machine.specs.Acts.{received};
ghost use Rattle.abt_machine.specs.Eventuals.{EventualGives};
ghost use Rattle.abt_machine.specs.Futures.{FutureGives, with_one_more};

use crate::acts::{Act, Answer};
use crate::keys::{Keyed, write_queue};
use crate::unit::{Unit, copied};
use abt_machine::{Code, Combine, Want};
use std::alloc::{AllocError, Global};
use std::collections::VecDeque;
use std::marker::Model;

/// A value that is set once, and the units that wait for it.
#[derive(Drop)]
pub struct Eventual {
    value: Option<u64>,
    waiters: VecDeque<Unit>,
}

impl Model for Eventual {
    ghost use Rattle.abt_machine.specs.Values.{EventualValue};

    ghost Value = { EventualValue };

    ghost view = { λ e. record { value = e.value; waiters = e.waiters.items } };
}

/// A value that is made of several, and is ready once all of its compartments are filled. Units wait for it.
#[derive(Drop)]
pub struct Future {
    size: u32,
    combine: Combine,
    filled: u32,
    value: u64,
    waiters: VecDeque<Unit>,
}

impl Model for Future {
    ghost use Rattle.std.specs.Prelude.{◌≤◌};
    ghost use Rattle.abt_machine.specs.Values.{FutureValue};

    ghost Value = { FutureValue };

    ghost view = { λ f. record {
      size = f.size;
      combine = f.combine;
      filled = f.filled;
      value = f.value;
      waiters = f.waiters.items;
    } };

    ghost invariant = { λ f. f.filled ≤ f.size };
}

impl Clone for Eventual {
    ghost is_clone = { λ eventual copy. copy ≡ eventual };

    fn clone(&self) -> Result<Eventual, AllocError> {
        Ok(Eventual {
            value: self.value,
            waiters: copied(&self.waiters)?,
        })
    }
}

impl Keyed for Eventual {
    ghost use Rattle.abt_replay.specs.Keys.{eventual_key};

    ghost key = { eventual_key };

    fn write(&self, out: &mut Vec<u8>) -> Result<(), Want> {
        self.value.write(out)?;
        write_queue(&self.waiters, out)
    }
}

impl Eventual {
    /// An eventual without a value, for which nobody waits.
    pub fn new(alloc: Global) -> Eventual
        ensures { result ≡ record { value = None; waiters = [] } }
    {
        Eventual {
            value: None,
            waiters: VecDeque::new(alloc),
        }
    }

    /// The units that wait, in order of arrival.
    pub fn waiters(&self) -> &VecDeque<Unit>
        ensures { result.now.items ≡ self.now.waiters }
    {
        &self.waiters
    }

    /// Answers the act.
    pub(crate) fn answer(&mut self, act: Act) -> Result<Answer, Want>
        requires allowed { EventualAllows (act_of act) }
        ensures { IfOk result (λ answer. EventualGives self.old (act_of act) (answer_of answer) self.new) }
    {
        match act {
            Act::Await(unit) => self.wait(unit),
            Act::Fill(value) => self.set(value),
            Act::Reset => {
                self.value = None;
                Ok(Answer::Rested)
            }
            Act::Test => Ok(Answer::Number(u64::from(self.value.is_some()))),
            _ => unreachable!(),
        }
    }

    fn wait(&mut self, mut unit: Unit) -> Result<Answer, Want>
        ensures { IfOk result (λ answer. EventualGives self.old (asked.Await unit) (answer_of answer) self.new) }
    {
        match self.value {
            None => {
                self.waiters.push_back(unit)?;
                Ok(Answer::Rested)
            }
            Some(value) => {
                unit.receive(value);
                Ok(Answer::Given(unit))
            }
        }
    }

    fn set(&mut self, value: u64) -> Result<Answer, Want>
        ensures { IfOk result (λ answer. EventualGives self.old (asked.Fill value) (answer_of answer) self.new) }
    {
        match self.value {
            None => {
                self.value = Some(value);
                Ok(Answer::Woke(woken_with(value, &mut self.waiters)?))
            }
            Some(_) => Ok(Answer::Code(Code::EventualSet)),
        }
    }
}

impl Clone for Future {
    ghost is_clone = { λ future copy. copy ≡ future };

    fn clone(&self) -> Result<Future, AllocError> {
        Ok(Future {
            size: self.size,
            combine: self.combine,
            filled: self.filled,
            value: self.value,
            waiters: copied(&self.waiters)?,
        })
    }
}

impl Keyed for Future {
    ghost use Rattle.abt_replay.specs.Keys.{future_key};

    ghost key = { future_key };

    fn write(&self, out: &mut Vec<u8>) -> Result<(), Want> {
        self.size.write(out)?;
        self.combine.write(out)?;
        self.filled.write(out)?;
        self.value.write(out)?;
        write_queue(&self.waiters, out)
    }
}

impl Future {
    /// A future of that many compartments, none of which is filled, and of that rule, for which nobody waits.
    pub fn new(alloc: Global, size: u32, combine: Combine) -> Future
        ensures { result ≡ record { size = size; combine = combine; filled = 0; value = 0; waiters = [] } }
    {
        Future {
            size,
            combine,
            filled: 0,
            value: 0,
            waiters: VecDeque::new(alloc),
        }
    }

    /// How many compartments there are.
    pub fn size(&self) -> u32
        ensures { result ≡ self.now.size }
    {
        self.size
    }

    /// How many compartments are filled.
    pub fn filled(&self) -> u32
        ensures { result ≡ self.now.filled }
    {
        self.filled
    }

    /// The units that wait, in order of arrival.
    pub fn waiters(&self) -> &VecDeque<Unit>
        ensures { result.now.items ≡ self.now.waiters }
    {
        &self.waiters
    }

    /// Answers the act.
    pub(crate) fn answer(&mut self, act: Act) -> Result<Answer, Want>
        requires allowed { EventualAllows (act_of act) }
        ensures { IfOk result (λ answer. FutureGives self.old (act_of act) (answer_of answer) self.new) }
    {
        match act {
            Act::Await(unit) => self.wait(unit),
            Act::Fill(value) => self.set(value),
            Act::Reset => {
                self.filled = 0;
                self.value = 0;
                Ok(Answer::Rested)
            }
            Act::Test => Ok(Answer::Number(u64::from(self.is_ready()))),
            _ => unreachable!(),
        }
    }

    fn wait(&mut self, mut unit: Unit) -> Result<Answer, Want>
        ensures { IfOk result (λ answer. FutureGives self.old (asked.Await unit) (answer_of answer) self.new) }
    {
        if self.is_ready() {
            unit.receive(self.value);
            return Ok(Answer::Given(unit));
        }
        self.waiters.push_back(unit)?;
        Ok(Answer::Rested)
    }

    fn set(&mut self, value: u64) -> Result<Answer, Want>
        ensures { IfOk result (λ answer. FutureGives self.old (asked.Fill value) (answer_of answer) self.new) }
    {
        if self.is_ready() {
            return Ok(Answer::Code(Code::FutureFull));
        }
        self.fill(value);
        if self.is_ready() {
            return Ok(Answer::Woke(woken_with(self.value, &mut self.waiters)?));
        }
        Ok(Answer::Woke(VecDeque::new(*self.waiters.allocator())))
    }

    fn is_ready(&self) -> bool
        ensures { IsTrue result ↔ (self.now.filled ≡ self.now.size) }
    {
        self.filled == self.size
    }

    // Fills one more compartment, by the future's rule.
    fn fill(&mut self, value: u64)
        requires { self.old.filled ≢ self.old.size }
        ensures { self.new ≡ with_one_more value self.old }
    {
        self.value = self.combine.combined(self.value, self.filled, value);
        self.filled += 1;
    }
}

// All units come out in order, each with the value in its accumulator.
fn woken_with(value: u64, waiters: &mut VecDeque<Unit>) -> Result<VecDeque<Unit>, Want>
    ensures all { IfOk result (λ woken. woken.items ≡ map (received value) waiters.old.items) }
    ensures none_left { IfOk result (λ _. waiters.new.items ≡ []) }
{
    let mut woken = VecDeque::with_capacity(*waiters.allocator(), waiters.len())?;
    while let Some(mut unit) = waiters.pop_front() {
        unit.receive(value);
        woken.push_back(unit)?;
    }
    Ok(woken)
}
