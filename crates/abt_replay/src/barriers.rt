//! Barriers.

ghost use Rattle.std.specs.Prelude.{◌≡◌, [], IfOk};
ghost use Rattle.abt_calls.specs.Allowed.{BarrierAllows};
ghost use Rattle.abt_replay.specs.Acts.{act_of, answer_of};
ghost use Rattle.abt_machine.specs.Acts as asked;
ghost use Rattle.abt_machine.specs.Barriers.{BarrierGives};

use crate::acts::{Act, Answer};
use crate::keys::{Keyed, write_queue};
use crate::unit::{Unit, copied};
use abt_machine::Want;
use std::alloc::{AllocError, Global};
use std::collections::VecDeque;
use std::marker::Model;
use std::mem;

/// A barrier of some number of parties, and the units that wait at it in order of arrival.
#[derive(Drop)]
pub struct Barrier {
    size: u32,
    waiters: VecDeque<Unit>,
}

impl Model for Barrier {
    ghost use Rattle.abt_machine.specs.Values.{BarrierValue};

    ghost Value = { BarrierValue };

    ghost view = { λ b. record { size = b.size; waiters = b.waiters.items } };
}

impl Clone for Barrier {
    ghost is_clone = { λ barrier copy. copy ≡ barrier };

    fn clone(&self) -> Result<Barrier, AllocError> {
        Ok(Barrier {
            size: self.size,
            waiters: copied(&self.waiters)?,
        })
    }
}

impl Keyed for Barrier {
    ghost use Rattle.abt_replay.specs.Keys.{barrier_key};

    ghost key = { barrier_key };

    fn write(&self, out: &mut Vec<u8>) -> Result<(), Want> {
        self.size.write(out)?;
        write_queue(&self.waiters, out)
    }
}

impl Barrier {
    /// A barrier of that many parties, at which none waits.
    pub fn new(alloc: Global, size: u32) -> Barrier
        ensures { result ≡ record { size = size; waiters = [] } }
    {
        Barrier {
            size,
            waiters: VecDeque::new(alloc),
        }
    }

    /// The number of parties.
    pub fn size(&self) -> u32
        ensures { result ≡ self.now.size }
    {
        self.size
    }

    /// The units that wait, in order of arrival.
    pub fn waiters(&self) -> &VecDeque<Unit>
        ensures { result.now.items ≡ self.now.waiters }
    {
        &self.waiters
    }

    /// Answers the act.
    pub(crate) fn answer(&mut self, act: Act) -> Result<Answer, Want>
        requires allowed { BarrierAllows (act_of act) }
        ensures { IfOk result (λ answer. BarrierGives self.old (act_of act) (answer_of answer) self.new) }
    {
        match act {
            Act::Arrive(unit) => self.arrive(unit),
            _ => unreachable!(),
        }
    }

    fn arrive(&mut self, unit: Unit) -> Result<Answer, Want>
        ensures { IfOk result (λ answer. BarrierGives self.old (asked.Arrive unit) (answer_of answer) self.new) }
    {
        if self.waiters.len() + 1 == self.size as usize {
            let none = VecDeque::new(*self.waiters.allocator());
            return Ok(Answer::Through(unit, mem::replace(&mut self.waiters, none)));
        }
        self.waiters.push_back(unit)?;
        Ok(Answer::Rested)
    }
}
