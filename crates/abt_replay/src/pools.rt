//! Pools of ready units.

ghost use Rattle.std.specs.Prelude.{◌≡◌, [], None, Some, IfNone, IfOk, IfSome};
ghost use Rattle.std.specs.List.{find};
ghost use Rattle.abt_calls.specs.Allowed.{PoolAllows};
ghost use Rattle.abt_replay.specs.Acts.{act_of, answer_of};
ghost use Rattle.abt_machine.specs.Pools.{PoolGives, is_unit, with_end, without};

use crate::acts::{Act, Answer};
use crate::keys::{Keyed, write_queue};
use crate::unit::{Unit, copied};
use abt_machine::{Code, Kind, Side, UnitNo, Want};
use std::alloc::AllocError;
use std::collections::VecDeque;
use std::marker::Model;

/// A pool of ready units, the oldest first.
#[derive(Drop)]
pub struct Pool {
    kind: Kind,
    units: VecDeque<Unit>,
}

impl Model for Pool {
    ghost use Rattle.abt_machine.specs.Values.{PoolValue};

    ghost Value = { PoolValue };

    ghost view = { λ p. record { kind = p.kind; units = p.units.items } };
}

impl Clone for Pool {
    ghost is_clone = { λ pool copy. copy ≡ pool };

    fn clone(&self) -> Result<Pool, AllocError> {
        Ok(Pool {
            kind: self.kind,
            units: copied(&self.units)?,
        })
    }
}

impl Keyed for Pool {
    ghost use Rattle.abt_replay.specs.Keys.{pool_key};

    ghost key = { pool_key };

    fn write(&self, out: &mut Vec<u8>) -> Result<(), Want> {
        self.kind.write(out)?;
        write_queue(&self.units, out)
    }
}

impl Pool {
    /// A pool of that kind with these units, the oldest first.
    pub fn new(kind: Kind, units: VecDeque<Unit>) -> Pool
        ensures { result ≡ record { kind = kind; units = units.items } }
    {
        Pool { kind, units }
    }

    /// The units, the oldest first.
    pub fn units(&self) -> &VecDeque<Unit>
        ensures { result.now.items ≡ self.now.units }
    {
        &self.units
    }

    /// Answers the act.
    pub(crate) fn answer(&mut self, act: Act) -> Result<Answer, Want>
        requires allowed { PoolAllows self.old.kind (act_of act) }
        ensures { IfOk result (λ answer. PoolGives self.old (act_of act) (answer_of answer) self.new) }
    {
        match act {
            Act::Put(unit) => {
                self.units.push_back(unit)?;
                Ok(Answer::Rested)
            }
            Act::Take(side) => Ok(match take(&mut self.units, side) {
                Some(unit) => Answer::Given(unit),
                None => Answer::Miss,
            }),
            Act::Remove(u) => Ok(match remove(&mut self.units, u)? {
                Some(unit) => Answer::Given(unit),
                None => Answer::Code(Code::Absent),
            }),
            _ => unreachable!(),
        }
    }
}

// Takes the unit at that end.
fn take(units: &mut VecDeque<Unit>, side: Side) -> Option<Unit>
    ensures none { IfNone result ((units.old.items ≡ []) × (units.new.items ≡ [])) }
    ensures some { IfSome result (λ unit. units.old.items ≡ with_end side unit units.new.items) }
{
    match side {
        Side::Front => units.pop_front(),
        Side::Back => units.pop_back(),
    }
}

// Takes the first unit of that number out; the others stay in order.
fn remove(units: &mut VecDeque<Unit>, u: UnitNo) -> Result<Option<Unit>, Want>
    ensures none { IfOk result (λ found. IfNone found ((find (is_unit u.0) units.old.items ≡ None) × (units.new.items ≡ units.old.items))) }
    ensures found { IfOk result (λ found. IfSome found (λ unit. find (is_unit u.0) units.old.items ≡ Some unit)) }
    ensures others { IfOk result (λ found. IfSome found (λ _. units.new.items ≡ without u.0 units.old.items)) }
{
    let mut passed = VecDeque::new(*units.allocator());
    while let Some(unit) = units.pop_front() {
        if unit.number() == u {
            passed.append(units)?;
            *units = passed;
            return Ok(Some(unit));
        }
        passed.push_back(unit)?;
    }
    *units = passed;
    Ok(None)
}
