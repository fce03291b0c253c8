//! All objects of a workload, by their sites.

ghost use Rattle.std.specs.Prelude.{◌≡◌, ◌<◌, IfOk};
ghost use Rattle.abt_calls.specs.Allowed.{Allows};
ghost use Rattle.abt_calls.specs.Suits.{Suits};
ghost use Rattle.abt_replay.specs.Acts.{act_of, answer_of};
ghost use Rattle.abt_machine.specs.Gives.{SiteGives};

use crate::acts::{Act, Answer};
use crate::barriers::Barrier;
use crate::desks::Desk;
use crate::eventuals::{Eventual, Future};
use crate::keys::{Keyed, write_list};
use crate::monitors::Monitor;
use crate::pools::Pool;
use crate::rwlocks::RwLock;
use abt_machine::{Site, Want};
use std::alloc::AllocError;
use std::marker::Model;

/// An object that the workload declares. A condition has none of its own: its waiters are with its mutex.
#[derive(Drop)]
pub enum Kept {
    Monitor(Monitor),
    Eventual(Eventual),
    Future(Future),
    Barrier(Barrier),
    RwLock(RwLock),
    WithItsMutex,
}

impl Clone for Kept {
    ghost is_clone = { λ kept copy. copy ≡ kept };

    fn clone(&self) -> Result<Kept, AllocError> {
        Ok(match self {
            Kept::Monitor(monitor) => Kept::Monitor(monitor.clone()?),
            Kept::Eventual(eventual) => Kept::Eventual(eventual.clone()?),
            Kept::Future(future) => Kept::Future(future.clone()?),
            Kept::Barrier(barrier) => Kept::Barrier(barrier.clone()?),
            Kept::RwLock(lock) => Kept::RwLock(lock.clone()?),
            Kept::WithItsMutex => Kept::WithItsMutex,
        })
    }
}

impl Keyed for Kept {
    ghost use Rattle.abt_replay.specs.Keys.{object_key};
    ghost use Rattle.abt_replay.specs.Slots.{object_in};

    ghost key = { λ kept. object_key (object_in kept) };

    fn write(&self, out: &mut Vec<u8>) -> Result<(), Want> {
        match self {
            Kept::Monitor(monitor) => {
                out.push(2)?;
                monitor.write(out)
            }
            Kept::Eventual(eventual) => {
                out.push(3)?;
                eventual.write(out)
            }
            Kept::Future(future) => {
                out.push(4)?;
                future.write(out)
            }
            Kept::Barrier(barrier) => {
                out.push(5)?;
                barrier.write(out)
            }
            Kept::RwLock(lock) => {
                out.push(6)?;
                Keyed::write(lock, out)
            }
            Kept::WithItsMutex => {
                out.push(7)?;
                Ok(())
            }
        }
    }
}

/// A place for an object that the workload declares.
#[derive(Drop)]
pub struct Slot {
    pub kept: Kept,
}

impl Model for Slot {
    ghost use Rattle.abt_replay.specs.Slots.{object_in};
    ghost use Rattle.abt_machine.specs.Values.{Object};

    ghost Value = { Object };

    ghost view = { λ s. object_in s.kept };
}

impl Clone for Slot {
    ghost is_clone = { λ slot copy. copy ≡ slot };

    fn clone(&self) -> Result<Slot, AllocError> {
        Ok(Slot {
            kept: self.kept.clone()?,
        })
    }
}

impl Keyed for Slot {
    ghost use Rattle.abt_replay.specs.Keys.{object_key};

    ghost key = { object_key };

    fn write(&self, out: &mut Vec<u8>) -> Result<(), Want> {
        self.kept.write(out)
    }
}

impl Slot {
    fn answer(&mut self, act: Act) -> Result<Answer, Want>
        requires { Allows self.old (act_of act) }
        ensures { IfOk result (λ answer. SiteGives self.old (act_of act) (answer_of answer) self.new) }
    {
        match &mut self.kept {
            Kept::Monitor(monitor) => monitor.answer(act),
            Kept::Eventual(eventual) => eventual.answer(act),
            Kept::Future(future) => future.answer(act),
            Kept::Barrier(barrier) => barrier.answer(act),
            Kept::RwLock(lock) => lock.answer(act),
            Kept::WithItsMutex => unreachable!(),
        }
    }
}

/// The pools, the desks of all units, and the objects that the workload declares, each in order of number.
#[derive(Drop)]
pub struct Objects {
    pools: Vec<Pool>,
    desks: Vec<Desk>,
    slots: Vec<Slot>,
}

impl Model for Objects {
    ghost use Rattle.abt_replay.specs.Objects.{ObjectsValue};

    ghost Value = { ObjectsValue };

    ghost view = { λ o. record { pools = o.pools.items; desks = o.desks.items; slots = o.slots.items } };
}

impl Clone for Objects {
    ghost is_clone = { λ objects copy. copy ≡ objects };

    fn clone(&self) -> Result<Objects, AllocError> {
        Ok(Objects {
            pools: Vec::from_clones(*self.pools.allocator(), self.pools.as_slice())?,
            desks: Vec::from_clones(*self.desks.allocator(), self.desks.as_slice())?,
            slots: Vec::from_clones(*self.slots.allocator(), self.slots.as_slice())?,
        })
    }
}

impl Keyed for Objects {
    ghost use Rattle.abt_replay.specs.Keys.{objects_key};

    ghost key = { objects_key };

    fn write(&self, out: &mut Vec<u8>) -> Result<(), Want> {
        write_list(self.pools.as_slice(), out)?;
        write_list(self.desks.as_slice(), out)?;
        write_list(self.slots.as_slice(), out)
    }
}

impl Objects {
    ghost use Rattle.abt_replay.specs.Objects.{Called, object_at};

    /// The objects of these lists, each numbered by its place in its list.
    pub fn new(pools: Vec<Pool>, desks: Vec<Desk>, slots: Vec<Slot>) -> Objects
        ensures { result ≡ record { pools = pools.items; desks = desks.items; slots = slots.items } }
    {
        Objects {
            pools,
            desks,
            slots,
        }
    }

    /// The pools, in order of number.
    pub fn pools(&self) -> &[Pool]
        ensures { result.now ≡ self.now.pools }
    {
        self.pools.as_slice()
    }

    /// The desks of all units, in order of number.
    pub fn desks(&self) -> &[Desk]
        ensures { result.now ≡ self.now.desks }
    {
        self.desks.as_slice()
    }

    /// The places of the declared objects, in order of number.
    pub fn slots(&self) -> &[Slot]
        ensures { result.now ≡ self.now.slots }
    {
        self.slots.as_slice()
    }

    /// The object at the site answers the act, and all others stay as they are. Out of memory is the only error.
    #[tactic(auto, using(crate::proofs::Answered::called_suits))]
    pub fn call(&mut self, site: Site, act: Act) -> Result<Answer, Want>
        requires { Allows (object_at self.old site) (act_of act) }
        ensures called { IfOk result (λ answer. Called self.old site (act_of act) (answer_of answer) self.new) }
        ensures suits { IfOk result (λ answer. Suits (act_of act) (answer_of answer)) }
    {
        let answer = self.answered(site, act)?;
        Ok(answer)
    }

    // The object at the site answers the act.
    fn answered(&mut self, site: Site, act: Act) -> Result<Answer, Want>
        requires { Allows (object_at self.old site) (act_of act) }
        ensures { IfOk result (λ answer. Called self.old site (act_of act) (answer_of answer) self.new) }
    {
        match site {
            Site::Pool(p) => self.pools[p.0 as usize].answer(act),
            Site::Desk(u) => self.desks[u.0 as usize].answer(act),
            Site::Monitor(x) => self.slots[x.0 as usize].answer(act),
            Site::Eventual(x) => self.slots[x.0 as usize].answer(act),
            Site::Future(x) => self.slots[x.0 as usize].answer(act),
            Site::Barrier(x) => self.slots[x.0 as usize].answer(act),
            Site::Rw(x) => self.slots[x.0 as usize].answer(act),
        }
    }
}
