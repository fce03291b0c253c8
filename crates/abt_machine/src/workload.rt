//! A workload and its parts.

ghost use Rattle.std.specs.Prelude.{◌≡◌, ◌<◌, IfOk, count_by, length, slice_get, Some, map};
ghost use Rattle.abt_machine.specs.Valid.{IsValid};
ghost use Rattle.abt_machine.specs.Operations.{IsMutex};
ghost use Rattle.abt_machine.specs.Workloads.{IsCondition, access_of, condition_number, is_condition_of, main_of, mutex_of, op_at, pools_of, thing_at};
ghost use Rattle.abt_machine.specs.Access.{may_put, may_take};
ghost use Rattle.abt_machine.specs.declared.numbers.PoolNo.{PoolNo};

use crate::counting::counted;
use crate::items::{Items, Text};
use crate::numbers::{ObjectNo, PoolNo, SchedNo, StreamNo, UnitNo};
use crate::operations::{Access, Body, Kind, Op, Pools, Rule, Thing};
use crate::program::Want;
use std::alloc::Global;
use std::marker::Model;

/// A pool.
#[derive(Clone, Copy, Debug, PartialEq, Eq)]
pub struct PoolPart {
    pub kind: Kind,
    pub access: Access,
}

/// A scheduler: its rule and the pools that it lists.
#[derive(Drop)]
pub struct SchedPart {
    pub rule: Rule,
    pub pools: Pools,
}

/// A unit: what it is, and the pool that it starts in, if it has one.
#[derive(Drop)]
pub struct UnitPart {
    pub body: Body,
    pub start: Option<PoolNo>,
}

/// The pools, in order of number.
pub type PoolParts = Items<PoolPart>;

/// The schedulers, in order of number.
pub type SchedParts = Items<SchedPart>;

/// The main scheduler of each stream, in order of number.
pub type Mains = Items<SchedNo>;

/// The objects, in order of number.
pub type Things = Items<Thing>;

/// The units, in order of number.
pub type UnitParts = Items<UnitPart>;

/// The words that units say, in order of unit and then of position.
pub type Texts = Items<Text>;

/// All that a workload declares.
#[derive(Drop)]
pub struct Parts {
    pub streams: u32,
    pub keys: u32,
    pub pools: PoolParts,
    pub scheds: SchedParts,
    pub mains: Mains,
    pub objects: Things,
    pub units: UnitParts,
    pub words: Texts,
}

/// A valid workload, which contracts see as its parts.
#[derive(Drop)]
pub struct Workload {
    parts: Parts,
    // At each mutex how many conditions it has, and at each condition how many of its mutex are declared before it.
    counts: Vec<u32>,
}

impl Model for Workload {
    ghost use Rattle.std.specs.Prelude.{length};
    ghost use Rattle.abt_machine.specs.declared.workload.Parts.{Parts};
    ghost use Rattle.abt_machine.specs.Counting.{AreCounted};
    ghost use Rattle.abt_machine.specs.Valid.{IsValid};

    ghost Value = { Parts };

    ghost view = { λ w. w.parts };

    ghost invariant = { λ w. IsValid w.parts × AreCounted w.parts.objects (length w.parts.objects) w.counts.items };
}

impl Workload {
    /// The workload of valid parts. It takes memory for a number an object.
    pub fn new(alloc: Global, parts: Parts) -> Result<Workload, Want>
        requires { IsValid parts }
        ensures { IfOk result (λ w. w ≡ parts) }
    {
        let counts = counted(alloc, parts.objects.items())?;
        Ok(Workload { parts, counts })
    }

    /// Computes nothing: here a caller learns that the parts are valid, and so that what they name is
    /// declared.
    pub fn known(&self)
        ensures { IsValid self.now }
    {
        let _ = &self.parts;
    }

    /// The number of streams. The parts are valid.
    pub fn streams(&self) -> u32
        ensures count { result ≡ self.now.streams }
        ensures valid { IsValid self.now }
    {
        self.parts.streams
    }

    /// The number of keys that each unit has.
    pub fn keys(&self) -> u32
        ensures { result ≡ self.now.keys }
    {
        self.parts.keys
    }

    /// The number of pools.
    pub fn pools(&self) -> u32
        ensures { result ≡ length self.now.pools }
    {
        self.parts.pools.items().len() as u32
    }

    /// The number of schedulers.
    pub fn scheds(&self) -> u32
        ensures { result ≡ length self.now.scheds }
    {
        self.parts.scheds.items().len() as u32
    }

    /// The number of units.
    pub fn units(&self) -> u32
        ensures { result ≡ length self.now.units }
    {
        self.parts.units.items().len() as u32
    }

    /// The number of objects.
    pub fn objects(&self) -> u32
        ensures { result ≡ length self.now.objects }
    {
        self.parts.objects.items().len() as u32
    }

    pub fn pool(&self, p: PoolNo) -> PoolPart
        requires { p.0 < length self.now.pools }
        ensures { slice_get self.now.pools p.0 ≡ Some result }
    {
        self.parts.pools.items()[p.0 as usize]
    }

    pub fn sched(&self, g: SchedNo) -> &SchedPart
        requires { g.0 < length self.now.scheds }
        ensures { slice_get self.now.scheds g.0 ≡ Some result.now }
    {
        &self.parts.scheds.items()[g.0 as usize]
    }

    /// The main scheduler of a stream.
    pub fn main(&self, s: StreamNo) -> SchedNo
        requires { s.0 < self.now.streams }
        ensures { slice_get self.now.mains s.0 ≡ Some result }
    {
        self.parts.mains.items()[s.0 as usize]
    }

    pub fn thing(&self, x: ObjectNo) -> Thing
        requires { x.0 < length self.now.objects }
        ensures { slice_get self.now.objects x.0 ≡ Some result }
    {
        self.parts.objects.items()[x.0 as usize]
    }

    pub fn unit(&self, u: UnitNo) -> &UnitPart
        requires { u.0 < length self.now.units }
        ensures { slice_get self.now.units u.0 ≡ Some result.now }
    {
        &self.parts.units.items()[u.0 as usize]
    }

    /// The word that `Say` number w says.
    pub fn word(&self, w: u32) -> &str
        requires { w < length self.now.words }
        ensures { slice_get self.now.words w ≡ Some result.now }
    {
        self.parts.words.items()[w as usize].as_str()
    }

    /// The operation of a unit at a position, if it has one.
    pub fn op(&self, u: UnitNo, at: u32) -> Option<Op>
        requires { u.0 < length self.now.units }
        ensures { result ≡ op_at self.now u.0 at }
    {
        self.unit(u).body.ops().get(at as usize).copied()
    }

    /// Whether a stream may put into a pool, by the pool's declared access.
    pub fn may_put(&self, s: StreamNo, p: PoolNo) -> bool
        requires stream { s.0 < self.now.streams }
        requires pool { p.0 < length self.now.pools }
        ensures { result ≡ may_put self.now s.0 p.0 }
    {
        self.parts.may_put(s, p)
    }

    /// Whether a stream may take from a pool, by the pool's declared access.
    pub fn may_take(&self, s: StreamNo, p: PoolNo) -> bool
        requires stream { s.0 < self.now.streams }
        requires pool { p.0 < length self.now.pools }
        ensures { result ≡ may_take self.now s.0 p.0 }
    {
        self.parts.may_take(s, p)
    }

    /// The mutex of a condition, and how many conditions of that mutex are declared before it.
    pub fn cond(&self, x: ObjectNo) -> (ObjectNo, u32)
        requires { IsCondition self.now x.0 }
        ensures mutex { result.0.0 ≡ mutex_of self.now x.0 }
        ensures number { result.1 ≡ condition_number self.now x.0 }
    {
        (self.mutex(x), self.counts[x.0 as usize])
    }

    /// How many conditions a mutex has.
    pub fn conditions(&self, mutex: ObjectNo) -> u32
        requires { IsMutex self.now mutex.0 }
        ensures { result ≡ count_by (is_condition_of mutex.0) self.now.objects }
    {
        self.counts[mutex.0 as usize]
    }
}

impl Parts {
    // The access of a pool, and `Mpmc` if it is not declared.
    pub(crate) fn access(&self, p: PoolNo) -> Access
        ensures { result ≡ access_of self.now p.0 }
    {
        match self.pools.items().get(p.0 as usize) {
            Some(part) => part.access,
            None => Access::Mpmc,
        }
    }

    // The object of a number, if it is declared.
    pub(crate) fn object(&self, x: ObjectNo) -> Option<Thing>
        ensures { result ≡ thing_at self.now x.0 }
    {
        self.objects.items().get(x.0 as usize).copied()
    }

    // The main scheduler of a stream, and scheduler 0 if the stream is not declared.
    pub(crate) fn main(&self, s: StreamNo) -> SchedNo
        ensures { result.0 ≡ main_of self.now s.0 }
    {
        match self.mains.items().get(s.0 as usize) {
            Some(g) => *g,
            None => SchedNo(0),
        }
    }

    // The pools that a scheduler lists, and none if it is not declared.
    pub(crate) fn listed(&self, g: SchedNo) -> &[PoolNo]
        ensures { map (λ (p : PoolNo). p.0) result.now ≡ pools_of self.now g.0 }
    {
        match self.scheds.items().get(g.0 as usize) {
            Some(part) => part.pools.items(),
            None => &[],
        }
    }

    // Whether a stream may take from a pool, by the pool's declared access.
    pub(crate) fn may_take(&self, s: StreamNo, p: PoolNo) -> bool
        ensures { result ≡ may_take self.now s.0 p.0 }
    {
        self.access(p).takes(u64::from(s.0))
    }

    // Whether a stream may put into a pool, by the pool's declared access.
    pub(crate) fn may_put(&self, s: StreamNo, p: PoolNo) -> bool
        ensures { result ≡ may_put self.now s.0 p.0 }
    {
        self.access(p).puts(u64::from(s.0))
    }
}

impl Workload {
    // The mutex of a condition, and the object itself if it is not a condition.
    fn mutex(&self, x: ObjectNo) -> ObjectNo
        ensures { result.0 ≡ mutex_of self.now x.0 }
    {
        match self.parts.object(x) {
            Some(Thing::Cond(m)) => m,
            _ => x,
        }
    }
}
