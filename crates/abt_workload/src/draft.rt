//! What the lines above a line declare.

ghost use Rattle.std.specs.Prelude.{◌≡◌, ◌==◌, ◌+◌, ◌*◌, map, nat_lt, flat_map, option_to_list, slice_get, is_none, unwrap_or, Some, None};
ghost use Rattle.std.specs.List.{list_any};
ghost use Rattle.abt_machine.specs.Access.{may_take_all};
ghost use Rattle.abt_machine.specs.Declaring.{declared_units, last_units, nothing, parts_of};
ghost use Rattle.abt_machine.specs.Faults.{has_main, has_no_room, is_crowded, is_long, is_placed, is_task, is_there, takes_operations};
ghost use Rattle.abt_machine.specs.Valid.{sched_in};
ghost use Rattle.abt_machine.specs.Workloads.{access_from};
ghost use Rattle.abt_machine.specs.declared.grammar.Number.TheVariants as number;
ghost use Rattle.abt_machine.specs.declared.numbers.SchedNo.{SchedNo};
ghost use Rattle.abt_machine.specs.declared.workload.UnitPart.{UnitPart};
ghost use Rattle.abt_workload.specs.Declarable.{last_count, op_count};

use crate::units::Units;
use abt_machine::{
    Access, Body, Format, Number, PoolPart, SchedNo, SchedPart, Text, Thing, UnitPart,
};
use std::alloc::Global;
use std::marker::Model;

/// What the lines above a line declare.
#[derive(Drop)]
pub(crate) struct Draft {
    pub(crate) begun: bool,
    pub(crate) format: Format,
    pub(crate) section: u8,
    pub(crate) streams: Option<u32>,
    pub(crate) keys: u32,
    pub(crate) pools: Vec<PoolPart>,
    pub(crate) scheds: Vec<SchedPart>,
    pub(crate) mains: Vec<Option<SchedNo>>,
    pub(crate) objects: Vec<Thing>,
    pub(crate) unit_count: Option<u32>,
    pub(crate) units: Units,
    pub(crate) last: Option<UnitPart>,
    pub(crate) copies: u32,
    pub(crate) words: Vec<Text>,
    pub(crate) said: Vec<Text>,
}

impl Model for Draft {
    ghost use Rattle.abt_machine.specs.Declaring.{Above};

    ghost Value = { Above };

    ghost view = { λ d. record { begun = d.begun; format = d.format; section = d.section; streams = d.streams; keys = d.keys; pools = d.pools.items; scheds = d.scheds.items; mains = d.mains.items; objects = d.objects.items; unit_count = d.unit_count; units = d.units; last = d.last; copies = d.copies; words = d.words.items; said = d.said.items } };
}

impl Draft {
    /// What no line declares.
    pub(crate) fn new(alloc: Global) -> Draft
        ensures { result ≡ nothing }
    {
        Draft {
            begun: false,
            format: Format::One,
            section: 0,
            streams: None,
            keys: 0,
            pools: Vec::new(alloc),
            scheds: Vec::new(alloc),
            mains: Vec::new(alloc),
            objects: Vec::new(alloc),
            unit_count: None,
            units: Units::new(alloc),
            last: None,
            copies: 0,
            words: Vec::new(alloc),
            said: Vec::new(alloc),
        }
    }

    /// Whether `end` was the last line.
    pub(crate) fn has_ended(&self) -> bool
        ensures { result ≡ (self.now.section == 10) }
    {
        self.section == 10
    }

    /// How many units are declared.
    pub(crate) fn declared_units(&self) -> u64
        ensures { result ≡ declared_units self.now }
    {
        self.units.parts().len() as u64 + last_count(&self.last, self.copies)
    }

    /// Whether a stream has its main scheduler.
    pub(crate) fn has_main(&self, s: u64) -> bool
        ensures { result ≡ has_main self.now s }
    {
        match self.mains.get(s as usize) {
            Some(main) => main.is_some(),
            None => false,
        }
    }

    /// Whether a scheduler is the main one of a stream, or the body of a unit.
    pub(crate) fn is_placed(&self, g: u64) -> bool
        ensures { result ≡ is_placed self.now g }
    {
        is_main(&self.mains, g) || is_body(self.units.parts(), g) || self.is_last(g)
    }

    // Whether a scheduler is the body of the last unit.
    fn is_last(&self, g: u64) -> bool
        ensures { result ≡ list_any (λ h. h == g) (flat_map (λ (part : UnitPart). sched_in part.body) (last_units self.now self.now.last)) }
    {
        self.copies > 0 && is_body_of_last(&self.last, g)
    }

    fn object(&self, x: u64) -> Option<Thing>
        ensures { result ≡ slice_get self.now.objects x }
    {
        self.objects.get(x as usize).copied()
    }

    /// Whether what a number names is declared, or the number that it declares is the next of its kind.
    pub(crate) fn is_there(&self, number: Number, n: u64) -> bool
        ensures { result ≡ is_there self.now number n }
    {
        match number {
            Number::Within(_, _) | Number::StreamCount | Number::UnitCount => true,
            Number::Copies | Number::Times => true,
            Number::NewPool => n <= self.pools.len() as u64,
            Number::NewSched => n <= self.scheds.len() as u64,
            Number::NewObject => n <= self.objects.len() as u64,
            Number::NewUnit => n <= self.declared_units(),
            Number::Stream => n < u64::from(self.streams.unwrap_or(0)),
            Number::Pool => n < self.pools.len() as u64,
            Number::Sched => n < self.scheds.len() as u64,
            Number::Key => n < u64::from(self.keys),
            Number::Unit => self.has_unit(n),
            Number::Mutex => matches!(self.object(n), Some(Thing::Mutex)),
            Number::Cond => matches!(self.object(n), Some(Thing::Cond(_))),
            Number::Eventual => matches!(self.object(n), Some(Thing::Eventual)),
            Number::Future => matches!(self.object(n), Some(Thing::Future(_, _))),
            Number::Barrier => matches!(self.object(n), Some(Thing::Barrier(_))),
            Number::RwLock => matches!(self.object(n), Some(Thing::RwLock)),
        }
    }

    // Whether a unit is one of those that `units` has.
    fn has_unit(&self, n: u64) -> bool
        ensures { result ≡ is_there self.now number.Unit n }
    {
        n < u64::from(self.unit_count.unwrap_or(0))
    }

    /// Whether operation lines may follow.
    pub(crate) fn takes_operations(&self) -> bool
        ensures { result ≡ takes_operations self.now.last }
    {
        match &self.last {
            None => false,
            Some(part) => !matches!(&part.body, Body::Sched(_)),
        }
    }

    /// Whether the last unit must not have n operations more.
    pub(crate) fn has_no_room(&self, n: u64) -> bool
        ensures { result ≡ has_no_room self.now n }
    {
        self.is_long(n) || self.is_crowded(n)
    }

    // Whether the last unit has too many operations with n more.
    fn is_long(&self, n: u64) -> bool
        ensures { result ≡ is_long self.now.format self.now.last n }
    {
        match &self.last {
            None => false,
            Some(part) => {
                let limit = self.format.unit_operation_limit();
                part.body.ops().len() as u128 + u128::from(n) > limit as u128
            }
        }
    }

    // Whether all units have too many operations, if the last and each of its copies has n more.
    fn is_crowded(&self, n: u64) -> bool
        ensures { result ≡ is_crowded self.now n }
    {
        let all = all_ops(self.units.ops(), self.copies, last_ops(&self.last), n);
        all > self.format.operation_limit() as u128
    }

    /// Whether the last unit is a tasklet.
    pub(crate) fn is_task(&self) -> bool
        ensures { result ≡ is_task self.now.last }
    {
        match &self.last {
            None => false,
            Some(part) => matches!(&part.body, Body::Task(_)),
        }
    }

    /// Whether a stream may take from each pool that a scheduler lists.
    pub(crate) fn may_take_all(&self, s: u64, g: u64) -> bool
        ensures { result ≡ may_take_all (parts_of self.now) s g }
    {
        let Some(sched) = self.scheds.get(g as usize) else {
            return true;
        };
        for p in sched.pools.items() {
            if !self.access(u64::from(p.0)).takes(s) {
                return false;
            }
        }
        true
    }

    // The access of a pool, and `Mpmc` if it is not declared.
    fn access(&self, p: u64) -> Access
        ensures { result ≡ access_from (slice_get self.now.pools p) }
    {
        match self.pools.get(p as usize) {
            Some(part) => part.access,
            None => Access::Mpmc,
        }
    }

    /// Whether a stream has no main scheduler.
    pub(crate) fn lacks_main(&self) -> bool
        ensures { result ≡ list_any is_none self.now.mains }
    {
        for main in &self.mains {
            if main.is_none() {
                return true;
            }
        }
        false
    }
}

// Whether a scheduler is the main one of a stream.
fn is_main(mains: &[Option<SchedNo>], g: u64) -> bool
    ensures { result ≡ list_any (λ h. h == g) (map (λ (h : SchedNo). h.0) (flat_map option_to_list mains.now)) }
{
    for main in mains {
        if is_main_of(*main, g) {
            return true;
        }
    }
    false
}

fn is_main_of(main: Option<SchedNo>, g: u64) -> bool
    ensures { result ≡ list_any (λ h. h == g) (map (λ (h : SchedNo). h.0) (option_to_list main)) }
{
    match main {
        None => false,
        Some(h) => u64::from(h.0) == g,
    }
}

// Whether a scheduler is the body of one of these units.
fn is_body(units: &[UnitPart], g: u64) -> bool
    ensures { result ≡ list_any (λ h. h == g) (flat_map (λ (part : UnitPart). sched_in part.body) units.now) }
{
    for part in units {
        if is_body_of(&part.body, g) {
            return true;
        }
    }
    false
}

fn is_body_of(body: &Body, g: u64) -> bool
    ensures { result ≡ list_any (λ h. h == g) (sched_in body.now) }
{
    match body {
        Body::Ult(_) | Body::Task(_) => false,
        Body::Sched(h) => u64::from(h.0) == g,
    }
}

// Whether a scheduler is the body of the last unit, if there is one.
fn is_body_of_last(last: &Option<UnitPart>, g: u64) -> bool
    ensures { result ≡ list_any (λ h. h == g) (flat_map (λ (part : UnitPart). sched_in part.body) (option_to_list last.now)) }
{
    match last {
        None => false,
        Some(part) => is_body_of(&part.body, g),
    }
}

// How many units the last `unit` or `many` line declares, if there is one.
fn last_count(last: &Option<UnitPart>, copies: u32) -> u64
    ensures { result ≡ last_count copies last.now }
{
    match last {
        None => 0,
        Some(_) => u64::from(copies),
    }
}

// How many operations the last unit has, if there is one.
fn last_ops(last: &Option<UnitPart>) -> usize
    ensures { result ≡ op_count last.now }
{
    match last {
        None => 0,
        Some(part) => part.body.ops().len(),
    }
}

// How many operations these are, and those of the copies of a unit with n more each.
fn all_ops(above: usize, copies: u32, each: usize, n: u64) -> u128
    ensures { result ≡ above + copies * (each + n) }
{
    above as u128 + u128::from(copies) * (each as u128 + u128::from(n))
}
