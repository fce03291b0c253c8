//! A chain, and its calls.

ghost use Rattle.std.specs.Prelude.{◌≡◌, ◌<◌, ◌≤◌, ◌+◌, [], ◌∷◌, ◌++◌, None, Some, IfNone, IfSome, ◌==◌, length};
ghost use Rattle.std.specs.List.{find};
ghost use Rattle.abt_machine.specs.Pools.{is_unit, without};
ghost use Rattle.abt_unit.specs.Units.{IsFree};
ghost use Rattle.abt_chain.specs.Links.{RisesByOne, walk_of};
ghost use Rattle.abt_chain.specs.Results.{unit_found};

use crate::Steps;
use crate::parts::{
    Part, find_first, find_last, flipped, halved, part_at, pop, reversed_onto, turned,
};
use abt_machine::UnitNo;
use abt_unit::Unit;
use std::marker::{Brand, Model};
use std::mem;
use std::sync::ledger::{Blank, Ledger};

/// Units in order, each linked to the next. The chain owns its units, and keeps no count of them.
///
/// It is kept in two parts: the first units in order, and the others in reverse order. So a unit is put behind the last at
/// once, and taken from the front at once as long as the front part has one.
#[derive(Drop)]
pub struct Chain {
    front: Part,
    back: Part,
}

impl Model for Chain {
    ghost use Rattle.std.specs.Prelude.{◌++◌, reverse, length};
    ghost use Rattle.abt_unit.specs.Units.{units_in};
    ghost use Rattle.abt_chain.specs.Chains.{ChainValue};

    ghost Value = { ChainValue };

    ghost view = { λ c. record { units = units_in c.front ++ reverse (units_in c.back); owed = length (units_in c.back) } };
}

impl Chain {
    /// A chain without units.
    pub fn new() -> Self
        ensures units { result.units ≡ [] }
        ensures owed { result.owed ≡ 0 }
    {
        Chain {
            front: None,
            back: None,
        }
    }

    #[inline(always)]
    pub fn is_empty(&self) -> bool
        ensures empty { result ≡ (length self.now.units == 0) }
        ensures owed { self.now.owed ≤ length self.now.units }
    {
        self.front.is_none() && self.back.is_none()
    }

    /// Appends the unit.
    #[inline(always)]
    pub fn push_back(&mut self, unit: Box<Unit>)
        requires free { IsFree unit.value }
        ensures { self.new.units ≡ self.old.units ++ unit.value.owned ∷ [] }
    {
        self.push_back_by::<Brand>(unit, Blank::new(1));
    }

    /// Takes the first unit.
    #[inline(always)]
    pub fn take_front(&mut self) -> Option<Box<Unit>>
        ensures none { IfNone result ((self.old.units ≡ []) × (self.new.units ≡ [])) }
        ensures free { IfSome result (λ unit. IsFree unit.value) }
        ensures first { IfSome result (λ unit. self.old.units ≡ unit.value.owned ∷ self.new.units) }
    {
        self.take_front_by::<Brand>(Blank::new(1))
    }

    /// Takes the last unit. If the back part is empty it gets half of the front part, so that units that are taken from both
    /// ends in turn are not turned over again and again.
    pub fn take_back(&mut self) -> Option<Box<Unit>>
        ensures none { IfNone result ((self.old.units ≡ []) × (self.new.units ≡ [])) }
        ensures free { IfSome result (λ unit. IsFree unit.value) }
        ensures last { IfSome result (λ unit. self.old.units ≡ self.new.units ++ unit.value.owned ∷ []) }
    {
        if self.back.is_none() {
            let halves = halved(self.front.take());
            self.front = halves.front;
            self.back = halves.back;
        }
        pop(&mut self.back)
    }

    /// Takes the first unit of that number; the others stay in order. The time is that of a walk over the chain.
    #[tactic(auto, using(crate::proofs::Finds::leaving))]
    pub fn remove(&mut self, u: UnitNo) -> Option<Box<Unit>>
        ensures none { IfNone result ((find (is_unit u.0) self.old.units ≡ None) × (self.new.units ≡ self.old.units)) }
        ensures free { IfSome result (λ unit. IsFree unit.value) }
        ensures found { IfSome result (λ unit. find (is_unit u.0) self.old.units ≡ Some unit.value.owned) }
        ensures others { IfSome result (λ _. self.new.units ≡ without u.0 self.old.units) }
    {
        let front = part_at(self.front.take(), u);
        self.front = reversed_onto(front.passed, front.rest);
        if front.found.is_some() {
            return front.found;
        }
        let back = part_at(flipped(self.back.take()), u);
        self.back = reversed_onto(back.rest, back.passed);
        back.found
    }

    /// The first unit of that number. The time is that of a walk over the chain.
    #[tactic(auto, using(crate::proofs::Finds::leaving))]
    pub fn find(&self, u: UnitNo) -> Option<&Unit>
        ensures { find (is_unit u.0) self.now.units ≡ unit_found result }
    {
        match find_first(&self.front, u) {
            Some(unit) => Some(unit),
            None => find_last(&self.back, u),
        }
    }

    /// Appends all units to another chain, in order. The time is that of a walk over the units here; if the other chain is
    /// empty, no link is walked.
    pub fn drain_into(&mut self, other: &mut Chain)
        ensures drained { self.new.units ≡ [] }
        ensures appended { other.new.units ≡ other.old.units ++ self.old.units }
    {
        if other.is_empty() {
            mem::swap(self, other);
            return;
        }
        let followed = reversed_onto(self.front.take(), other.back.take());
        other.back = reversed_onto(flipped(self.back.take()), followed);
    }

    /// Appends the unit, which walks no link.
    #[inline(always)]
    pub fn push_back_counted<L: Ledger>(&mut self, mut unit: Box<Unit>, steps: &mut Steps<L>)
        requires free { IsFree unit.value }
        ensures units { self.new.units ≡ self.old.units ++ unit.value.owned ∷ [] }
        ensures links { RisesByOne (walk_of steps.old self.old) (walk_of steps.new self.new) }
    {
        unit.link = self.back.take();
        self.back = Some(unit);
    }

    /// Takes the first unit: one link walked, and one more for each unit of the back part if the front part is empty.
    #[inline(always)]
    pub fn take_front_counted<L: Ledger>(&mut self, steps: &mut Steps<L>) -> Option<Box<Unit>>
        ensures none { IfNone result ((self.old.units ≡ []) × (self.new.units ≡ [])) }
        ensures free { IfSome result (λ unit. IsFree unit.value) }
        ensures first { IfSome result (λ unit. self.old.units ≡ unit.value.owned ∷ self.new.units) }
        ensures links { IfSome result (λ _. RisesByOne (walk_of steps.old self.old) (walk_of steps.new self.new)) }
        ensures no_link { IfNone result (walk_of steps.new self.new ≡ walk_of steps.old self.old) }
    {
        if self.front.is_none() {
            self.front = turned(self.back.take(), None, steps);
        }
        let unit = pop(&mut self.front)?;
        steps.tick();
        Some(unit)
    }

    #[inline(always)]
    fn push_back_by<L: Ledger>(&mut self, unit: Box<Unit>, blank: Blank)
        requires name { blank.name ≡ L.name }
        requires parts { blank.parts ≡ L.parts }
        requires some { 0 < L.parts }
        requires free { IsFree unit.value }
        ensures { self.new.units ≡ self.old.units ++ unit.value.owned ∷ [] }
    {
        let mut steps = Steps::<L>::new(blank);
        self.push_back_counted(unit, &mut steps);
    }

    #[inline(always)]
    fn take_front_by<L: Ledger>(&mut self, blank: Blank) -> Option<Box<Unit>>
        requires name { blank.name ≡ L.name }
        requires parts { blank.parts ≡ L.parts }
        requires some { 0 < L.parts }
        ensures none { IfNone result ((self.old.units ≡ []) × (self.new.units ≡ [])) }
        ensures free { IfSome result (λ unit. IsFree unit.value) }
        ensures first { IfSome result (λ unit. self.old.units ≡ unit.value.owned ∷ self.new.units) }
    {
        let mut steps = Steps::<L>::new(blank);
        self.take_front_counted(&mut steps)
    }
}
