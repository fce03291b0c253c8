//! All operations, done in an order in which each comes behind what it needs, as far as there is one.

ghost use Rattle.std.specs.Prelude.{◌<◌, ◌≡◌, ◌≢◌, ◌↔◌, IfOk, IsTrue, MatchBool, MatchOption, length, slice_index_or};
ghost use Rattle.abt_flow.specs.Confluent.{Confluent};
ghost use Rattle.abt_orderly.specs.declared.scanning.Standing.TheVariants as place;
ghost use Rattle.abt_orderly.specs.Passing.{AllPass, AllRest, AreStanding, AreUnits, Creates, IsOver, Looks, MayPass, Meets, MeetsNeed, MeetsNone, OthersSeen, Passes, Rests, Takes};

use crate::needs::{created, met_need, need, needs_count, ops_count};
use crate::scanning::{Standing, all_units, standings, wait_lists};
use abt_machine::{UnitNo, Want, Workload};
use std::alloc::Global;

// How many operations of each unit are done, whose end counts as one more, and where the unit stands; for each need whether it is
// met, and which units are to be looked at once it is; and the units that are to be looked at now.
#[derive(Drop)]
pub(crate) struct Passing {
    done: Vec<u32>,
    standing: Vec<Standing>,
    met: Vec<bool>,
    waiting: Vec<Vec<UnitNo>>,
    ready: Vec<UnitNo>,
}

impl Passing {
    // No operation is done, and every unit is to be looked at.
    pub(crate) fn make(alloc: Global, w: &Workload) -> Result<Self, Want>
        ensures { IfOk result (λ passing. AllPass w.now passing) }
    {
        Ok(Passing {
            done: vec![in alloc; 0; w.units() as usize]?,
            standing: standings(alloc, w)?,
            met: vec![in alloc; false; needs_count(w)]?,
            waiting: wait_lists(alloc, w)?,
            ready: all_units(alloc, w)?,
        })
    }

    // Whether the next operation of a unit can be done.
    fn may_pass(&self, w: &Workload, u: UnitNo) -> bool
        requires unit { u.0 < length w.now.units }
        requires passes { Passes w.now self.now }
        ensures { MatchBool result (MayPass w.now self.now u.0) (Rests w.now self.now u.0) }
    {
        w.known();
        match self.standing[u.0 as usize] {
            Standing::Unborn => return false,
            Standing::Reached | Standing::Unreached => {}
        }
        let k = self.done[u.0 as usize];
        if ops_count(w, u) < k {
            return false;
        }
        match need(w, u, k) {
            Some(i) => self.met[i],
            None => true,
        }
    }

    // The need that the next operation of a unit meets, if the unit is reached.
    fn met_by(&self, w: &Workload, u: UnitNo) -> Option<usize>
        requires unit { u.0 < length w.now.units }
        requires passes { Passes w.now self.now }
        requires may { MayPass w.now self.now u.0 }
        ensures { MatchOption result (MeetsNone w.now self.now u.0) (MeetsNeed w.now self.now u.0) }
    {
        match self.standing[u.0 as usize] {
            Standing::Reached => met_need(w, u, self.done[u.0 as usize]),
            Standing::Unborn | Standing::Unreached => None,
        }
    }

    // What the next operation of a unit meets is met, and who waits for it is to be looked at.
    fn meet(&mut self, w: &Workload, u: UnitNo) -> Result<(), Want>
        requires unit { u.0 < length w.now.units }
        requires passes { Passes w.now self.old }
        requires others { OthersSeen w.now self.old u.0 }
        requires may { MayPass w.now self.old u.0 }
        ensures { IfOk result (λ _. Meets w.now u.0 self.old self.new) }
    {
        w.known();
        match self.met_by(w, u) {
            Some(i) => {
                self.ready.extend_from_slice(&self.waiting[i])?;
                self.waiting[i].clear();
                self.met[i] = true;
                Ok(())
            }
            None => Ok(()),
        }
    }

    // A unit that is created is reached if the one that creates it is, and is to be looked at.
    fn create(&mut self, w: &Workload, u: UnitNo) -> Result<(), Want>
        requires confluent { Confluent w.now }
        requires unit { u.0 < length w.now.units }
        requires all { length self.old.done.items ≡ length w.now.units }
        requires standing { AreStanding w.now self.old.done.items self.old.standing.items }
        requires ready { AreUnits w.now self.old.ready.items }
        requires others { OthersSeen w.now self.old u.0 }
        requires born { slice_index_or self.old.standing.items u.0 place.Unborn ≢ place.Unborn }
        ensures { IfOk result (λ _. Creates w.now u.0 self.old self.new) }
    {
        w.known();
        match created(w, u, self.done[u.0 as usize]) {
            Some(v) => {
                self.standing[v.0 as usize] = self.standing[u.0 as usize];
                self.ready.push(v)?;
                Ok(())
            }
            None => Ok(()),
        }
    }

    // Does the next operation of a unit.
    fn pass(&mut self, w: &Workload, u: UnitNo) -> Result<(), Want>
        requires confluent { Confluent w.now }
        requires unit { u.0 < length w.now.units }
        requires passes { Passes w.now self.old }
        requires others { OthersSeen w.now self.old u.0 }
        requires may { MayPass w.now self.old u.0 }
        ensures { IfOk result (λ _. Looks w.now self.old self.new) }
    {
        w.known();
        self.meet(w, u)?;
        self.create(w, u)?;
        self.done[u.0 as usize] += 1;
        self.ready.push(u)?;
        Ok(())
    }

    // Does the next operation of a unit, if it can be done.
    fn look(&mut self, w: &Workload, u: UnitNo) -> Result<(), Want>
        requires confluent { Confluent w.now }
        requires unit { u.0 < length w.now.units }
        requires passes { Passes w.now self.old }
        requires others { OthersSeen w.now self.old u.0 }
        ensures { IfOk result (λ _. Looks w.now self.old self.new) }
    {
        if self.may_pass(w, u) {
            self.pass(w, u)?;
        }
        Ok(())
    }

    // A unit that is to be looked at, if there is one.
    fn take(&mut self, w: &Workload) -> Option<UnitNo>
        requires { AllPass w.now self.old }
        ensures { MatchOption result (AllRest w.now self.new) (Takes w.now self.old self.new) }
    {
        w.known();
        self.ready.pop()
    }

    // Does operations until none can be done.
    pub(crate) fn pass_all(&mut self, w: &Workload) -> Result<(), Want>
        requires confluent { Confluent w.now }
        requires pass { AllPass w.now self.old }
        ensures { IfOk result (λ _. AllRest w.now self.new) }
    {
        while let Some(u) = self.take(w) {
            self.look(w, u)?;
        }
        Ok(())
    }

    // Whether every operation is done.
    pub(crate) fn is_over(&self, w: &Workload) -> bool
        requires { Passes w.now self.now }
        ensures { IsTrue result ↔ IsOver w.now self.now }
    {
        for u in 0..w.units() {
            if self.done[u as usize] <= ops_count(w, UnitNo(u)) {
                return false;
            }
        }
        true
    }
}
