//! What was asked of a taken unit.

ghost use Rattle.std.specs.Prelude.{◌≡◌, ◌<◌, ◌≤◌, ◌^◌, [], option_map, None};
ghost use Rattle.abt_machine.specs.declared.numbers.PoolNo.{PoolNo};
ghost use Rattle.abt_machine.specs.declared.events.What.TheVariants as what;
ghost use Rattle.abt_machine.specs.Numbers.{unit_no};
ghost use Rattle.abt_machine.specs.Turns.{looked};
ghost use Rattle.abt_stream.specs.Heeding.{Heeds};
ghost use Rattle.abt_unit.specs.Units.{IsFree};
ghost use Rattle.abt_unit.specs.Fits.{Fits};
ghost use Rattle.abt_stream.specs.Events.{IfHeld, LookBy, holding, wrote};

use super::Stream;
use crate::parts::Current;
use crate::turns::Turn;
use crate::units::name;
use abt_commons::{Act, Answer, Commons, Reply};
use abt_desk::Asks;
use abt_machine::{Site, What};
use abt_plans::Mark;
use abt_unit::Unit;
use std::mem;

impl Stream {
    // What was asked of the taken unit is looked at.
    #[tactic(auto, using(crate::proofs::Calls::look_may))]
    #[inline(always)]
    pub(super) fn look<'w, C: Commons<'w>>(&mut self, commons: &C, pass: &mut C::Pass) -> Turn
        requires pass { C.is_of commons.now pass.old }
        requires next { IfHeld self.old.held.next (Fits (C.workload commons.now)) }
        requires room { 0 < self.old.rooms.events }
        ensures look { IfHeld self.old.held.next (LookBy (Heeds (C.moves commons.now) (C.workload commons.now)) self.old pass.old result self.new pass.new) }
        ensures pass { C.is_of commons.now pass.new }
        ensures number { C.number pass.new ≡ C.number pass.old }
    {
        match mem::replace(&mut self.current, Current::Idle) {
            Current::Taken(unit) => {
                let number = name(&unit);
                match commons.call(pass, Site::Desk(number), self.clock, Act::Look) {
                    Reply::Done { stamp, answer } => {
                        match answer {
                            Answer::Asks(asks) => self.looked(stamp, unit, asks),
                            _ => unreachable!(),
                        }
                        Turn::Moved
                    }
                    Reply::Worn(_) => {
                        self.current = Current::Taken(unit);
                        Turn::Worn
                    }
                }
            }
            _ => unreachable!(),
        }
    }

    // The unit was looked at.
    #[inline(always)]
    fn looked(&mut self, stamp: u64, unit: Box<Unit>, asks: Asks)
        requires free { IsFree unit.value }
        requires hand { self.old.held.hand ≡ None }
        requires next { self.old.held.next ≡ None }
        requires order { self.old.order ≡ [] }
        requires room { 0 < self.old.rooms.events }
        requires above { self.old.clock < stamp }
        requires bound { stamp ≤ 2 ^ 62 }
        ensures clock { self.new.clock ≡ stamp }
        ensures same { self.new ≡ wrote (holding self.old (looked self.old.held unit.value.owned asks.cancel (option_map (λ (p : PoolNo). p.0) asks.migrate))) (what.Look (unit_no unit.value.owned.number)) stamp self.new.rooms }
    {
        let number = name(&unit);
        self.goes(unit, asks);
        self.write(stamp, What::Look(number));
    }

    // Where the unit goes by what was asked of it: a cancel goes before a migrate.
    #[inline(always)]
    fn goes(&mut self, mut unit: Box<Unit>, asks: Asks)
        requires free { IsFree unit.value }
        requires hand { self.old.held.hand ≡ None }
        requires next { self.old.held.next ≡ None }
        requires order { self.old.order ≡ [] }
        ensures looked { self.new ≡ record self.old { held = looked self.old.held unit.value.owned asks.cancel (option_map (λ (p : PoolNo). p.0) asks.migrate); rooms = self.new.rooms } }
        ensures room { self.new.rooms.events ≡ self.old.rooms.events }
    {
        if asks.cancel {
            self.mark = Mark::Asked;
            self.current.fill(Current::Running(unit));
        } else {
            match asks.migrate {
                Some(p) => {
                    unit.set_home(p);
                    self.tray.push_back(unit);
                }
                None => {
                    self.mark = Mark::Plain;
                    self.current.fill(Current::Running(unit));
                }
            }
        }
    }
}
