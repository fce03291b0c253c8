//! A step, by the shape of the call that it makes.

ghost use Rattle.std.specs.Prelude.{◌≡◌, ◌<◌, ◌≤◌, ◌^◌, [], ◌∷◌, IsSome, None, Some};
ghost use Rattle.abt_machine.specs.declared.events.Code.TheVariants as code;
ghost use Rattle.abt_machine.specs.Plans.{empties, refusal, to_caller, to_yielder};
ghost use Rattle.abt_machine.specs.Acts.{carrying, moved};
ghost use Rattle.abt_machine.specs.Acts as asks;
ghost use Rattle.abt_calls.specs.Asking.{MayCall};
ghost use Rattle.abt_calls.specs.Suits.{Suits};
ghost use Rattle.abt_commons.specs.Acts.{IsFreeAnswer, answer_of};
ghost use Rattle.abt_plans.specs.Acts.{asked, brought, given, told};
ghost use Rattle.abt_plans.specs.Hearing.{IsForCaller, IsForYielder};
ghost use Rattle.abt_machine.specs.Numbers.{unit_no};
ghost use Rattle.abt_stream.specs.declared.parts.Current.TheVariants as currents;
ghost use Rattle.abt_stream.specs.Heeding.{Heeds};
ghost use Rattle.abt_stream.specs.Streams.{hand_of};
ghost use Rattle.abt_unit.specs.Units.{IsFree};
ghost use Rattle.abt_unit.specs.Fits.{Fits};
ghost use Rattle.abt_unit.specs.Local.{IsLocal, back};
ghost use Rattle.abt_stream.specs.Events.{IfHeld, CallBy, CanStep, ExitBy, OwnBy, StepsAlone, StepsBy, after_step, step_of, wrote};

use super::{LAST, Stream};
use crate::hearing;
use crate::parts::Current;
use crate::turns::Turn;
use crate::units::name;
use abt_commons::{Answer, Commons, Reply};
use abt_machine::{Code, Returned, Site, UnitNo, What, Workload};
use abt_plans::{Asking, Giving, Mark};
use abt_unit::Unit;
use abt_work::Work;
use std::mem;

impl Stream {
    // A local operation of the unit in hand.
    #[inline(always)]
    pub(super) fn own(&mut self, w: &Workload) -> Turn
        requires can { CanStep self.old }
        requires fits { IfHeld self.old.held.hand (Fits w.now) }
        requires local { IfHeld self.old.held.hand (IsLocal w.now) }
        ensures { IfHeld self.old.held.hand (OwnBy w.now self.old result self.new) }
    {
        if self.clock == LAST {
            return Turn::Worn;
        }
        let (mut unit, number, at) = running(mem::replace(&mut self.current, Current::Idle));
        unit.step_local(w);
        self.current.fill(Current::Running(unit));
        self.write_step(self.clock + 1, number, at, Code::Ok);
        Turn::Stepped
    }

    // The unit in hand calls a function of the user's, and receives what it returns.
    pub(super) fn call<P: Work>(&mut self, work: &P, function: u32) -> Turn
        requires can { CanStep self.old }
        requires stored { function < P.count work.now }
        ensures { IfHeld self.old.held.hand (CallBy (P.returns work.now function) self.old result self.new) }
    {
        if self.clock == LAST {
            return Turn::Worn;
        }
        let (mut unit, number, at) = running(mem::replace(&mut self.current, Current::Idle));
        let value = work.call(function, number, unit.acc(), unit.keys());
        unit.advance();
        unit.receive(value);
        self.current = Current::Running(unit);
        self.count_step(self.clock + 1, What::Call(number, at, Returned::new(value)));
        Turn::Stepped
    }

    // The unit in hand yields.
    #[inline(always)]
    pub(super) fn yields(&mut self) -> Turn
        requires can { CanStep self.old }
        ensures { IfHeld self.old.held.hand (λ o. StepsAlone self.old (empties (moved o ∷ [])) result self.new o) }
    {
        if self.clock == LAST {
            return Turn::Worn;
        }
        let (mut unit, number, at) = running(mem::replace(&mut self.current, Current::Idle));
        unit.advance();
        self.tray.push_back(unit);
        self.write_step(self.clock + 1, number, at, Code::Ok);
        Turn::Stepped
    }

    // The unit in hand ends itself: it stays there, to be ended.
    pub(super) fn exits(&mut self) -> Turn
        requires can { CanStep self.old }
        ensures { IfHeld self.old.held.hand (ExitBy self.old result self.new) }
    {
        if self.clock == LAST {
            return Turn::Worn;
        }
        let (mut unit, number, at) = running(mem::replace(&mut self.current, Current::Idle));
        unit.advance();
        self.current = Current::Running(unit);
        self.mark = Mark::Exited;
        self.write_step(self.clock + 1, number, at, Code::Ok);
        Turn::Stepped
    }

    // The unit in hand names a pool that the stream must not reach.
    pub(super) fn deny(&mut self) -> Turn
        requires can { CanStep self.old }
        ensures { IfHeld self.old.held.hand (λ o. StepsAlone self.old (refusal o code.PoolAccess) result self.new o) }
    {
        if self.clock == LAST {
            return Turn::Worn;
        }
        let (mut unit, number, at) = running(mem::replace(&mut self.current, Current::Idle));
        hearing::refuse(&mut unit, Code::PoolAccess);
        self.current = Current::Running(unit);
        self.write_step(self.clock + 1, number, at, Code::PoolAccess);
        Turn::Stepped
    }

    // A call that does not take the unit in hand with it.
    #[inline(always)]
    pub(super) fn ask<'w, C: Commons<'w>>(
        &mut self,
        commons: &C,
        pass: &mut C::Pass,
        site: Site,
        asking: Asking,
    ) -> Turn
        requires pass { C.is_of commons.now pass.old }
        requires can { CanStep self.old }
        requires may { MayCall (C.workload commons.now) site (asked asking) }
        ensures step { IfHeld self.old.held.hand (λ o. StepsBy (Heeds (C.moves commons.now) (C.workload commons.now)) self.old pass.old site (asked asking) (told asking o) result self.new pass.new o) }
        ensures pass { C.is_of commons.now pass.new }
        ensures number { C.number pass.new ≡ C.number pass.old }
    {
        match commons.call(pass, site, self.clock, hearing::ask(asking)) {
            Reply::Done { stamp, answer } => {
                self.heard(asking, stamp, answer);
                Turn::Stepped
            }
            Reply::Worn(_) => Turn::Worn,
        }
    }

    // What it is answered.
    #[inline(always)]
    fn heard(&mut self, asking: Asking, stamp: u64, answer: Answer)
        requires can { CanStep self.old }
        requires answer { Suits (asked asking) (answer_of answer) }
        requires free { IsFreeAnswer answer }
        requires above { self.old.clock < stamp }
        requires bound { stamp ≤ 2 ^ 62 }
        ensures clock { self.new.clock ≡ stamp }
        ensures same { IfHeld self.old.held.hand (λ o. self.new ≡ wrote (after_step self.old (told asking o (answer_of answer))) (step_of o (told asking o (answer_of answer)).code) stamp self.new.rooms) }
    {
        match asking {
            Asking::Remove(_) => self.answered(stamp, answer),
            _ => self.called(stamp, answer),
        }
    }

    // What a unit that goes on is answered.
    fn called(&mut self, stamp: u64, answer: Answer)
        requires can { CanStep self.old }
        requires answer { IsForCaller (answer_of answer) }
        requires free { IsFreeAnswer answer }
        requires above { self.old.clock < stamp }
        requires bound { stamp ≤ 2 ^ 62 }
        ensures clock { self.new.clock ≡ stamp }
        ensures same { IfHeld self.old.held.hand (λ o. self.new ≡ wrote (after_step self.old (to_caller o (answer_of answer))) (step_of o (to_caller o (answer_of answer)).code) stamp self.new.rooms) }
    {
        let (mut unit, number, at) = running(mem::replace(&mut self.current, Current::Idle));
        let code = hearing::hear(&mut unit, &mut self.tray, answer);
        self.current.fill(Current::Running(unit));
        self.write_step(stamp, number, at, code);
    }

    // What a unit that yields to another is answered.
    fn answered(&mut self, stamp: u64, answer: Answer)
        requires can { CanStep self.old }
        requires answer { IsForYielder (answer_of answer) }
        requires free { IsFreeAnswer answer }
        requires above { self.old.clock < stamp }
        requires bound { stamp ≤ 2 ^ 62 }
        ensures clock { self.new.clock ≡ stamp }
        ensures same { IfHeld self.old.held.hand (λ o. self.new ≡ wrote (after_step self.old (to_yielder o (answer_of answer))) (step_of o (to_yielder o (answer_of answer)).code) stamp self.new.rooms) }
    {
        match answer {
            Answer::Given(other) => self.yielded(stamp, other),
            Answer::Code(code) => self.refused(stamp, code),
            _ => unreachable!(),
        }
    }

    // The other unit is taken.
    fn yielded(&mut self, stamp: u64, other: Box<Unit>)
        requires can { CanStep self.old }
        requires free { IsFree other.value }
        requires above { self.old.clock < stamp }
        requires bound { stamp ≤ 2 ^ 62 }
        ensures clock { self.new.clock ≡ stamp }
        ensures same { IfHeld self.old.held.hand (λ o. self.new ≡ wrote (after_step self.old (to_yielder o (asks.Given other.value.owned))) (step_of o (to_yielder o (asks.Given other.value.owned)).code) stamp self.new.rooms) }
    {
        let (mut unit, number, at) = running(mem::replace(
            &mut self.current,
            Current::Taken(other),
        ));
        unit.advance();
        self.tray.push_back(unit);
        self.write_step(stamp, number, at, Code::Ok);
    }

    // The operation of the unit in hand is refused.
    fn refused(&mut self, stamp: u64, code: Code)
        requires can { CanStep self.old }
        requires above { self.old.clock < stamp }
        requires bound { stamp ≤ 2 ^ 62 }
        ensures clock { self.new.clock ≡ stamp }
        ensures same { IfHeld self.old.held.hand (λ o. self.new ≡ wrote (after_step self.old (to_yielder o (asks.Coded code))) (step_of o (to_yielder o (asks.Coded code)).code) stamp self.new.rooms) }
    {
        let (mut unit, number, at) = running(mem::replace(&mut self.current, Current::Idle));
        hearing::refuse(&mut unit, code);
        self.current = Current::Running(unit);
        self.write_step(stamp, number, at, code);
    }

    // A call that takes the unit in hand with it.
    #[tactic(auto, using(crate::proofs::Answered::handing))]
    #[inline(always)]
    pub(super) fn give<'w, C: Commons<'w>>(
        &mut self,
        commons: &C,
        pass: &mut C::Pass,
        site: Site,
        giving: Giving,
    ) -> Turn
        requires pass { C.is_of commons.now pass.old }
        requires can { CanStep self.old }
        requires may { IfHeld self.old.held.hand (λ o. MayCall (C.workload commons.now) site (given giving (moved o))) }
        ensures step { IfHeld self.old.held.hand (λ o. StepsBy (Heeds (C.moves commons.now) (C.workload commons.now)) self.old pass.old site (given giving (moved o)) (brought giving) result self.new pass.new o) }
        ensures pass { C.is_of commons.now pass.new }
        ensures number { C.number pass.new ≡ C.number pass.old }
    {
        let (mut unit, number, at) = running(mem::replace(&mut self.current, Current::Idle));
        unit.advance();
        let act = hearing::give(giving, unit);
        match commons.call(pass, site, self.clock, act) {
            Reply::Done { stamp, answer } => {
                let (current, code) = hearing::returned(giving, &mut self.tray, answer);
                self.current.fill(current);
                self.write_step(stamp, number, at, code);
                Turn::Stepped
            }
            Reply::Worn(act) => {
                self.take_back(hearing::given(act));
                Turn::Worn
            }
        }
    }

    // The unit that went with an act to a worn clock is in the hand again, at the same operation.
    fn take_back(&mut self, mut unit: Box<Unit>)
        requires free { IsFree unit.value }
        requires position { 0 < unit.value.owned.carried.position }
        requires hand { self.old.held.hand ≡ None }
        requires next { self.old.held.next ≡ None }
        requires order { self.old.order ≡ [] }
        ensures { self.new ≡ record self.old { held = record self.old.held { hand = Some (carrying back unit.value.owned) }; rooms = record self.old.rooms { output = unit.value.spare } } }
    {
        unit.retreat();
        self.current = Current::Running(unit);
    }
}

// The unit that runs, its number and its position.
#[inline(always)]
fn running(current: Current) -> (Box<Unit>, UnitNo, u32)
    requires { IsSome (hand_of current) }
    ensures unit { current ≡ currents.Running result.0 }
    ensures number { result.1 ≡ unit_no result.0.value.owned.number }
    ensures position { result.2 ≡ result.0.value.owned.carried.position }
{
    match current {
        Current::Running(unit) => {
            let number = name(&unit);
            let at = unit.position();
            (unit, number, at)
        }
        _ => unreachable!(),
    }
}
