//! The unit in hand ends, goes on top as a scheduler, or makes a step.

ghost use Rattle.std.specs.Prelude.{◌≡◌, ◌<◌, ◌≤◌, ◌^◌, [], ◌++◌, IfSome, IsSome, None, Some, length, List};
ghost use Rattle.abt_machine.specs.declared.events.What.TheVariants as what;
ghost use Rattle.abt_plans.specs.Dues.{DueIs};
ghost use Rattle.abt_stream.specs.Heeding.{Heeds};
ghost use Rattle.abt_stream.specs.Turned.{IsReady, Turned};
ghost use Rattle.abt_machine.specs.declared.operations.Op.TheVariants as ops;
ghost use Rattle.abt_machine.specs.Stored.{CallsStored, IsNoCall, Stored};
ghost use Rattle.abt_machine.specs.Operations.{IsDeclared};
ghost use Rattle.abt_machine.specs.Workloads.{op_at};
ghost use Rattle.abt_machine.specs.Valid.{IsValid};
ghost use Rattle.abt_unit.specs.Fits.{Fits};
ghost use Rattle.abt_stream.specs.Events.{IfHeld, EndBy, CanStep, EnterBy, holding, wrote};
ghost use Rattle.abt_plans.specs.Shapes.{IsPlan};
ghost use Rattle.abt_stream.specs.Keeping.{KeepsStream};
ghost use Rattle.abt_stream.specs.Operated.{OpBy};

use super::{LAST, Stream};
use crate::parts::{Current, Frame};
use crate::turns::Turn;
use crate::units::name;
use abt_chain::Chain;
use abt_commons::{Act, Answer, Commons, Reply};
use abt_machine::{Cause, Op, SchedNo, Site, StreamNo, UnitNo, What, Workload};
use abt_order::Scheduler;
use abt_plans::{HandDue, Plan, hand_due, planned};
use abt_unit::Unit;
use abt_work::Work;
use std::mem;

impl Stream {
    // The unit in hand goes on, or ends.
    #[inline(always)]
    pub(super) fn run<'w, C: Commons<'w>, P: Work>(
        &mut self,
        commons: &C,
        pass: &mut C::Pass,
        w: &Workload,
        work: &P,
    ) -> Turn
        requires pass { C.is_of commons.now pass.old }
        requires w { C.workload commons.now ≡ w.now }
        requires valid { IsValid w.now }
        requires stored { CallsStored w.now (P.count work.now) }
        requires stream { self.old.number.0 < w.now.streams }
        requires ready { IsReady w.now self.old }
        requires tray { self.old.held.tray ≡ [] }
        requires next { self.old.held.next ≡ None }
        requires fits { IfHeld self.old.held.hand (Fits w.now) }
        requires order { self.old.order ≡ [] }
        ensures turned { (Z : Stored) → Z.returns ≡ P.returns work.now → Turned (Heeds (C.moves commons.now) (C.workload commons.now)) w.now Z self.old pass.old result self.new pass.new }
        ensures pass { C.is_of commons.now pass.new }
        ensures number { C.number pass.new ≡ C.number pass.old }
        ensures keeps { KeepsStream w.now self.old self.new }
    {
        match self.hand_due(w) {
            HandDue::End(cause) => self.end(commons, pass, cause),
            HandDue::Enter(g) => self.enter(w, g),
            HandDue::Step(op) => {
                if !self.may_step() {
                    return Turn::Spent;
                }
                self.announce(commons, pass, work);
                match called(op) {
                    Some(function) => {
                        commons.rest(pass);
                        self.call(work, function)
                    }
                    None => self.operate(commons, pass, w, op),
                }
            }
        }
    }

    // What is due for the unit in hand.
    #[inline(always)]
    pub(super) fn hand_due(&self, w: &Workload) -> HandDue
        requires valid { IsValid w.now }
        requires stream { self.now.number.0 < w.now.streams }
        requires fits { IfHeld self.now.held.hand (Fits w.now) }
        ensures { IfHeld self.now.held.hand (λ o. DueIs w.now self.now.number.0 self.now.held.own.mark o.number o.carried.position result) }
    {
        match &self.current {
            Current::Running(unit) => {
                hand_due(w, self.number, self.mark, unit.number(), unit.position())
            }
            _ => unreachable!(),
        }
    }

    // The unit in hand ends.
    #[tactic(auto, using(crate::proofs::Calls::end_may))]
    fn end<'w, C: Commons<'w>>(&mut self, commons: &C, pass: &mut C::Pass, cause: Cause) -> Turn
        requires pass { C.is_of commons.now pass.old }
        requires hand { IfHeld self.old.held.hand (Fits (C.workload commons.now)) }
        requires room { 0 < self.old.rooms.events }
        ensures end { IfHeld self.old.held.hand (EndBy (Heeds (C.moves commons.now) (C.workload commons.now)) self.old pass.old cause result self.new pass.new) }
        ensures pass { C.is_of commons.now pass.new }
        ensures number { C.number pass.new ≡ C.number pass.old }
    {
        match mem::replace(&mut self.current, Current::Idle) {
            Current::Running(unit) => {
                let number = name(&unit);
                match commons.call(pass, Site::Desk(number), self.clock, Act::End(unit, cause)) {
                    Reply::Done { stamp, answer } => {
                        match answer {
                            Answer::Woke(woken) => self.ended(stamp, number, cause, woken),
                            _ => unreachable!(),
                        }
                        Turn::Moved
                    }
                    Reply::Worn(act) => {
                        match act {
                            Act::End(unit, _) => self.current = Current::Running(unit),
                            _ => unreachable!(),
                        }
                        Turn::Worn
                    }
                }
            }
            _ => unreachable!(),
        }
    }

    // A unit has ended, and those that joined it are woken.
    fn ended(&mut self, stamp: u64, number: UnitNo, cause: Cause, mut woken: Chain)
        requires room { 0 < self.old.rooms.events }
        requires above { self.old.clock < stamp }
        requires bound { stamp ≤ 2 ^ 62 }
        ensures clock { self.new.clock ≡ stamp }
        ensures same { self.new ≡ wrote (holding self.old (record self.old.held { tray = self.old.held.tray ++ woken.units })) (what.End number cause) stamp self.new.rooms }
    {
        woken.drain_into(&mut self.tray);
        self.write(stamp, What::End(number, cause));
    }

    // The scheduler unit in hand runs on top.
    #[tactic(auto, using(crate::proofs::Stacks::stacked))]
    fn enter(&mut self, w: &Workload, g: SchedNo) -> Turn
        requires sched { g.0 < length w.now.scheds }
        requires hand { IsSome self.old.held.hand }
        requires order { self.old.order ≡ [] }
        requires events { 0 < self.old.rooms.events }
        requires frames { 0 < self.old.rooms.frames }
        requires units { 0 < self.old.rooms.units }
        ensures { IfHeld self.old.held.hand (EnterBy w.now g.0 self.old result self.new) }
    {
        if self.clock == LAST {
            return Turn::Worn;
        }
        match mem::replace(&mut self.current, Current::Idle) {
            Current::Running(unit) => {
                let number = name(&unit);
                let frame = Frame {
                    scheduler: Scheduler::new(w, g),
                    round: 0,
                    empty: false,
                };
                self.below.push_reserved(mem::replace(&mut self.top, frame));
                self.stands = false;
                self.framed.push_reserved(unit);
                self.write(self.clock + 1, What::Enter(number));
                Turn::Moved
            }
            _ => unreachable!(),
        }
    }

    // The operation of the unit in hand, which is no call of the user's.
    #[inline(always)]
    fn operate<'w, C: Commons<'w>>(
        &mut self,
        commons: &C,
        pass: &mut C::Pass,
        w: &Workload,
        op: Op,
    ) -> Turn
        requires pass { C.is_of commons.now pass.old }
        requires w { C.workload commons.now ≡ w.now }
        requires valid { IsValid w.now }
        requires stream { self.old.number.0 < w.now.streams }
        requires can { CanStep self.old }
        requires fits { IfHeld self.old.held.hand (Fits w.now) }
        requires at { IfHeld self.old.held.hand (λ o. op_at w.now o.number o.carried.position ≡ Some op) }
        requires declared { IsDeclared w.now op }
        ensures step { IfHeld self.old.held.hand (OpBy (Heeds (C.moves commons.now) (C.workload commons.now)) w.now self.old pass.old op result self.new pass.new) }
        ensures pass { C.is_of commons.now pass.new }
        ensures number { C.number pass.new ≡ C.number pass.old }
    {
        let plan = self.plan(w, op);
        self.step(commons, pass, w, plan, op)
    }

    // The step is about to come. Where that is told to the user, the pass rests before.
    #[inline(always)]
    fn announce<'w, C: Commons<'w>, P: Work>(&self, commons: &C, pass: &mut C::Pass, work: &P)
        requires hand { IsSome self.now.held.hand }
        requires pass { C.is_of commons.now pass.old }
        ensures same { pass.new ≡ pass.old }
    {
        if work.watches() {
            commons.rest(pass);
        }
        match &self.current {
            Current::Running(unit) => {
                work.before_step(self.number, unit.number(), unit.position());
            }
            _ => unreachable!(),
        }
    }

    // What the operation of the unit in hand asks of the stream.
    #[inline(always)]
    fn plan(&self, w: &Workload, op: Op) -> Plan
        requires valid { IsValid w.now }
        requires stream { self.now.number.0 < w.now.streams }
        requires hand { IsSome self.now.held.hand }
        requires declared { IsDeclared w.now op }
        ensures { IfHeld self.now.held.hand (λ o. IsPlan w.now self.now.number.0 op o result) }
    {
        match &self.current {
            Current::Running(unit) => plan_for(w, self.number, op, unit),
            _ => unreachable!(),
        }
    }

    // The operation of the unit in hand, as it is planned.
    #[tactic(auto, using(crate::proofs::Operated::operations))]
    #[inline(always)]
    fn step<'w, C: Commons<'w>>(
        &mut self,
        commons: &C,
        pass: &mut C::Pass,
        w: &Workload,
        plan: Plan,
        op: Op,
    ) -> Turn
        requires pass { C.is_of commons.now pass.old }
        requires w { C.workload commons.now ≡ w.now }
        requires valid { IsValid w.now }
        requires can { CanStep self.old }
        requires fits { IfHeld self.old.held.hand (Fits w.now) }
        requires at { IfHeld self.old.held.hand (λ o. op_at w.now o.number o.carried.position ≡ Some op) }
        requires plan { IfHeld self.old.held.hand (λ o. IsPlan w.now self.old.number.0 op o plan) }
        ensures step { IfHeld self.old.held.hand (OpBy (Heeds (C.moves commons.now) (C.workload commons.now)) w.now self.old pass.old op result self.new pass.new) }
        ensures pass { C.is_of commons.now pass.new }
        ensures number { C.number pass.new ≡ C.number pass.old }
    {
        match &self.current {
            Current::Running(_) => match plan {
                Plan::Own => self.own(w),
                Plan::Yield => self.yields(),
                Plan::Exit => self.exits(),
                Plan::Deny => self.deny(),
                Plan::Ask(site, asking) => self.ask(commons, pass, site, asking),
                Plan::Give(site, giving) => self.give(commons, pass, site, giving),
            },
            _ => unreachable!(),
        }
    }
}

// The function that the operation calls, if it calls one.
fn called(op: Op) -> Option<u32>
    ensures some { IfSome result (λ f. op ≡ ops.Call f) }
    ensures none { result ≡ None → IsNoCall (Some op) }
{
    match op {
        Op::Call(function) => Some(function),
        _ => None,
    }
}

// What stream s does at the operation of a unit.
#[inline(always)]
fn plan_for(w: &Workload, s: StreamNo, op: Op, unit: &Unit) -> Plan
    requires valid { IsValid w.now }
    requires stream { s.0 < w.now.streams }
    requires declared { IsDeclared w.now op }
    ensures { IsPlan w.now s.0 op unit.now.owned result }
{
    planned(w, s, op, unit.number(), unit.acc())
}
