//! Without a unit: the top frame is left, or a pool is visited.

ghost use Rattle.std.specs.Prelude.{◌≡◌, ◌<◌, ◌≤◌, ◌+◌, ◌-◌, ◌^◌, [], slice_get, false, ◌⊎◌, IsTrue, IsFalse, true, None, Some, length, ◌≢◌, List};
ghost use Rattle.abt_machine.specs.declared.events.What.TheVariants as what;
ghost use Rattle.abt_machine.specs.Numbers.{unit_no};
ghost use Rattle.abt_machine.specs.Fronts.{side_of};
ghost use Rattle.abt_commons.specs.Acts.{IsFreeAnswer, answer_of};
ghost use Rattle.abt_stream.specs.Streams.{FitsShapes, FitsStream, IsIdle};
ghost use Rattle.abt_stream.specs.Heeding.{Heeds};
ghost use Rattle.abt_stream.specs.Turned.{IsReady, Turned};
ghost use Rattle.abt_machine.specs.Stored.{Stored};
ghost use Rattle.abt_machine.specs.Valid.{IsValid};
ghost use Rattle.abt_plans.specs.Hearing.{IsForTaker};
ghost use Rattle.abt_unit.specs.Units.{IsFree};
ghost use Rattle.abt_stream.specs.Events.{LeaveBy, VisitBy, VisitedBy, emptied, passed, took, wrote};
ghost use Rattle.abt_stream.specs.Keeping.{KeepsStream};

use super::{LAST, Stream};
use crate::parts::Current;
use crate::turns::Turn;
use crate::units::name;
use abt_commons::{Act, Answer, Commons, Reply};
use abt_machine::{PoolNo, Side, Site, What, Workload};
use abt_plans::{Mark, side};
use abt_unit::Unit;

impl Stream {
    // Without a unit: the top frame is left, or a pool is visited.
    #[tactic(auto, using(crate::proofs::Stacks::visited_declared))]
    #[inline(always)]
    pub(super) fn idle<'w, C: Commons<'w>>(
        &mut self,
        commons: &C,
        pass: &mut C::Pass,
        w: &Workload,
    ) -> Turn
        requires pass { C.is_of commons.now pass.old }
        requires w { C.workload commons.now ≡ w.now }
        requires valid { IsValid w.now }
        requires fits { FitsStream w.now self.old }
        requires ready { IsReady w.now self.old }
        requires idle { IsIdle self.old }
        ensures turned { (Z : Stored) → FitsShapes w.now Z self.old → Turned (Heeds (C.moves commons.now) (C.workload commons.now)) w.now Z self.old pass.old result self.new pass.new }
        ensures pass { C.is_of commons.now pass.new }
        ensures number { C.number pass.new ≡ C.number pass.old }
        ensures keeps { KeepsStream w.now self.old self.new }
        ensures fits { FitsStream w.now self.new }
    {
        if self.leaves() {
            return self.leave();
        }
        let p = self.next_pool();
        let side = side(w, self.number, p);
        self.visit(commons, pass, p, side)
    }

    // Whether the top frame is left: it is stacked, and its round ended empty.
    fn leaves(&self) -> bool
        ensures leaves { IsTrue result → (self.now.top.empty ≡ true) × (self.now.below ≢ []) }
        ensures framed { IsTrue result → self.now.held.framed ≢ [] }
        ensures stays { IsFalse result → (self.now.top.empty ≡ false) ⊎ (self.now.below ≡ []) }
    {
        self.top.empty && !self.below.is_empty()
    }

    // The top frame is left: its unit is in the hand again.
    #[tactic(auto, using(crate::proofs::Stacks::stacked))]
    fn leave(&mut self) -> Turn
        requires below { self.old.below ≢ [] }
        requires hand { self.old.held.hand ≡ None }
        requires next { self.old.held.next ≡ None }
        requires events { 0 < self.old.rooms.events }
        ensures { LeaveBy self.old result self.new }
    {
        if self.clock == LAST {
            return Turn::Worn;
        }
        match self.below.pop() {
            None => unreachable!(),
            Some(frame) => match self.framed.pop() {
                None => unreachable!(),
                Some(unit) => {
                    let number = name(&unit);
                    self.top = frame;
                    self.begun = false;
                    self.stands = false;
                    self.at = 0;
                    self.mark = Mark::Left;
                    self.current = Current::Running(unit);
                    self.write(self.clock + 1, What::Leave(number));
                    Turn::Moved
                }
            },
        }
    }

    // The pool that the round visits next.
    #[inline(always)]
    fn next_pool(&self) -> PoolNo
        requires { self.now.at < length self.now.order }
        ensures { slice_get self.now.order self.now.at ≡ Some result }
    {
        self.order[self.at]
    }

    // A pool is asked for a unit.
    #[tactic(auto, using(crate::proofs::Calls::take_may, crate::proofs::Answered::for_taker))]
    #[inline(always)]
    fn visit<'w, C: Commons<'w>>(
        &mut self,
        commons: &C,
        pass: &mut C::Pass,
        p: PoolNo,
        side: Side,
    ) -> Turn
        requires pass { C.is_of commons.now pass.old }
        requires pool { p.0 < length (C.workload commons.now).pools }
        requires side { side ≡ side_of (C.workload commons.now) self.old.number.0 p.0 }
        requires hand { self.old.held.hand ≡ None }
        requires next { self.old.held.next ≡ None }
        requires at { slice_get self.old.order self.old.at ≡ Some p }
        requires few { self.old.top.round < 2 ^ 64 - 1 }
        requires place { self.old.at < length self.old.order }
        requires room { 0 < self.old.rooms.events }
        ensures visit { VisitBy (Heeds (C.moves commons.now) (C.workload commons.now)) self.old pass.old p side result self.new pass.new }
        ensures pass { C.is_of commons.now pass.new }
        ensures number { C.number pass.new ≡ C.number pass.old }
    {
        match commons.call(pass, Site::Pool(p), self.clock, Act::Take(side)) {
            Reply::Done { stamp, answer } => self.visited(stamp, p, answer),
            Reply::Worn(_) => Turn::Worn,
        }
    }

    // What the pool answers.
    #[inline(always)]
    fn visited(&mut self, stamp: u64, p: PoolNo, answer: Answer) -> Turn
        requires answer { IsForTaker (answer_of answer) }
        requires free { IsFreeAnswer answer }
        requires hand { self.old.held.hand ≡ None }
        requires next { self.old.held.next ≡ None }
        requires at { slice_get self.old.order self.old.at ≡ Some p }
        requires few { self.old.top.round < 2 ^ 64 - 1 }
        requires place { self.old.at < length self.old.order }
        requires room { 0 < self.old.rooms.events }
        requires above { self.old.clock < stamp }
        requires bound { stamp ≤ 2 ^ 62 }
        ensures clock { self.new.clock ≡ stamp }
        ensures visited { VisitedBy self.old p (answer_of answer) result self.new }
    {
        match answer {
            Answer::Given(unit) => {
                self.took(stamp, p, unit);
                Turn::Moved
            }
            Answer::Miss => {
                if self.at + 1 == self.order.len() {
                    self.emptied(stamp, p);
                    return Turn::EmptyRound;
                }
                self.passed(stamp, p);
                Turn::Moved
            }
            _ => unreachable!(),
        }
    }

    // A unit was taken, which ends the round.
    #[inline(always)]
    fn took(&mut self, stamp: u64, p: PoolNo, unit: Box<Unit>)
        requires free { IsFree unit.value }
        requires hand { self.old.held.hand ≡ None }
        requires next { self.old.held.next ≡ None }
        requires few { self.old.top.round < 2 ^ 64 - 1 }
        requires room { 0 < self.old.rooms.events }
        requires above { self.old.clock < stamp }
        requires bound { stamp ≤ 2 ^ 62 }
        ensures clock { self.new.clock ≡ stamp }
        ensures same { self.new ≡ wrote (took self.old unit.value.owned) (what.Take p (unit_no unit.value.owned.number)) stamp self.new.rooms }
    {
        let number = name(&unit);
        self.current.fill(Current::Taken(unit));
        self.top.round += 1;
        self.top.empty = false;
        self.begun = false;
        self.at = 0;
        self.write(stamp, What::Take(p, number));
    }

    // A pool was missed, and the round goes on.
    #[tactic(auto, using(crate::proofs::Stacks::seen_more))]
    fn passed(&mut self, stamp: u64, p: PoolNo)
        requires at { slice_get self.old.order self.old.at ≡ Some p }
        requires more { self.old.at + 1 < length self.old.order }
        requires room { 0 < self.old.rooms.events }
        requires above { self.old.clock < stamp }
        requires bound { stamp ≤ 2 ^ 62 }
        ensures clock { self.new.clock ≡ stamp }
        ensures same { self.new ≡ wrote (passed self.old p) (what.Miss p) stamp self.new.rooms }
    {
        self.top.empty = false;
        self.at += 1;
        self.write(stamp, What::Miss(p));
    }

    // The last pool was missed, and the round ends empty.
    fn emptied(&mut self, stamp: u64, p: PoolNo)
        requires few { self.old.top.round < 2 ^ 64 - 1 }
        requires room { 0 < self.old.rooms.events }
        requires above { self.old.clock < stamp }
        requires bound { stamp ≤ 2 ^ 62 }
        ensures clock { self.new.clock ≡ stamp }
        ensures same { self.new ≡ wrote (emptied self.old) (what.Miss p) stamp self.new.rooms }
    {
        self.top.round += 1;
        self.top.empty = true;
        self.begun = false;
        self.at = 0;
        self.write(stamp, What::Miss(p));
    }
}
