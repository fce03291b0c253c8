//! Steps of the unit in hand.

ghost use Rattle.std.specs.Prelude.{◌≡◌, ◌<◌, ◌-◌, ◌^◌, IfOk, IsSome, None, Some, [], ◌∷◌, length};
ghost use Rattle.abt_calls.specs.Allowed.{Allows};
ghost use Rattle.abt_calls.specs.Suits.{Suits};
ghost use Rattle.abt_replay.specs.Acts.{answer_of};
ghost use Rattle.abt_replay.specs.Events.{Alone, AreObjects, Asked, Operated, OwnExit, OwnStep};
ghost use Rattle.abt_replay.specs.Objects.{object_at};
ghost use Rattle.abt_machine.specs.declared.events.Code.TheVariants as code;
ghost use Rattle.abt_machine.specs.Acts.{moved};
ghost use Rattle.abt_machine.specs.Operations.{IsDeclared};
ghost use Rattle.abt_machine.specs.Plans.{empties, refusal, to_caller, to_yielder};
ghost use Rattle.abt_machine.specs.Valid.{IsValid};
ghost use Rattle.abt_machine.specs.Workloads.{op_at};
ghost use Rattle.abt_plans.specs.Acts.{asked, brought, given, told};
ghost use Rattle.abt_plans.specs.Hearing.{IsForCaller, IsForYielder};
ghost use Rattle.abt_plans.specs.Shapes.{IsPlan};
ghost use Rattle.abt_unit.specs.Local.{after_local};

use super::Lane;
use crate::acts::Answer;
use crate::hearing;
use crate::objects::Objects;
use crate::unit::Unit;
use abt_machine::{Code, Op, Site, StreamNo, Want, Workload};
use abt_plans::{Asking, Giving, Mark, Plan, planned};

impl Lane {
    /// An operation of the unit in hand.
    #[tactic(auto, using(crate::proofs::Operating::operations))]
    pub(super) fn step(
        &mut self,
        objects: &mut Objects,
        w: &Workload,
        s: StreamNo,
        op: Op,
        unit: Unit,
    ) -> Result<Code, Want>
        requires valid { IsValid w.now }
        requires stream { s.0 < w.now.streams }
        requires number { unit.number < length w.now.units }
        requires at { op_at w.now unit.number unit.carried.position ≡ Some op }
        requires objects { AreObjects w.now objects.old }
        requires hand { self.old.hand ≡ None }
        requires next { self.old.next ≡ None }
        ensures { IfOk result (λ c. Operated w.now s.0 op unit self.old objects.old c self.new objects.new) }
    {
        match plan(w, s, op, &unit) {
            Plan::Own => self.own(op, unit),
            Plan::Yield => self.yields(unit),
            Plan::Exit => Ok(self.exits(unit)),
            Plan::Deny => self.deny(unit),
            Plan::Ask(site, asking) => self.ask(objects, site, asking, unit),
            Plan::Give(site, giving) => self.give(objects, site, giving, unit),
        }
    }

    // A local operation.
    fn own(&mut self, op: Op, mut unit: Unit) -> Result<Code, Want>
        requires local { IsSome (after_local op unit.carried) }
        requires position { unit.carried.position < 2 ^ 32 - 1 }
        requires next { self.old.next ≡ None }
        ensures { IfOk result (λ c. OwnStep op unit self.old c self.new) }
    {
        unit.step(op)?;
        self.hand = Some(unit);
        Ok(Code::Ok)
    }

    // The unit yields.
    fn yields(&mut self, mut unit: Unit) -> Result<Code, Want>
        requires position { unit.carried.position < 2 ^ 32 - 1 }
        requires hand { self.old.hand ≡ None }
        requires next { self.old.next ≡ None }
        ensures { IfOk result (λ c. Alone (empties (moved unit ∷ [])) self.old c self.new) }
    {
        unit.advance();
        self.tray.push_back(unit)?;
        Ok(Code::Ok)
    }

    // The unit ends itself: it stays in the hand, to be ended.
    fn exits(&mut self, mut unit: Unit) -> Code
        requires position { unit.carried.position < 2 ^ 32 - 1 }
        requires next { self.old.next ≡ None }
        ensures { OwnExit unit self.old result self.new }
    {
        unit.advance();
        self.hand = Some(unit);
        self.mark = Mark::Exited;
        Code::Ok
    }

    // The unit names a pool that the stream must not reach.
    fn deny(&mut self, mut unit: Unit) -> Result<Code, Want>
        requires position { unit.carried.position < 2 ^ 32 - 1 }
        requires next { self.old.next ≡ None }
        ensures { IfOk result (λ c. Alone (refusal unit code.PoolAccess) self.old c self.new) }
    {
        unit.refuse(Code::PoolAccess)?;
        self.hand = Some(unit);
        Ok(Code::PoolAccess)
    }

    // A call that does not take the unit with it.
    fn ask(
        &mut self,
        objects: &mut Objects,
        site: Site,
        asking: Asking,
        unit: Unit,
    ) -> Result<Code, Want>
        requires allowed { Allows (object_at objects.old site) (asked asking) }
        requires position { unit.carried.position < 2 ^ 32 - 1 }
        requires hand { self.old.hand ≡ None }
        requires next { self.old.next ≡ None }
        ensures { IfOk result (λ c. Asked site (asked asking) (told asking unit) self.old objects.old c self.new objects.new) }
    {
        let answer = objects.call(site, hearing::ask(asking))?;
        self.heard(asking, answer, unit)
    }

    // What it is answered.
    fn heard(&mut self, asking: Asking, answer: Answer, unit: Unit) -> Result<Code, Want>
        requires answer { Suits (asked asking) (answer_of answer) }
        requires position { unit.carried.position < 2 ^ 32 - 1 }
        requires hand { self.old.hand ≡ None }
        requires next { self.old.next ≡ None }
        ensures { IfOk result (λ c. Alone (told asking unit (answer_of answer)) self.old c self.new) }
    {
        match asking {
            Asking::Remove(_) => self.answered(answer, unit),
            _ => self.called(answer, unit),
        }
    }

    // What a unit that yields to another is answered.
    fn answered(&mut self, answer: Answer, mut unit: Unit) -> Result<Code, Want>
        requires answer { IsForYielder (answer_of answer) }
        requires position { unit.carried.position < 2 ^ 32 - 1 }
        requires hand { self.old.hand ≡ None }
        requires next { self.old.next ≡ None }
        ensures { IfOk result (λ c. Alone (to_yielder unit (answer_of answer)) self.old c self.new) }
    {
        match answer {
            Answer::Given(other) => {
                unit.advance();
                self.tray.push_back(unit)?;
                self.next = Some(other);
                Ok(Code::Ok)
            }
            Answer::Code(code) => {
                unit.refuse(code)?;
                self.hand = Some(unit);
                Ok(code)
            }
            _ => unreachable!(),
        }
    }

    // What a unit that goes on is answered.
    fn called(&mut self, answer: Answer, mut unit: Unit) -> Result<Code, Want>
        requires answer { IsForCaller (answer_of answer) }
        requires position { unit.carried.position < 2 ^ 32 - 1 }
        requires next { self.old.next ≡ None }
        ensures { IfOk result (λ c. Alone (to_caller unit (answer_of answer)) self.old c self.new) }
    {
        let code = hearing::hear(&mut unit, &mut self.tray, answer)?;
        self.hand = Some(unit);
        Ok(code)
    }

    // A call that takes the unit with it.
    #[tactic(auto, using(crate::proofs::Answered::for_giver))]
    fn give(
        &mut self,
        objects: &mut Objects,
        site: Site,
        giving: Giving,
        mut unit: Unit,
    ) -> Result<Code, Want>
        requires allowed { Allows (object_at objects.old site) (given giving (moved unit)) }
        requires position { unit.carried.position < 2 ^ 32 - 1 }
        requires next { self.old.next ≡ None }
        ensures { IfOk result (λ c. Asked site (given giving (moved unit)) (brought giving) self.old objects.old c self.new objects.new) }
    {
        unit.advance();
        let answer = objects.call(site, hearing::give(giving, unit))?;
        let (hand, code) = hearing::returned(giving, &mut self.tray, answer)?;
        self.hand = hand;
        Ok(code)
    }
}

// What the stream does at the operation of the unit.
fn plan(w: &Workload, s: StreamNo, op: Op, unit: &Unit) -> Plan
    requires valid { IsValid w.now }
    requires stream { s.0 < w.now.streams }
    requires declared { IsDeclared w.now op }
    ensures { IsPlan w.now s.0 op unit.now result }
{
    planned(w, s, op, unit.number(), unit.acc())
}
