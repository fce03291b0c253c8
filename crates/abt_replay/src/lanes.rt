//! What a stream holds, and what each kind of event makes of it.

ghost use Rattle.std.specs.Prelude.{◌≡◌, ◌<◌, ◌-◌, ◌^◌, ◌≢◌, ◌↔◌, [], ◌∷◌, IfNone, IfOk, IfSome, IsTrue, List, None, Some, length, option_copied, option_map};
ghost use Rattle.abt_calls.specs.Allowed.{Allows};
ghost use Rattle.abt_calls.specs.Starts.{start_part};
ghost use Rattle.abt_plans.specs.Marks.{mark_of};
ghost use Rattle.abt_replay.specs.Events.{AreObjects, CallsBy, Ends, Entered, Leaves, Looks, Runs, Stepped, Visits, Woken};
ghost use Rattle.abt_replay.specs.Objects.{object_at};
ghost use Rattle.abt_replay.specs.Unnumbered.{unnumbered_held};
ghost use Rattle.abt_machine.specs.declared.events.Site.TheVariants as site;
ghost use Rattle.abt_machine.specs.declared.numbers.PoolNo.{PoolNo};
ghost use Rattle.abt_machine.specs.Acts as asked;
ghost use Rattle.abt_machine.specs.Numbers.{pool_no, unit_no};
ghost use Rattle.abt_machine.specs.Fronts.{side_of};
ghost use Rattle.abt_machine.specs.Turns.{looked};
ghost use Rattle.abt_machine.specs.Valid.{IsValid};
ghost use Rattle.abt_machine.specs.Stored.{CallsStored, IsNoCall, Stored};
ghost use Rattle.abt_machine.specs.Workloads.{op_at};
ghost use Rattle.abt_machine.specs.declared.operations.Op.TheVariants as operation;

mod stepping;

use crate::acts::{Act, Answer};
use crate::frames::{Frame, forget_rounds};
use crate::keys::{Keyed, write_list, write_queue};
use crate::objects::Objects;
use crate::unit::{Unit, copied};
use abt_desk::Asks;
use abt_machine::{Cause, Op, PoolNo, Returned, SchedNo, Site, StreamNo, Want, What, Workload};
use abt_plans::{HandDue, Mark, hand_due, side};
use abt_work::Work;
use std::alloc::{AllocError, Global};
use std::collections::VecDeque;
use std::marker::Model;
use std::mem;

/// What a stream holds: its frames, the unit in hand and what is to become of it, the unit that was taken and is not yet
/// looked at, the tray of units on their way home, and the scheduler units of its stacked frames, the lowest first.
#[derive(Drop)]
pub struct Lane {
    mark: Mark,
    top: Frame,
    below: Vec<Frame>,
    hand: Option<Unit>,
    next: Option<Unit>,
    tray: VecDeque<Unit>,
    framed: Vec<Unit>,
}

impl Model for Lane {
    ghost use Rattle.std.specs.Prelude.{◌≡◌, length, reverse};
    ghost use Rattle.abt_machine.specs.Values.{Held};
    ghost use Rattle.abt_plans.specs.Marks.{mark_of};

    ghost Value = { Held };

    ghost view = { λ l. record {
      own = record { mark = mark_of l.mark; top = l.top; below = reverse l.below.items };
      hand = l.hand;
      next = l.next;
      tray = l.tray.items;
      framed = l.framed.items;
    } };

    ghost invariant = { λ l. length l.framed.items ≡ length l.below.items };
}

impl Clone for Lane {
    ghost is_clone = { λ lane copy. copy ≡ lane };

    fn clone(&self) -> Result<Lane, AllocError> {
        Ok(Lane {
            mark: self.mark,
            top: self.top.clone()?,
            below: Vec::from_clones(*self.below.allocator(), self.below.as_slice())?,
            hand: self.hand.clone()?,
            next: self.next.clone()?,
            tray: copied(&self.tray)?,
            framed: Vec::from_clones(*self.framed.allocator(), self.framed.as_slice())?,
        })
    }
}

impl Keyed for Lane {
    ghost use Rattle.abt_replay.specs.Keys.{lane_key};

    ghost key = { lane_key };

    fn write(&self, out: &mut Vec<u8>) -> Result<(), Want> {
        self.write_own(out)?;
        self.hand.write(out)?;
        self.next.write(out)?;
        write_queue(&self.tray, out)?;
        write_list(self.framed.as_slice(), out)
    }
}

impl Lane {
    ghost use Rattle.std.specs.Prelude.{◌++◌};
    ghost use Rattle.abt_replay.specs.Keys.{stream_key};

    // Appends the bytes of the mark and the frames.
    #[tactic(auto, using(crate::proofs::Written::written), unfolding(crate::specs::Keys::stream_key))]
    fn write_own(&self, out: &mut Vec<u8>) -> Result<(), Want>
        ensures { IfOk result (λ _. out.new.items ≡ out.old.items ++ stream_key self.now.own) }
    {
        self.mark.write(out)?;
        self.top.write(out)?;
        write_list(self.below.as_slice(), out)
    }
}

impl Lane {
    /// Stream `s` at the start of a run: its main scheduler is at its first round, and it holds no unit.
    pub fn new(alloc: Global, w: &Workload, s: StreamNo) -> Lane
        requires { s.0 < w.now.streams }
        ensures { result ≡ start_part w.now s.0 }
    {
        Lane {
            mark: Mark::Plain,
            top: Frame::new(alloc, w.main(s)),
            below: Vec::new(alloc),
            hand: None,
            next: None,
            tray: VecDeque::new(alloc),
            framed: Vec::new(alloc),
        }
    }

    /// What is to become of the unit in hand.
    pub fn mark(&self) -> Mark
        ensures { mark_of result ≡ self.now.own.mark }
    {
        self.mark
    }

    /// The frame of the scheduler that runs.
    pub fn top(&self) -> &Frame
        ensures { result.now ≡ self.now.own.top }
    {
        &self.top
    }

    /// Whether a frame is stacked on the main scheduler's.
    pub fn is_stacked(&self) -> bool
        ensures { IsTrue result ↔ (self.now.own.below ≢ []) }
    {
        !self.below.is_empty()
    }

    /// The unit in hand.
    pub fn hand(&self) -> Option<&Unit>
        ensures { option_copied result ≡ self.now.hand }
    {
        self.hand.as_ref()
    }

    /// The unit that was taken from a pool and is not yet looked at.
    pub fn next(&self) -> Option<&Unit>
        ensures { option_copied result ≡ self.now.next }
    {
        self.next.as_ref()
    }

    /// The units on their way home, the first to be put first.
    pub fn tray(&self) -> &VecDeque<Unit>
        ensures { result.now.items ≡ self.now.tray }
    {
        &self.tray
    }

    /// The scheduler units of the stacked frames, the lowest first.
    pub fn framed(&self) -> &[Unit]
        ensures { result.now ≡ self.now.framed }
    {
        self.framed.as_slice()
    }

    /// The round of each frame becomes 0.
    #[tactic(auto, using(crate::proofs::Forgetting::forgetting))]
    pub fn forget_rounds(&mut self)
        ensures { self.new ≡ unnumbered_held self.old }
    {
        self.top.forget_round();
        forget_rounds(&mut self.below);
    }

    /// Takes the first unit of the tray out of it.
    pub fn take_from_tray(&mut self) -> Option<Unit>
        ensures none { IfNone result ((self.old.tray ≡ []) × (self.new ≡ self.old)) }
        ensures first { IfSome result (λ unit. self.old.tray ≡ unit ∷ self.new.tray) }
        ensures others { self.new ≡ record self.old { tray = self.new.tray } }
    {
        self.tray.pop_front()
    }

    /// Takes the unit that was taken from a pool and is not yet looked at.
    pub fn take_next(&mut self) -> Option<Unit>
        ensures next { result ≡ self.old.next }
        ensures others { self.new ≡ record self.old { next = None } }
    {
        self.next.take()
    }

    /// Takes the unit out of the hand.
    pub fn take_hand(&mut self) -> Option<Unit>
        ensures hand { result ≡ self.old.hand }
        ensures others { self.new ≡ record self.old { hand = None } }
    {
        self.hand.take()
    }

    /// A unit of the tray goes home; the event is `Put`.
    pub fn put(objects: &mut Objects, unit: Unit) -> Result<What, Want>
        requires { Allows (object_at objects.old (site.Pool (pool_no unit.carried.home))) (asked.Put unit) }
        ensures { IfOk result (λ made. Woken objects.old unit made objects.new) }
    {
        let number = unit.number();
        let home = unit.home();
        objects.call(Site::Pool(home), Act::Put(unit))?;
        Ok(What::Put(number, home))
    }

    /// Looks at what was asked of a unit that was taken from a pool: to end, and then it is in the hand and ends next, or to
    /// migrate, and then it is in the tray with its new home. If nothing was asked, it is in the hand and runs. The event
    /// is `Look`.
    pub fn look(&mut self, objects: &mut Objects, unit: Unit) -> Result<What, Want>
        requires allowed { Allows (object_at objects.old (site.Desk (unit_no unit.number))) asked.Look }
        requires next { self.old.next ≡ None }
        ensures { IfOk result (λ made. Looks self.old objects.old unit made self.new objects.new) }
    {
        let number = unit.number();
        match objects.call(Site::Desk(number), Act::Look)? {
            Answer::Asks(asks) => self.go(unit, asks)?,
            _ => unreachable!(),
        }
        Ok(What::Look(number))
    }

    // Where the unit goes by what was asked of it; to end comes before to migrate.
    fn go(&mut self, mut unit: Unit, asks: Asks) -> Result<(), Want>
        requires next { self.old.next ≡ None }
        ensures { IfOk result (λ _. self.new ≡ looked self.old unit asks.cancel (option_map (λ (p : PoolNo). p.0) asks.migrate)) }
    {
        if asks.cancel {
            self.mark = Mark::Asked;
            self.hand = Some(unit);
            return Ok(());
        }
        match asks.migrate {
            Some(p) => {
                unit.set_home(p);
                self.tray.push_back(unit)?;
            }
            None => {
                self.mark = Mark::Plain;
                self.hand = Some(unit);
            }
        }
        Ok(())
    }

    // The unit in hand ends, and the units that its desk lets go come to the tray.
    fn end(&mut self, objects: &mut Objects, unit: Unit, cause: Cause) -> Result<What, Want>
        requires allowed { Allows (object_at objects.old (site.Desk (unit_no unit.number))) (asked.End unit cause) }
        requires hand { self.old.hand ≡ None }
        ensures { IfOk result (λ made. Ends self.old objects.old unit cause made self.new objects.new) }
    {
        let number = unit.number();
        match objects.call(Site::Desk(number), Act::End(unit, cause))? {
            Answer::Woke(mut woken) => self.tray.append(&mut woken)?,
            _ => unreachable!(),
        }
        Ok(What::End(number, cause))
    }

    // The unit in hand runs as a scheduler, whose frame is stacked on the others.
    fn enter(&mut self, g: SchedNo, unit: Unit) -> Result<What, Want>
        requires { self.old.hand ≡ None }
        ensures { IfOk result (λ made. Entered g.0 self.old unit made self.new) }
    {
        let number = unit.number();
        self.framed.reserve(1)?;
        self.below.reserve(1)?;
        let frame = Frame::new(*self.framed.allocator(), g);
        self.below.push_reserved(mem::replace(&mut self.top, frame));
        self.framed.push_reserved(unit);
        Ok(What::Enter(number))
    }

    /// Drops the top frame, and has its unit in the hand again; the event is `Leave`.
    pub fn leave(&mut self) -> What
        requires below { self.old.own.below ≢ [] }
        requires hand { self.old.hand ≡ None }
        ensures { Leaves self.old result self.new }
    {
        match self.below.pop() {
            None => unreachable!(),
            Some(frame) => match self.framed.pop() {
                None => unreachable!(),
                Some(unit) => {
                    let number = unit.number();
                    self.top = frame;
                    self.mark = Mark::Left;
                    self.hand = Some(unit);
                    What::Leave(number)
                }
            },
        }
    }

    /// Asks pool `p` for a unit. If there is one, it is to be looked at, and the round ends (the event is `Take`); if not,
    /// the round has seen the pool, and the last of its pools ends it (`Miss`).
    #[tactic(auto, using(crate::proofs::Answered::for_taker))]
    pub fn visit(
        &mut self,
        objects: &mut Objects,
        w: &Workload,
        s: StreamNo,
        p: PoolNo,
    ) -> Result<What, Want>
        requires valid { IsValid w.now }
        requires stream { s.0 < w.now.streams }
        requires pool { p.0 < length w.now.pools }
        requires sched { self.old.own.top.sched < length w.now.scheds }
        requires round { self.old.own.top.round < 2 ^ 64 - 1 }
        requires next { self.old.next ≡ None }
        requires allowed { Allows (object_at objects.old (site.Pool p)) (asked.Take (side_of w.now s.0 p.0)) }
        ensures { IfOk result (λ made. Visits w.now s.0 self.old objects.old p made self.new objects.new) }
    {
        match objects.call(Site::Pool(p), Act::Take(side(w, s, p)))? {
            Answer::Given(unit) => {
                let number = unit.number();
                self.top.take();
                self.next = Some(unit);
                Ok(What::Take(p, number))
            }
            Answer::Miss => {
                self.top.miss(w, p)?;
                Ok(What::Miss(p))
            }
            _ => unreachable!(),
        }
    }
}

impl Lane {
    /// What is due for `unit`, which was taken out of the hand: it ends (the event is `End`), runs as a scheduler (`Enter`),
    /// makes a step (`Step`) or calls a function (`Call`), which returns the number that is `said`. The event is one that the
    /// machine's stream makes with `unit` in its hand, with one call of an object or none, whatever the stored orders. None if
    /// the unit is to call, and its function may not return what is said, or nothing is.
    #[tactic(auto, using(crate::proofs::Running::running))]
    pub fn run<P: Work>(
        &mut self,
        objects: &mut Objects,
        w: &Workload,
        work: &P,
        s: StreamNo,
        unit: Unit,
        said: Option<u64>,
    ) -> Result<Option<What>, Want>
        requires valid { IsValid w.now }
        requires calls { CallsStored w.now (P.count work.now) }
        requires stream { s.0 < w.now.streams }
        requires number { unit.number < length w.now.units }
        requires objects { AreObjects w.now objects.old }
        requires tray { self.old.tray ≡ [] }
        requires hand { self.old.hand ≡ None }
        requires next { self.old.next ≡ None }
        ensures { IfOk result (λ made. (Z : Stored) → Z.returns ≡ P.returns work.now → Runs w.now Z s.0 unit self.old objects.old said made self.new objects.new) }
    {
        match hand_due(w, s, self.mark, unit.number(), unit.position()) {
            HandDue::End(cause) => {
                let made = self.end(objects, unit, cause)?;
                Ok(Some(made))
            }
            HandDue::Enter(g) => {
                let made = self.enter(g, unit)?;
                Ok(Some(made))
            }
            HandDue::Step(op) => match called(op) {
                Some(function) => Ok(self.call(work, function, unit, said)),
                None => {
                    let made = self.go_on(objects, w, s, op, unit)?;
                    Ok(Some(made))
                }
            },
        }
    }

    // A step of the unit in hand.
    fn go_on(
        &mut self,
        objects: &mut Objects,
        w: &Workload,
        s: StreamNo,
        op: Op,
        unit: Unit,
    ) -> Result<What, Want>
        requires valid { IsValid w.now }
        requires stream { s.0 < w.now.streams }
        requires number { unit.number < length w.now.units }
        requires at { op_at w.now unit.number unit.carried.position ≡ Some op }
        requires objects { AreObjects w.now objects.old }
        requires hand { self.old.hand ≡ None }
        requires next { self.old.next ≡ None }
        ensures { IfOk result (λ made. Stepped w.now s.0 op unit self.old objects.old made self.new objects.new) }
    {
        let number = unit.number();
        let at = unit.position();
        let code = self.step(objects, w, s, op, unit)?;
        Ok(What::Step(number, at, code))
    }

    // A call of the unit in hand, if the function may return what is said.
    fn call<P: Work>(
        &mut self,
        work: &P,
        function: u32,
        mut unit: Unit,
        said: Option<u64>,
    ) -> Option<What>
        requires stored { function < P.count work.now }
        requires position { unit.carried.position < 2 ^ 32 - 1 }
        requires next { self.old.next ≡ None }
        ensures { CallsBy (P.returns work.now function) unit self.old said result self.new }
    {
        let number = unit.number();
        let value = said?;
        if !work.accepts(function, number, unit.acc(), unit.keys(), value) {
            return None;
        }
        let at = unit.position();
        unit.advance();
        unit.receive(value);
        self.hand = Some(unit);
        Some(What::Call(number, at, Returned::new(value)))
    }
}

// The function that an operation calls, if it calls one.
fn called(op: Op) -> Option<u32>
    ensures some { IfSome result (λ f. op ≡ operation.Call f) }
    ensures none { IfNone result (IsNoCall (Some op)) }
{
    match op {
        Op::Call(function) => Some(function),
        _ => None,
    }
}
