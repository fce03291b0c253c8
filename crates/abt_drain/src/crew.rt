//! All streams of a workload, and the objects that they share.

ghost use Rattle.std.specs.Prelude.{◌≡◌, ◌<◌, ◌≤◌, ◌^◌, ℕ, true, IfOk, List, OnOk, Option, length};
ghost use Rattle.abt_machine.specs.Stored.{CallsStored, Stored};
ghost use Rattle.abt_machine.specs.Rounds.{OrdersStored};
ghost use Rattle.abt_order.specs.Stored.{IsAnsweredOrder, shapes_of, stored_of};
ghost use Rattle.abt_machine.specs.Outcomes.{steps_in};
ghost use Rattle.abt_stream.specs.Answers.{FitsAnswers};
ghost use Rattle.abt_stream.specs.Streams.{FitsShapes, FitsStream};
ghost use Rattle.abt_drain.specs.Answers.{AllAnswered};
ghost use Rattle.abt_drain.specs.Crews.{HaveStopped, IsCrew, IsEnd, StaysAwake, TurnBy, TurnsBy, moment_in};
ghost use Rattle.abt_drain.specs.Ends.{LeavesLogs};
ghost use Rattle.abt_drain.specs.Looks.{AreStreams};
ghost use Rattle.abt_drain.specs.Rotations.{HasTurned, HaveRotated, HaveTurned, IsAwake, HasSeenNone};

use crate::outcomes::outcome;
use crate::pictures::picture;
use crate::run::Run;
use crate::streams::{Rests, leave, start_streams};
use abt_commons::{Objects, Plain, PlainPass};
use abt_machine::{Outcome, Want, Workload};
use abt_order::StoredOrder;
use abt_stream::{Stream, Turn};
use abt_work::Work;
use std::alloc::Global;
use std::marker::Model;

/// The streams of a workload in the hands of one caller, with the objects that they share.
#[derive(Drop)]
pub(crate) struct Crew<'w> {
    w: &'w Workload,
    steps: u64,
    keeps: bool,
    plain: Plain<'w>,
    pass: PlainPass<'w>,
    streams: Vec<Stream>,
}

impl<'w> Model for Crew<'w> {
    ghost use Rattle.std.specs.Prelude.{◌≡◌};
    ghost use Rattle.abt_drain.specs.Crews.{CrewValue};

    ghost Value = { CrewValue };

    ghost view = { λ c. record { workload = c.w.now; steps = c.steps; keeps = c.keeps; objects = c.pass; streams = c.streams.items } };

    ghost invariant = { λ c. c.plain ≡ c.w.now };
}

impl<'w> Crew<'w> {
    /// All streams and objects at the start. Streams keep their events in memory if `keeps`.
    pub(crate) fn new(
        alloc: Global,
        w: &'w Workload,
        orders: &[StoredOrder],
        steps: u64,
        keeps: bool,
    ) -> Result<Crew<'w>, Want>
        requires orders { 2 ≤ length orders.now }
        ensures crew { IfOk result (λ crew. (returns : ℕ → ℕ → ℕ → List ℕ → Option ℕ) → IsCrew w.now (stored_of orders.now returns) steps crew) }
        ensures keeps { IfOk result (λ crew. crew.keeps ≡ keeps) }
        ensures answers { IfOk result (λ crew. AllAnswered w.now (IsAnsweredOrder w.now orders.now) crew.streams) }
        ensures fresh { IfOk result (λ crew. (s : ℕ) → s < w.now.streams → HasSeenNone (moment_in w.now crew) s) }
        ensures awake { IfOk result (λ crew. IsAwake w.now (moment_in w.now crew)) }
        ensures rotated { IfOk result (λ crew. (returns : ℕ → ℕ → ℕ → List ℕ → Option ℕ) → HaveRotated w.now (stored_of orders.now returns) steps (moment_in w.now crew)) }
    {
        w.known();
        let streams = start_streams(alloc, w, steps, keeps)?;
        let (plain, pass) = Plain::make(Objects::place(alloc, w)?);
        Ok(Crew {
            w,
            steps,
            keeps,
            plain,
            pass,
            streams,
        })
    }

    // One turn of a stream.
    fn turn<P: Work>(&mut self, orders: &[StoredOrder], work: &P, s: u32) -> Result<Turn, Want>
        requires stream { s < self.old.workload.streams }
        requires calls { CallsStored self.old.workload (P.count work.now) }
        requires crew { IsCrew self.old.workload (stored_of orders.now (P.returns work.now)) self.old.steps self.old }
        requires awake { IsAwake self.old.workload (moment_in self.old.workload self.old) }
        ensures turn { IfOk result (λ turn. TurnBy self.old.workload (stored_of orders.now (P.returns work.now)) self.old.steps s (moment_in self.old.workload self.old) turn (moment_in self.old.workload self.new)) }
        ensures crew { OnOk result (IsCrew self.old.workload (stored_of orders.now (P.returns work.now)) self.old.steps self.new) }
        ensures keeps { OnOk result (self.new.keeps ≡ self.old.keeps) }
        ensures answers { OnOk result (AllAnswered self.old.workload (IsAnsweredOrder self.old.workload orders.now) self.old.streams → AllAnswered self.old.workload (IsAnsweredOrder self.old.workload orders.now) self.new.streams) }
        ensures awake { IfOk result (λ turn. StaysAwake self.old.workload turn (moment_in self.old.workload self.new)) }
    {
        advance(
            &mut self.streams[s as usize],
            self.w,
            orders,
            &self.plain,
            &mut self.pass,
            work,
        )
    }

    // Makes turns of a stream until one is a step, ends a round empty, or is none; returns whether it was a step.
    fn take_turns<P: Work>(
        &mut self,
        orders: &[StoredOrder],
        work: &P,
        s: u32,
    ) -> Result<bool, Want>
        requires stream { s < self.old.workload.streams }
        requires calls { CallsStored self.old.workload (P.count work.now) }
        requires crew { IsCrew self.old.workload (stored_of orders.now (P.returns work.now)) self.old.steps self.old }
        requires awake { IsAwake self.old.workload (moment_in self.old.workload self.old) }
        ensures turned { IfOk result (λ stepped. HasTurned self.old.workload (stored_of orders.now (P.returns work.now)) self.old.steps s (moment_in self.old.workload self.old) stepped (moment_in self.old.workload self.new)) }
        ensures crew { OnOk result (IsCrew self.old.workload (stored_of orders.now (P.returns work.now)) self.old.steps self.new) }
        ensures keeps { OnOk result (self.new.keeps ≡ self.old.keeps) }
        ensures answers { OnOk result (AllAnswered self.old.workload (IsAnsweredOrder self.old.workload orders.now) self.old.streams → AllAnswered self.old.workload (IsAnsweredOrder self.old.workload orders.now) self.new.streams) }
        ensures awake { IfOk result (λ stepped. stepped ≡ true → IsAwake self.old.workload (moment_in self.old.workload self.new)) }
    {
        'turns: loop {
            match self.turn(orders, work, s)? {
                Turn::Moved => {}
                Turn::Stepped => return Ok(true),
                Turn::EmptyRound => return Ok(false),
                Turn::Spent => return Ok(false),
                Turn::Worn => unreachable!(),
            }
        }
    }

    // Makes the turns of each stream, in order of number; returns whether one of them was a step.
    fn rotate<P: Work>(&mut self, orders: &[StoredOrder], work: &P) -> Result<bool, Want>
        requires calls { CallsStored self.old.workload (P.count work.now) }
        requires crew { IsCrew self.old.workload (stored_of orders.now (P.returns work.now)) self.old.steps self.old }
        requires awake { IsAwake self.old.workload (moment_in self.old.workload self.old) }
        ensures turned { IfOk result (λ stepped. HaveTurned self.old.workload (stored_of orders.now (P.returns work.now)) self.old.steps self.old.workload.streams (moment_in self.old.workload self.old) stepped (moment_in self.old.workload self.new)) }
        ensures crew { OnOk result (IsCrew self.old.workload (stored_of orders.now (P.returns work.now)) self.old.steps self.new) }
        ensures keeps { OnOk result (self.new.keeps ≡ self.old.keeps) }
        ensures answers { OnOk result (AllAnswered self.old.workload (IsAnsweredOrder self.old.workload orders.now) self.old.streams → AllAnswered self.old.workload (IsAnsweredOrder self.old.workload orders.now) self.new.streams) }
        ensures awake { IfOk result (λ stepped. stepped ≡ true → IsAwake self.old.workload (moment_in self.old.workload self.new)) }
    {
        let mut stepped = false;
        'streams: for s in 0..self.w.streams() {
            let step = self.take_turns(orders, work, s)?;
            stepped = stepped || step;
        }
        Ok(stepped)
    }

    // How the run ended, if it did, after a rotation; `stepped` says whether a step was made in it.
    fn ended(&self, stepped: bool) -> Option<Outcome>
        requires objects { self.now.objects.workload ≡ self.now.workload }
        requires streams { AreStreams self.now.workload self.now.steps self.now.streams }
        ensures { IsEnd self.now.workload self.now.steps self.now stepped result }
    {
        if stepped {
            return None;
        }
        outcome(self.w, self.pass.objects(), &self.streams, self.steps)
    }

    /// Makes rotations, until one without a step leaves nothing to do or a stream spent.
    pub(crate) fn run<P: Work>(&mut self, orders: &[StoredOrder], work: &P) -> Result<Outcome, Want>
        requires calls { CallsStored self.old.workload (P.count work.now) }
        requires crew { IsCrew self.old.workload (stored_of orders.now (P.returns work.now)) self.old.steps self.old }
        requires fresh { (s : ℕ) → s < self.old.workload.streams → HasSeenNone (moment_in self.old.workload self.old) s }
        requires awake { IsAwake self.old.workload (moment_in self.old.workload self.old) }
        requires rotated { HaveRotated self.old.workload (stored_of orders.now (P.returns work.now)) self.old.steps (moment_in self.old.workload self.old) }
        ensures stopped { IfOk result (HaveStopped self.old.workload (stored_of orders.now (P.returns work.now)) self.old.steps (moment_in self.old.workload self.new)) }
        ensures crew { OnOk result (IsCrew self.old.workload (stored_of orders.now (P.returns work.now)) self.old.steps self.new) }
        ensures keeps { OnOk result (self.new.keeps ≡ self.old.keeps) }
        ensures answers { OnOk result (AllAnswered self.old.workload (IsAnsweredOrder self.old.workload orders.now) self.old.streams → AllAnswered self.old.workload (IsAnsweredOrder self.old.workload orders.now) self.new.streams) }
    {
        'rotations: loop {
            let stepped = self.rotate(orders, work)?;
            match self.ended(stepped) {
                Some(outcome) => return Ok(outcome),
                None => {}
            }
        }
    }

    /// What the run leaves, which ended so.
    pub(crate) fn end(self, alloc: Global, outcome: Outcome) -> Result<Run, Want>
        requires crew { (Z : Stored) × IsCrew self.workload Z self.steps self }
        ensures { IfOk result (λ run. (Z : Stored) → IsCrew self.entry.workload Z self.entry.steps self.entry → HaveStopped self.entry.workload Z self.entry.steps (moment_in self.entry.workload self.entry) outcome → LeavesLogs self.entry.workload Z self.entry.steps self.entry.keeps self.entry.streams run) }
    {
        let Crew {
            w,
            steps: _,
            keeps,
            plain,
            pass,
            streams,
        } = self;
        let rests = leave(alloc, streams, keeps)?;
        let objects = plain.close(vec![in alloc; pass]?);
        let Rests {
            journal,
            steps,
            parts,
        } = rests;
        let picture = picture(alloc, w, objects, parts)?;
        Ok(Run {
            journal,
            steps,
            picture,
            outcome,
        })
    }
}

// Takes the memory that one turn of a stream needs, and makes the turn.
fn advance<'w, P: Work>(
    stream: &mut Stream,
    w: &Workload,
    orders: &[StoredOrder],
    plain: &Plain<'w>,
    pass: &mut PlainPass<'w>,
    work: &P,
) -> Result<Turn, Want>
    requires orders { OrdersStored w.now (shapes_of orders.now) }
    requires calls { CallsStored w.now (P.count work.now) }
    requires plain { plain.now ≡ w.now }
    requires pass { pass.old.workload ≡ w.now }
    requires fits { FitsStream w.now stream.old }
    requires shapes { FitsShapes w.now (stored_of orders.now (P.returns work.now)) stream.old }
    ensures turn { IfOk result (λ turn. TurnsBy w.now (stored_of orders.now (P.returns work.now)) stream.old pass.old turn stream.new pass.new) }
    ensures fits { OnOk result (FitsStream w.now stream.new) }
    ensures shapes { OnOk result (FitsShapes w.now (stored_of orders.now (P.returns work.now)) stream.new) }
    ensures answers { OnOk result (FitsAnswers w.now (IsAnsweredOrder w.now orders.now) stream.old → FitsAnswers w.now (IsAnsweredOrder w.now orders.now) stream.new) }
    ensures number { OnOk result (stream.new.number ≡ stream.old.number) }
    ensures keeps { OnOk result (stream.new.keeps ≡ stream.old.keeps) }
    ensures budget { OnOk result (stream.new.budget ≡ stream.old.budget) }
    ensures few { OnOk result (length stream.new.log ≤ 2 ^ 55) }
    ensures within { OnOk result (steps_in stream.new.log ≤ stream.new.budget) }
    ensures pass { OnOk result (pass.new.workload ≡ w.now) }
{
    w.known();
    stream.prepare(w, orders)?;
    let turn = stream.turn(plain, pass, w, work);
    // The number of steps is of no use here, but its contract says that the stream made no more than it may make.
    stream.steps();
    Ok(turn)
}
