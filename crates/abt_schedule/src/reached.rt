//! Where the events of a run lead.

ghost use Rattle.std.specs.Prelude.{ℕ, ◌≡◌, ◌<◌, ◌^◌, ◌++◌, ◌∷◌, [], ◌↔◌, IfOk, IsTrue, List, Some, length, replicate, slice_get, true};
ghost use Rattle.abt_drain.specs.Looks.{EndsWith};
ghost use Rattle.abt_explore.specs.Laws.{next_event};
ghost use Rattle.abt_laws.specs.Laws.{IsMiss};
ghost use Rattle.abt_machine.specs.declared.events.Event.{Event};
ghost use Rattle.abt_machine.specs.Outcomes.{Spent, is_step};
ghost use Rattle.abt_machine.specs.Rounds.{OrdersStored};
ghost use Rattle.abt_machine.specs.Runs.{Run};
ghost use Rattle.abt_machine.specs.declared.workload.Parts.{Parts};
ghost use Rattle.abt_machine.specs.Stored.{CallsStored, Stored};
ghost use Rattle.abt_machine.specs.Valid.{IsValid};
ghost use Rattle.abt_model.specs.Stored.{stored_with};
ghost use Rattle.abt_schedule.specs.Reaching.{IsFirstSpent, IsReached, IsTurnBy, made_after};

use abt_machine::{Event, OrderShape, Outcome, StreamNo, Want, What, Workload};
use abt_model::Model;
use abt_work::Work;
use std::alloc::Global;

/// What an event makes of its stream's turn: it ends by a step or by an empty round, or goes on.
#[derive(Clone, Copy, Debug, PartialEq, Eq)]
pub(crate) enum Turn {
    Stepped,
    Emptied,
    GoesOn,
}

/// All streams and objects after some events, and how many steps each stream made.
#[derive(Drop)]
pub(crate) struct Reached {
    pub(crate) model: Model,
    pub(crate) made: Vec<u64>,
}

impl Reached {
    /// Before the first event. Out of memory is the only error.
    pub(crate) fn start(alloc: Global, w: &Workload) -> Result<Reached, Want>
        requires { IsValid w.now }
        ensures { IfOk result (λ reached. (Z : Stored) → OrdersStored w.now Z.orders → IsReached w.now Z [] reached) }
    {
        let model = Model::start(alloc, w)?;
        let made = zeros(alloc, w.streams())?;
        Ok(Reached { model, made })
    }

    /// Makes the next event of stream `s`. Out of memory is the only error.
    pub(crate) fn go_on<P: Work>(
        &mut self,
        w: &Workload,
        z: &[OrderShape],
        work: &P,
        s: StreamNo,
    ) -> Result<What, Want>
        requires valid { IsValid w.now }
        requires stored { OrdersStored w.now z.now }
        requires calls { CallsStored w.now (P.count work.now) }
        requires stream { s.0 < w.now.streams }
        requires reached { (J : List Event) × (length J < 2 ^ 63) × IsReached w.now (stored_with z.now (P.returns work.now)) J self.old }
        ensures { IfOk result (λ what. (J : List Event) → length J < 2 ^ 63 → IsReached w.now (stored_with z.now (P.returns work.now)) J self.old → IsReached w.now (stored_with z.now (P.returns work.now)) (J ++ next_event J s.0 what ∷ []) self.new) }
    {
        let hint = self.model.hint(w, z, work, s, &[]);
        match self.model.make(w, z, work, s, &hint)? {
            None => unreachable!(),
            Some(what) => {
                count(&mut self.made, s, &what);
                Ok(what)
            }
        }
    }

    /// Makes an event of a run again. Out of memory is the only error.
    pub(crate) fn follow<P: Work>(
        &mut self,
        w: &Workload,
        z: &[OrderShape],
        work: &P,
        event: &Event,
    ) -> Result<(), Want>
        requires valid { IsValid w.now }
        requires stored { OrdersStored w.now z.now }
        requires calls { CallsStored w.now (P.count work.now) }
        requires reached { (J : List Event) × (length J < 2 ^ 63) × IsReached w.now (stored_with z.now (P.returns work.now)) J self.old × Run w.now (stored_with z.now (P.returns work.now)) (J ++ event.now ∷ []) }
        ensures { IfOk result (λ _. (J : List Event) → length J < 2 ^ 63 → IsReached w.now (stored_with z.now (P.returns work.now)) J self.old → Run w.now (stored_with z.now (P.returns work.now)) (J ++ event.now ∷ []) → IsReached w.now (stored_with z.now (P.returns work.now)) (J ++ event.now ∷ []) self.new) }
    {
        self.model.follow(w, z, work, event.stream, &event.what)?;
        count(&mut self.made, event.stream, &event.what);
        Ok(())
    }

    /// What the last event, which is one of stream `s`, makes of the stream's turn.
    pub(crate) fn turn(&self, s: StreamNo, what: &What) -> Turn
        requires { s.0 < length self.now.model.lanes }
        ensures { (W : Parts) (Z : Stored) (J : List Event) → IsReached W Z J self.now → s.0 < W.streams → IsTurnBy W J s.0 what.now result }
    {
        if is_step(what) {
            return Turn::Stepped;
        }
        if !is_miss(what) {
            return Turn::GoesOn;
        }
        if self.model.has_empty_round(s) {
            return Turn::Emptied;
        }
        Turn::GoesOn
    }

    /// Whether stream `s`, which may make `steps` steps, has made them, and would make another.
    pub(crate) fn is_spent(&self, w: &Workload, steps: u64, s: StreamNo) -> bool
        requires valid { IsValid w.now }
        requires stream { s.0 < w.now.streams }
        requires reached { (Z : Stored) × (J : List Event) × IsReached w.now Z J self.now }
        ensures { (Z : Stored) (J : List Event) → IsReached w.now Z J self.now → IsTrue result ↔ Spent w.now steps J s.0 }
    {
        self.made[s.0 as usize] == steps && self.model.has_step(w, s)
    }

    /// How the run ended, if it did and its streams may make `steps` steps each.
    pub(crate) fn outcome(&self, w: &Workload, steps: u64) -> Option<Outcome>
        requires valid { IsValid w.now }
        requires reached { (Z : Stored) × (J : List Event) × IsReached w.now Z J self.now }
        ensures { (Z : Stored) (J : List Event) → IsReached w.now Z J self.now → EndsWith w.now steps J result }
    {
        if let Some(s) = self.first_spent(w, steps) {
            return Some(Outcome::Budget(s));
        }
        if !self.model.is_quiet(w) {
            return None;
        }
        if self.model.has_ended(w) {
            return Some(Outcome::Finished);
        }
        Some(Outcome::Stuck)
    }

    // The least stream that is spent, if each may make `steps` steps.
    fn first_spent(&self, w: &Workload, steps: u64) -> Option<StreamNo>
        requires valid { IsValid w.now }
        requires reached { (Z : Stored) × (J : List Event) × IsReached w.now Z J self.now }
        ensures { (Z : Stored) (J : List Event) → IsReached w.now Z J self.now → IsFirstSpent w.now steps J result }
    {
        for s in 0..w.streams() {
            if self.is_spent(w, steps, StreamNo(s)) {
                return Some(StreamNo(s));
            }
        }
        None
    }
}

// That many numbers, all 0.
fn zeros(alloc: Global, count: u32) -> Result<Vec<u64>, Want>
    ensures { IfOk result (λ zeros. zeros.items ≡ replicate count 0) }
{
    Ok(vec![in alloc; 0; count as usize]?)
}

// Counts an event of stream `s`, if it is a step.
fn count(made: &mut Vec<u64>, s: StreamNo, what: &What)
    requires stream { s.0 < length made.old.items }
    requires few { (k : ℕ) → slice_get made.old.items s.0 ≡ Some k → k < 2 ^ 63 }
    ensures { made.new.items ≡ made_after made.old.items s.0 what.now }
{
    if is_step(what) {
        made[s.0 as usize] += 1;
    }
}

// Whether the event is a step.
fn is_step(what: &What) -> bool
    ensures { result ≡ is_step what.now }
{
    match what {
        What::Step(_, _, _) => true,
        What::Call(_, _, _) => true,
        _ => false,
    }
}

// Whether the event is a miss.
fn is_miss(what: &What) -> bool
    ensures { IsTrue result ↔ IsMiss what.now }
{
    match what {
        What::Miss(_) => true,
        _ => false,
    }
}
