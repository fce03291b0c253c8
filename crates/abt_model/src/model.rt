//! All streams with the objects that they share.

ghost use Rattle.std.specs.Prelude.{ℕ, ◌≡◌, ◌<◌, ◌-◌, ◌^◌, ◌↔◌, IfOk, IsTrue, Some, length};
ghost use Rattle.abt_model.specs.Choices.{AreChoices};
ghost use Rattle.abt_model.specs.Hints.{IsMade, TellsSome};
ghost use Rattle.abt_model.specs.Models.{MayBeDone, IsAfter, StandsFor};
ghost use Rattle.abt_model.specs.Pictures.{SaysWords, ShowsUnits};
ghost use Rattle.abt_machine.specs.declared.workload.Parts.{Parts};
ghost use Rattle.abt_machine.specs.Lines.{hand};
ghost use Rattle.abt_machine.specs.Next.{StepDue, due};
ghost use Rattle.abt_machine.specs.Outcomes.{AllEnded, Quiet};
ghost use Rattle.abt_machine.specs.Rounds.{OrdersStored};
ghost use Rattle.abt_machine.specs.Sound.{Sound};
ghost use Rattle.abt_machine.specs.Start.{start};
ghost use Rattle.abt_machine.specs.State.{State};
ghost use Rattle.abt_machine.specs.Stored.{CallsStored, Stored};
ghost use Rattle.abt_model.specs.Stored.{stored_with};
ghost use Rattle.abt_machine.specs.Valid.{IsValid};

use crate::choices::{Choices, choices_of};
use crate::ends::{are_empty, are_idle, are_over};
use crate::hints::{hint_of, is_to_step};
use crate::pictures::{blanks, place_desks, place_lanes, place_pools, place_things};
use crate::starts::{lanes, objects};
use crate::turns::move_as;
use abt_machine::{OrderShape, PoolNo, StreamNo, Want, What, Workload};
use abt_replay::{Lane, Objects};
use abt_report::Picture;
use abt_work::Work;
use std::alloc::Global;
use std::marker;

/// What each stream holds, and the objects.
#[derive(Drop)]
pub struct Model {
    pub(crate) lanes: Vec<Lane>,
    pub(crate) objects: Objects,
}

impl marker::Model for Model {
    ghost use Rattle.abt_model.specs.Models.{ModelValue};

    ghost Value = { ModelValue };

    ghost view = { λ r. record { lanes = r.lanes.items; objects = r.objects } };
}

impl Model {
    /// Streams and objects at the start of a run. Out of memory is the only error.
    pub fn start(alloc: Global, w: &Workload) -> Result<Model, Want>
        ensures { IfOk result (StandsFor w.now (start w.now)) }
    {
        let objects = objects(alloc, w)?;
        let lanes = lanes(alloc, w)?;
        Ok(Model { lanes, objects })
    }

    /// The objects.
    pub fn objects(&self) -> &Objects
        ensures { result.now ≡ self.now.objects }
    {
        &self.objects
    }

    /// The picture of the units that streams and objects hold, in order of number. Out of memory is the only error.
    pub fn picture(&self, alloc: Global, w: &Workload) -> Result<Picture, Want>
        ensures shown { IfOk result (ShowsUnits w.now self.now) }
        ensures words { IfOk result (SaysWords w.now self.now) }
    {
        w.known();
        let mut rows = blanks(alloc, w.units())?;
        place_lanes(w, &self.lanes, &mut rows)?;
        place_pools(w, self.objects.pools(), &mut rows)?;
        place_desks(w, self.objects.desks(), &mut rows)?;
        place_things(w, self.objects.slots(), &mut rows)?;
        Ok(Picture::new(rows))
    }

    /// Whether what stream `s` is to do may come; if it may, it is done. `z` has the shapes of the stored orders. Out of
    /// memory is the only error.
    pub fn follow<P: Work>(
        &mut self,
        w: &Workload,
        z: &[OrderShape],
        work: &P,
        s: StreamNo,
        what: &What,
    ) -> Result<bool, Want>
        requires valid { IsValid w.now }
        requires stored { OrdersStored w.now z.now }
        requires calls { CallsStored w.now (P.count work.now) }
        requires stream { s.0 < w.now.streams }
        requires state { (n : ℕ) × (n < 2 ^ 64 - 1) × (S : State) × IsAfter w.now (stored_with z.now (P.returns work.now)) n S × StandsFor w.now S self.old }
        ensures { IfOk result (λ may. (n : ℕ) (S : State) → IsAfter w.now (stored_with z.now (P.returns work.now)) n S → StandsFor w.now S self.old → MayBeDone w.now (stored_with z.now (P.returns work.now)) n S s.0 what.now may self.new) }
    {
        let made = self.make(w, z, work, s, what)?;
        Ok(is_made(&made, what))
    }

    /// What stream `s` may do next. `z` has the shapes of the stored orders. Out of memory is the only error.
    pub fn choices<P: Work>(
        &self,
        alloc: Global,
        w: &Workload,
        z: &[OrderShape],
        work: &P,
        s: StreamNo,
    ) -> Result<Choices, Want>
        requires valid { IsValid w.now }
        requires stored { OrdersStored w.now z.now }
        requires calls { CallsStored w.now (P.count work.now) }
        requires stream { s.0 < w.now.streams }
        requires state { (n : ℕ) × (n < 2 ^ 64 - 1) × (S : State) × IsAfter w.now (stored_with z.now (P.returns work.now)) n S × StandsFor w.now S self.now }
        ensures { IfOk result (AreChoices w.now (stored_with z.now (P.returns work.now)) self.now s.0) }
    {
        choices_of(alloc, &self.lanes[s.0 as usize], w, z, work, s)
    }

    /// A hint that tells an event of stream `s` that may come: a round visits the first of the pools `wanted` that it may visit
    /// next, or the first that its scheduler lists if it may visit none of them, and a call returns what its function returns.
    /// `z` has the shapes of the stored orders.
    pub fn hint<P: Work>(
        &self,
        w: &Workload,
        z: &[OrderShape],
        work: &P,
        s: StreamNo,
        wanted: &[PoolNo],
    ) -> What
        requires valid { IsValid w.now }
        requires stored { OrdersStored w.now z.now }
        requires calls { CallsStored w.now (P.count work.now) }
        requires stream { s.0 < w.now.streams }
        requires state { (n : ℕ) × (n < 2 ^ 64 - 1) × (S : State) × IsAfter w.now (stored_with z.now (P.returns work.now)) n S × StandsFor w.now S self.now }
        ensures { (n : ℕ) (S : State) → IsAfter w.now (stored_with z.now (P.returns work.now)) n S → StandsFor w.now S self.now → TellsSome w.now (stored_with z.now (P.returns work.now)) S s.0 result }
    {
        hint_of(&self.lanes[s.0 as usize], w, z, work, s, wanted)
    }

    /// Whether stream `s` is to make a step.
    pub fn has_step(&self, w: &Workload, s: StreamNo) -> bool
        requires valid { IsValid w.now }
        requires stream { s.0 < w.now.streams }
        requires state { (Z : Stored) × (S : State) × Sound w.now Z S × StandsFor w.now S self.now }
        ensures { (S : State) → StandsFor w.now S self.now → IsTrue result ↔ (due w.now S s.0 ≡ StepDue) }
    {
        is_to_step(&self.lanes[s.0 as usize], w, s)
    }

    /// Whether the last round of the top frame of stream `s` ended empty.
    pub fn has_empty_round(&self, s: StreamNo) -> bool
        requires stream { s.0 < length self.now.lanes }
        ensures { (W : Parts) (S : State) → StandsFor W S self.now → s.0 < W.streams → result ≡ (S.stream s.0).top.empty }
    {
        self.lanes[s.0 as usize].top().empty
    }

    /// The accumulator of the unit in the hand of stream `s`, if it has one.
    pub fn acc_in_hand(&self, s: StreamNo) -> Option<u64>
        requires stream { s.0 < length self.now.lanes }
        ensures { (W : Parts) (S : State) (u : ℕ) → StandsFor W S self.now → s.0 < W.streams → hand W S s.0 ≡ Some u → result ≡ Some (S.carried u).acc }
    {
        self.lanes[s.0 as usize].hand().map(|unit| unit.acc())
    }

    /// Makes the next event of stream `s`; if a round is due, at the pool that the hint visits, and if a call is, one that
    /// returns what the hint returned. None if that is no pool that the round may visit next, or no word that the function may
    /// return. `z` has the shapes of the stored orders. Out of memory is the only error.
    pub fn make<P: Work>(
        &mut self,
        w: &Workload,
        z: &[OrderShape],
        work: &P,
        s: StreamNo,
        hint: &What,
    ) -> Result<Option<What>, Want>
        requires valid { IsValid w.now }
        requires stored { OrdersStored w.now z.now }
        requires calls { CallsStored w.now (P.count work.now) }
        requires stream { s.0 < w.now.streams }
        requires state { (n : ℕ) × (n < 2 ^ 64 - 1) × (S : State) × IsAfter w.now (stored_with z.now (P.returns work.now)) n S × StandsFor w.now S self.old }
        ensures { IfOk result (λ made. (n : ℕ) (S : State) → IsAfter w.now (stored_with z.now (P.returns work.now)) n S → StandsFor w.now S self.old → IsMade w.now (stored_with z.now (P.returns work.now)) n S s.0 hint.now made self.new) }
    {
        let lane = &mut self.lanes[s.0 as usize];
        move_as(lane, &mut self.objects, w, z, work, s, hint)
    }

    /// Whether nothing is left to do: no stream has a unit or a stacked frame, and the pools that main schedulers list are empty.
    pub fn is_quiet(&self, w: &Workload) -> bool
        ensures { (S : State) → StandsFor w.now S self.now → IsTrue result ↔ Quiet w.now S }
    {
        w.known();
        if !are_idle(&self.lanes) {
            return false;
        }
        are_empty(w, &self.objects)
    }

    /// Whether every unit is unborn or ended.
    pub fn has_ended(&self, w: &Workload) -> bool
        ensures { (Z : Stored) (S : State) → Sound w.now Z S → StandsFor w.now S self.now → IsTrue result ↔ AllEnded S }
    {
        are_over(w, &self.objects)
    }
}

// Whether that event was made.
fn is_made(made: &Option<What>, what: &What) -> bool
    ensures { IsTrue result ↔ (made.now ≡ Some what.now) }
{
    match made {
        Some(made) => made == what,
        None => false,
    }
}
