//! A journal judged event by event.

ghost use Rattle.std.specs.Prelude.{◌<◌, ◌-◌, ◌^◌, ◌++◌, [], ◌∷◌, IfOk, List, length};
ghost use Rattle.abt_check.specs.Judges.{HasJudged, Judges};
ghost use Rattle.abt_machine.specs.Rounds.{OrdersStored};
ghost use Rattle.abt_machine.specs.Valid.{IsValid};
ghost use Rattle.abt_machine.specs.declared.events.Event.{Event};
ghost use Rattle.abt_machine.specs.Stored.{CallsStored, Stored};
ghost use Rattle.abt_model.specs.Stored.{stored_with};

use crate::clocks::Clocks;
use abt_machine::{Event, OrderShape, Want, Workload};
use abt_model::Model;
use abt_work::Work;
use std::alloc::Global;
use std::marker;

/// Streams, objects and clocks after the events that were judged.
#[derive(Drop)]
pub(crate) struct Judge {
    model: Model,
    clocks: Clocks,
}

impl marker::Model for Judge {
    ghost use Rattle.abt_check.specs.Judges.{JudgeValue};

    ghost Value = { JudgeValue };

    ghost view = { λ j. record { model = j.model; clocks = j.clocks } };
}

impl Judge {
    /// Before the first event. Out of memory is the only error.
    pub(crate) fn start(alloc: Global, w: &Workload) -> Result<Judge, Want>
        requires { IsValid w.now }
        ensures { IfOk result (λ judge. (Z : Stored) → OrdersStored w.now Z.orders → HasJudged w.now Z [] judge) }
    {
        let model = Model::start(alloc, w)?;
        let clocks = Clocks::start(alloc, w)?;
        Ok(Judge { model, clocks })
    }

    /// Whether the events judged so far, all of which were right, are a stamped run with this event too. `z` has the shapes of
    /// the stored orders. Out of memory is the only error.
    pub(crate) fn follow<P: Work>(
        &mut self,
        w: &Workload,
        z: &[OrderShape],
        work: &P,
        event: &Event,
    ) -> Result<bool, Want>
        requires valid { IsValid w.now }
        requires stored { OrdersStored w.now z.now }
        requires calls { CallsStored w.now (P.count work.now) }
        requires judged { (J : List Event) × (length J < 2 ^ 64 - 1) × HasJudged w.now (stored_with z.now (P.returns work.now)) J self.old }
        ensures { IfOk result (λ right. (J : List Event) → HasJudged w.now (stored_with z.now (P.returns work.now)) J self.old → Judges w.now (stored_with z.now (P.returns work.now)) (J ++ event.now ∷ []) right self.new) }
    {
        if event.stream.0 >= w.streams() {
            return Ok(false);
        }
        if !self.model.follow(w, z, work, event.stream, &event.what)? {
            return Ok(false);
        }
        Ok(self.clocks.follow(w, event))
    }
}
