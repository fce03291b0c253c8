//! A run under way.

ghost use Rattle.std.specs.Prelude.{ℕ, ◌≡◌, ◌<◌, [], IfOk, OnOk, Some, slice_get};
ghost use Rattle.abt_machine.specs.Outcomes.{Spent};
ghost use Rattle.abt_machine.specs.Rounds.{OrdersStored};
ghost use Rattle.abt_machine.specs.Stored.{CallsStored, Stored};
ghost use Rattle.abt_machine.specs.Valid.{IsValid};
ghost use Rattle.abt_model.specs.Stored.{stored_with};
ghost use Rattle.abt_schedule.specs.Courses.{HasMade, HasTurned, HaveTurned, IsCourse};

use crate::reached::{Reached, Turn};
use abt_machine::{Event, OrderShape, StreamNo, Want, Workload};
use abt_work::Work;
use std::alloc::Global;

/// The events so far, where they lead, and how many steps each stream may make.
#[derive(Drop)]
pub(crate) struct Course {
    pub(crate) events: Vec<Event>,
    pub(crate) reached: Reached,
    pub(crate) steps: u64,
}

impl Course {
    /// The start of a run whose streams may make `steps` steps each. Out of memory is the only error.
    pub(crate) fn start(alloc: Global, w: &Workload, steps: u64) -> Result<Course, Want>
        requires valid { IsValid w.now }
        ensures course { IfOk result (λ course. (Z : Stored) → OrdersStored w.now Z.orders → IsCourse w.now Z course) }
        ensures steps { IfOk result (λ course. course.steps ≡ steps) }
        ensures none { IfOk result (λ course. course.events.items ≡ []) }
    {
        let reached = Reached::start(alloc, w)?;
        Ok(Course {
            events: Vec::new(alloc),
            reached,
            steps,
        })
    }

    /// Makes the turns of these streams, one after the other; returns whether one of them was a step. Out of memory is the only
    /// error, also where a turn has more events than can be counted.
    pub(crate) fn turns<P: Work>(
        &mut self,
        w: &Workload,
        z: &[OrderShape],
        work: &P,
        streams: &[u32],
    ) -> Result<bool, Want>
        requires valid { IsValid w.now }
        requires stored { OrdersStored w.now z.now }
        requires calls { CallsStored w.now (P.count work.now) }
        requires streams { (k s : ℕ) → slice_get streams.now k ≡ Some s → s < w.now.streams }
        requires course { IsCourse w.now (stored_with z.now (P.returns work.now)) self.old }
        ensures turned { IfOk result (λ stepped. HaveTurned w.now self.old.steps streams.now self.old.events.items stepped self.new.events.items) }
        ensures course { OnOk result (IsCourse w.now (stored_with z.now (P.returns work.now)) self.new) }
        ensures steps { OnOk result (self.new.steps ≡ self.old.steps) }
    {
        let mut stepped = false;
        for s in streams {
            let step = self.turn(w, z, work, StreamNo(*s))?;
            stepped = stepped || step;
        }
        Ok(stepped)
    }

    // Makes events of stream `s` until one is a step or ends a round empty, or the stream is spent; returns whether the last was
    // a step.
    fn turn<P: Work>(
        &mut self,
        w: &Workload,
        z: &[OrderShape],
        work: &P,
        s: StreamNo,
    ) -> Result<bool, Want>
        requires valid { IsValid w.now }
        requires stored { OrdersStored w.now z.now }
        requires calls { CallsStored w.now (P.count work.now) }
        requires stream { s.0 < w.now.streams }
        requires course { IsCourse w.now (stored_with z.now (P.returns work.now)) self.old }
        ensures turned { IfOk result (λ stepped. HasTurned w.now self.old.steps s.0 self.old.events.items stepped self.new.events.items) }
        ensures course { OnOk result (IsCourse w.now (stored_with z.now (P.returns work.now)) self.new) }
        ensures steps { OnOk result (self.new.steps ≡ self.old.steps) }
    {
        for _ in 0..u64::MAX {
            if self.reached.is_spent(w, self.steps, s) {
                return Ok(false);
            }
            match self.make(w, z, work, s)? {
                Turn::Stepped => return Ok(true),
                Turn::Emptied => return Ok(false),
                Turn::GoesOn => {}
            }
        }
        Err(Want)
    }

    // Makes the next event of stream `s`, which is not spent; returns what it makes of the stream's turn.
    fn make<P: Work>(
        &mut self,
        w: &Workload,
        z: &[OrderShape],
        work: &P,
        s: StreamNo,
    ) -> Result<Turn, Want>
        requires valid { IsValid w.now }
        requires stored { OrdersStored w.now z.now }
        requires calls { CallsStored w.now (P.count work.now) }
        requires stream { s.0 < w.now.streams }
        requires course { IsCourse w.now (stored_with z.now (P.returns work.now)) self.old }
        requires able { Spent w.now self.old.steps self.old.events.items s.0 → ⊥ }
        ensures made { IfOk result (λ turn. HasMade w.now s.0 self.old.events.items turn self.new.events.items) }
        ensures course { OnOk result (IsCourse w.now (stored_with z.now (P.returns work.now)) self.new) }
        ensures steps { OnOk result (self.new.steps ≡ self.old.steps) }
    {
        let what = self.reached.go_on(w, z, work, s)?;
        let turn = self.reached.turn(s, &what);
        let stamp = self.events.len() as u64 + 1;
        self.events.push(Event {
            stamp,
            stream: s,
            what,
        })?;
        Ok(turn)
    }
}
