//! What a stream writes into its log.

ghost use Rattle.std.specs.Prelude.{◌≡◌, ◌<◌, ◌≤◌, ◌-◌, ◌^◌, false, true, IsTrue, IsFalse};
ghost use Rattle.abt_machine.specs.declared.events.What.TheVariants as what;
ghost use Rattle.abt_stream.specs.Events.{wrote};
ghost use Rattle.abt_machine.specs.Outcomes.{is_step, steps_in};

use super::Stream;
use abt_machine::{Code, Event, UnitNo, What};

impl Stream {
    // Writes an event that is not a step into room that was taken before.
    #[inline(always)]
    pub(super) fn write(&mut self, stamp: u64, what: What)
        requires no_step { is_step what ≡ false }
        requires room { 0 < self.old.rooms.events }
        requires above { self.old.clock < stamp }
        requires bound { stamp ≤ 2 ^ 62 }
        ensures clock { self.new.clock ≡ stamp }
        ensures same { self.new ≡ wrote self.old what stamp self.new.rooms }
    {
        let event = Event {
            stamp,
            stream: self.number,
            what,
        };
        self.clock = stamp;
        self.written += 1;
        self.log.push(event);
    }

    // Writes the step of an operation that is no call.
    #[inline(always)]
    pub(super) fn write_step(&mut self, stamp: u64, unit: UnitNo, at: u32, code: Code)
        requires few { steps_in self.old.log < self.old.budget }
        requires room { 0 < self.old.rooms.events }
        requires above { self.old.clock < stamp }
        requires bound { stamp ≤ 2 ^ 62 }
        ensures clock { self.new.clock ≡ stamp }
        ensures same { self.new ≡ wrote self.old (what.Step unit at code) stamp self.new.rooms }
    {
        self.count_step(stamp, What::Step(unit, at, code));
    }

    // Writes a step, which leaves the stream one less to make.
    #[inline(always)]
    pub(super) fn count_step(&mut self, stamp: u64, what: What)
        requires step { is_step what ≡ true }
        requires few { steps_in self.old.log < self.old.budget }
        requires room { 0 < self.old.rooms.events }
        requires above { self.old.clock < stamp }
        requires bound { stamp ≤ 2 ^ 62 }
        ensures clock { self.new.clock ≡ stamp }
        ensures same { self.new ≡ wrote self.old what stamp self.new.rooms }
    {
        let event = Event {
            stamp,
            stream: self.number,
            what,
        };
        self.left -= 1;
        self.clock = stamp;
        self.written += 1;
        self.log.push(event);
    }

    // Whether the stream has a step left.
    #[inline(always)]
    pub(super) fn may_step(&self) -> bool
        ensures few { IsTrue result → steps_in self.now.log < self.now.budget }
        ensures none { IsFalse result → steps_in self.now.log ≡ self.now.budget }
    {
        self.left != 0
    }
}
