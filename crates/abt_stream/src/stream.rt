//! A stream and its turns.

ghost use Rattle.std.specs.Prelude.{◌≡◌, ◌≢◌, ◌<◌, ◌≤◌, ◌↔◌, ◌^◌, [], IfOk, option_map, map, IsTrue, List, length};
ghost use Rattle.abt_commons.specs.Acts.{owned};
ghost use Rattle.abt_stream.specs.Answers.{Follows};
ghost use Rattle.abt_stream.specs.Streams.{FitsShapes, FitsStream, IsIdle, hand_of, next_of, IsLog};
ghost use Rattle.abt_stream.specs.Dues.{HasStep};
ghost use Rattle.abt_stream.specs.Heeding.{Heeds};
ghost use Rattle.abt_stream.specs.Turned.{IsReady, Turned, IsSpent};
ghost use Rattle.abt_machine.specs.Stored.{CallsStored, Stored};
ghost use Rattle.abt_calls.specs.Starts.{start_part};
ghost use Rattle.abt_machine.specs.Valid.{IsValid};
ghost use Rattle.abt_machine.specs.Outcomes.{steps_in};
ghost use Rattle.abt_record.specs.Records.{IsKept};

mod idling;
mod looking;
mod preparing;
mod putting;
mod running;
mod stepping;
mod writing;

use crate::parts::{Current, Frame};
use crate::turns::Turn;
use abt_chain::Chain;
use abt_commons::Commons;
use abt_machine::{Event, Items, Log, PoolNo, StreamNo, Want, Workload};
use abt_order::Scheduler;
use abt_plans::{HandDue, Mark};
use abt_record::Record;
use abt_unit::Unit;
use abt_work::Work;
use std::alloc::Global;
use std::marker::Model;

/// The clock's last stamp.
const LAST: u64 = 1 << 62;

/// The scheduler units of stacked frames, the lowest first.
pub type Frames = Items<Box<Unit>>;

/// What a stream leaves: its log, if it was kept, how many steps it made, and its units.
#[derive(Drop)]
pub struct StreamParts {
    pub kept: Option<Log>,
    pub steps: u64,
    pub hand: Option<Box<Unit>>,
    pub next: Option<Box<Unit>>,
    pub tray: Chain,
    pub frames: Frames,
}

/// An execution stream.
#[derive(Drop)]
pub struct Stream {
    number: StreamNo,
    budget: u64,
    left: u64,
    clock: u64,
    mark: Mark,
    current: Current,
    tray: Chain,
    top: Frame,
    below: Vec<Frame>,
    framed: Vec<Box<Unit>>,
    order: Vec<PoolNo>,
    // Whether the round of that list has begun.
    begun: bool,
    // Whether it is the list of all rounds of the top frame's scheduler.
    stands: bool,
    at: usize,
    log: Record,
    written: u64,
}

impl Model for Stream {
    ghost use Rattle.std.specs.Prelude.{◌≡◌, ◌≤◌, ◌+◌, ◌-◌, ◌^◌, [], length, map, take, vec_capacity, vec_len};
    ghost use Rattle.std.specs.List.{All};
    ghost use Rattle.abt_machine.specs.Outcomes.{steps_in};
    ghost use Rattle.abt_commons.specs.Acts.{owned};
    ghost use Rattle.abt_stream.specs.Streams.{IsBegun, IsFreeUnit, IsLog, IsOrderly, IsStanding, StreamValue, behind_of, hand_of, next_of, order_of, own_of, spare_of};

    ghost Value = { StreamValue };

    ghost view = { λ s. record {
      number = s.number;
      keeps = s.log.keeps;
      budget = s.budget;
      clock = s.clock;
      held = record {
        own = own_of s.mark s.top (take s.at (order_of s.begun s.order.items)) s.below.items;
        hand = hand_of s.current;
        next = next_of s.current;
        tray = s.tray.units;
        framed = map owned s.framed.items;
      };
      top = s.top;
      below = s.below.items;
      order = order_of s.begun s.order.items;
      at = s.at;
      log = s.log.events;
      rooms = record {
        events = s.log.room;
        frames = vec_capacity s.below - vec_len s.below;
        units = vec_capacity s.framed - vec_len s.framed;
        output = spare_of s.current;
      };
    } };

    ghost invariant = { λ s. (behind_of s.current ≡ []) × All IsFreeUnit s.framed.items × (length s.framed.items ≡ length s.below.items)
        × (s.at ≤ length (order_of s.begun s.order.items) - 1) × IsOrderly (order_of s.begun s.order.items) s.current × IsLog s.number s.clock s.log.events × (s.clock ≤ 2 ^ 62)
        × (s.left + steps_in s.log.events ≡ s.budget) × (s.written ≡ length s.log.events) × (s.written ≤ s.clock)
        × IsStanding s.stands s.top.scheduler s.order.items × IsBegun s.begun s.order.items };
}

impl Stream {
    /// The stream at the start, which may make `steps` steps. It keeps its events in memory if `keeps`.
    #[tactic(auto, using(crate::proofs::Starting::main_is))]
    pub fn new(
        alloc: Global,
        w: &Workload,
        s: StreamNo,
        steps: u64,
        keeps: bool,
    ) -> Result<Stream, Want>
        requires { s.0 < w.now.streams }
        ensures number { IfOk result (λ r. r.number ≡ s) }
        ensures keeps { IfOk result (λ r. r.keeps ≡ keeps) }
        ensures budget { IfOk result (λ r. r.budget ≡ steps) }
        ensures clock { IfOk result (λ r. r.clock ≡ 0) }
        ensures held { IfOk result (λ r. r.held ≡ start_part w.now s.0) }
        ensures log { IfOk result (λ r. r.log ≡ []) }
        ensures order { IfOk result (λ r. r.order ≡ []) }
        ensures fits { IfOk result (FitsStream w.now) }
    {
        w.known();
        let top = Frame {
            scheduler: Scheduler::new(w, w.main(s)),
            round: 0,
            empty: false,
        };
        Ok(Stream {
            number: s,
            budget: steps,
            left: steps,
            clock: 0,
            mark: Mark::Plain,
            current: Current::Idle,
            tray: Chain::new(),
            top,
            below: Vec::new(alloc),
            framed: Vec::new(alloc),
            order: Vec::new(alloc),
            begun: false,
            stands: false,
            at: 0,
            log: Record::new(alloc, keeps),
            written: 0,
        })
    }

    /// One turn: the stream's next event, or none. No clock of a stream is above 2^62 (`steps`), so a turn that met a
    /// clock at its end answers `Worn`, and by `turned` no other does.
    pub fn turn<'w, C: Commons<'w>, P: Work>(
        &mut self,
        commons: &C,
        pass: &mut C::Pass,
        w: &Workload,
        work: &P,
    ) -> Turn
        requires pass { C.is_of commons.now pass.old }
        requires w { C.workload commons.now ≡ w.now }
        requires fits { FitsStream w.now self.old }
        requires ready { IsReady w.now self.old }
        requires stored { CallsStored w.now (P.count work.now) }
        ensures turned { (Z : Stored) → FitsShapes w.now Z self.old → Z.returns ≡ P.returns work.now → Turned (Heeds (C.moves commons.now) (C.workload commons.now)) w.now Z self.old pass.old result self.new pass.new }
        ensures stream { self.new.number ≡ self.old.number }
        ensures keeps { self.new.keeps ≡ self.old.keeps }
        ensures budget { self.new.budget ≡ self.old.budget }
        ensures fits { FitsStream w.now self.new }
        ensures shapes { (Z : Stored) → FitsShapes w.now Z self.old → FitsShapes w.now Z self.new }
        ensures follows { Follows w.now self.old self.new }
        ensures pass { C.is_of commons.now pass.new }
        ensures number { C.number pass.new ≡ C.number pass.old }
    {
        w.known();
        if !self.tray.is_empty() {
            return self.put(commons, pass);
        }
        match &self.current {
            Current::Taken(_) => self.look(commons, pass),
            Current::Running(_) => self.run(commons, pass, w, work),
            Current::Idle => self.idle(commons, pass, w),
        }
    }

    /// Whether the stream has made its steps, and its next event is a step.
    #[tactic(auto, using(crate::proofs::Spending::spending))]
    pub fn is_spent(&self, w: &Workload) -> bool
        requires fits { FitsStream w.now self.now }
        ensures { IsTrue result ↔ IsSpent w.now self.now }
    {
        w.known();
        !self.may_step() && self.tray.is_empty() && self.has_step(w)
    }

    // Whether a step of the unit in hand is due.
    fn has_step(&self, w: &Workload) -> bool
        requires valid { IsValid w.now }
        requires fits { FitsStream w.now self.now }
        ensures { IsTrue result ↔ HasStep w.now self.now.number.0 self.now.held }
    {
        match &self.current {
            Current::Running(_) => match self.hand_due(w) {
                HandDue::Step(_) => true,
                HandDue::End(_) => false,
                HandDue::Enter(_) => false,
            },
            Current::Taken(_) | Current::Idle => false,
        }
    }

    /// Whether the next event puts a unit into a pool.
    pub fn puts(&self) -> bool
        ensures { IsTrue result ↔ self.now.held.tray ≢ [] }
    {
        !self.tray.is_empty()
    }

    /// Whether hand, Next and tray are empty and there is no stacked frame.
    pub fn is_idle(&self) -> bool
        ensures { IsTrue result ↔ (IsIdle self.now × (self.now.held.own.below ≡ [])) }
    {
        self.tray.is_empty() && matches!(&self.current, Current::Idle) && self.below.is_empty()
    }

    /// How many events the stream has made.
    pub fn written(&self) -> u64
        ensures { result ≡ length self.now.log }
    {
        self.written
    }

    /// How many of them are steps.
    pub fn steps(&self) -> u64
        ensures made { result ≡ steps_in self.now.log }
        ensures own { IsLog self.now.number self.now.clock self.now.log }
        ensures clock { self.now.clock ≤ 2 ^ 62 }
        ensures steps { steps_in self.now.log ≤ self.now.budget }
    {
        self.budget - self.left
    }

    /// The events so far, if they are kept.
    pub fn kept(&self) -> Option<&[Event]>
        ensures { IsKept self.now.keeps self.now.log (option_map (λ list. list.now) result) }
    {
        self.log.kept()
    }

    /// What the stream leaves.
    pub fn into_parts(self) -> StreamParts
        ensures kept { IsKept self.keeps self.log result.kept }
        ensures steps_made { result.steps ≡ steps_in self.log }
        ensures own { IsLog self.number self.clock self.log }
        ensures steps { steps_in self.log ≤ self.budget }
        ensures hand { option_map owned result.hand ≡ self.held.hand }
        ensures next { option_map owned result.next ≡ self.held.next }
        ensures tray { result.tray.units ≡ self.held.tray }
        ensures frames { map owned result.frames ≡ self.held.framed }
    {
        let (hand, next) = parted(self.current);
        StreamParts {
            kept: self.log.into_kept(),
            steps: self.budget - self.left,
            hand,
            next,
            tray: self.tray,
            frames: Items::new(self.framed),
        }
    }
}

// The unit in hand, and the one in Next.
fn parted(current: Current) -> (Option<Box<Unit>>, Option<Box<Unit>>)
    ensures hand { option_map owned result.0 ≡ hand_of current }
    ensures next { option_map owned result.1 ≡ next_of current }
{
    match current {
        Current::Idle => (None, None),
        Current::Taken(unit) => (None, Some(unit)),
        Current::Running(unit) => (Some(unit), None),
    }
}
