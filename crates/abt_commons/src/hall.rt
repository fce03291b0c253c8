//! All objects behind one lock.

ghost use Rattle.std.specs.Prelude.{◌≡◌, ◌≤◌, ◌^◌, [], IfErr, IfOk};
ghost use Rattle.std.specs.List.{All};
ghost use Rattle.abt_machine.specs.declared.events.Site.{Site};
ghost use Rattle.abt_booth.specs.Seats.{IsSeatOf, number_of, opening_of, seats_of, seen_of};
ghost use Rattle.abt_calls.specs.Asking.{IsSite};
ghost use Rattle.abt_commons.specs.AllPasses.{AreAll};
ghost use Rattle.abt_commons.specs.Held.{clock_at};
ghost use Rattle.abt_commons.specs.Halls.{HallLeft, IsGreatest};

use crate::acts::{Act, Answer, Ask, Reply};
use crate::commons::Commons;
use crate::objects::Objects;
use crate::sites::site_number;
use abt_booth::{Booth, Called, Object, Seat};
use abt_machine::Site;
use std::alloc::Global;
use std::marker::Model;
use std::sync::Wait;

impl<'w> Object for Objects<'w> {
    ghost use Rattle.abt_commons.specs.AsksAll.{AllDo, MayAskAll, may_ask_all_stays};

    type Act = Ask;

    type Answer = Answer;

    ghost allowed = { λ held ask. MayAskAll held.workload ask };

    ghost does = { AllDo };

    ghost keeps = { may_ask_all_stays };

    #[inline(always)]
    fn run(&mut self, ask: Ask) -> Answer {
        let Ask { site, act } = ask;
        let number = site_number(self.w, site);
        self.ones[number].run(act)
    }
}

/// The right of one stream to call.
pub type HallPass<'w> = Seat<Objects<'w>>;

/// One lock around all objects, with one clock.
#[derive(Drop)]
pub struct Hall<'w, R> {
    rt: &'w R,
    booth: Booth<Objects<'w>>,
    // The clock that was carried to the lock.
    clock: u64,
}

impl<'w, R> Model for Hall<'w, R> {
    ghost use Rattle.std.specs.Prelude.{◌≤◌, ◌^◌};
    ghost use Rattle.abt_commons.specs.Halls.{HallValue};

    ghost Value = { HallValue };

    ghost view = { λ hall. record { booth = hall.booth; clock = hall.clock } };

    ghost invariant = { λ hall. hall.clock ≤ 2 ^ 62 };
}

impl<'w, R: Wait> Commons<'w> for Hall<'w, R> {
    ghost use Rattle.abt_booth.specs.Seats.{IsSeatOf, number_of, opening_of, seen_of};
    ghost use Rattle.abt_commons.specs.Halls.{hall_line, the_lock};
    ghost use Rattle.abt_commons.specs.Sights.{Shows};

    type Pass = Seat<Objects<'w>>;

    ghost workload = { λ hall. (opening_of hall.booth).workload };

    ghost is_of = { λ hall pass. IsSeatOf hall.booth pass };

    ghost number = { λ pass. number_of pass };

    ghost moves = { λ hall old x at act told new.
        Shows (opening_of hall.booth).workload the_lock (λ l. hall.clock) (number_of old)
        (λ l. hall_line (opening_of hall.booth).workload (seen_of old)) x at act told (λ l. hall_line (opening_of hall.booth).workload (seen_of new)) };

    #[inline(always)]
    fn call(&self, pass: &mut Seat<Objects<'w>>, site: Site, at: u64, act: Act) -> Reply {
        let raised = at.max(self.clock);
        match self.booth.call(self.rt, pass, raised, Ask { site, act }) {
            Called::Done { stamp, answer } => Reply::Done { stamp, answer },
            Called::Worn(Ask { site: _, act }) => Reply::Worn(act),
        }
    }

    fn rest(&self, _pass: &mut Seat<Objects<'w>>) {}
}

impl<'w, R: Wait> Hall<'w, R> {
    /// One booth around all objects, with a pass for each stream. Err hands the objects back: out of memory.
    pub fn make(
        rt: &'w R,
        alloc: Global,
        objects: Objects<'w>,
        streams: u32,
    ) -> Result<(Hall<'w, R>, Vec<HallPass<'w>>), Objects<'w>>
        requires { 1 ≤ streams }
        ensures objects { IfOk result (λ made. opening_of made.0.booth ≡ objects.entry) }
        ensures streams { IfOk result (λ made. seats_of made.0.booth ≡ streams) }
        ensures clock { IfOk result (λ made. IsGreatest made.0.clock objects.entry.clocks) }
        ensures passes { IfOk result (λ made. AreAll (IsSeatOf made.0.booth) number_of streams made.1.items) }
        ensures fresh { IfOk result (λ made. All (λ pass. seen_of pass ≡ []) made.1.items) }
        ensures refused { IfErr result (λ back. back ≡ objects.entry) }
    {
        let clock = objects.greatest_clock();
        let (booth, seats) = Booth::make(alloc, objects, streams)?;
        Ok((Hall { rt, booth, clock }, seats))
    }

    /// The objects, once no stream calls any longer. It waits for nobody, and takes no memory.
    pub fn close(self, passes: Vec<HallPass<'w>>) -> Objects<'w>
        requires passes { AreAll (IsSeatOf self.booth) number_of (seats_of self.booth) passes.items }
        ensures leaves { HallLeft self.entry.booth self.entry.clock passes.entry.items result }
    {
        let Hall {
            rt: _,
            booth,
            clock,
        } = self;
        let closed = booth.close(passes);
        closed.object.with_clock(clock.max(closed.clock))
    }
}

impl<'w> Objects<'w> {
    // The greatest of the clocks.
    fn greatest_clock(&self) -> u64
        ensures greatest { IsGreatest result self.now.clocks }
        ensures capped { result ≤ 2 ^ 62 }
    {
        let mut greatest = 0;
        for clock in &self.clocks {
            greatest = (*clock).max(greatest);
        }
        greatest
    }

    // The same objects, each with this clock.
    fn with_clock(mut self, clock: u64) -> Objects<'w>
        requires { clock ≤ 2 ^ 62 }
        ensures workload { result.workload ≡ self.entry.workload }
        ensures objects { result.objects ≡ self.entry.objects }
        ensures clocks { (x : Site) → IsSite self.entry.workload x → clock_at result x ≡ clock }
        ensures every { All (λ c. c ≡ clock) result.clocks }
    {
        self.clocks.fill(clock);
        self
    }
}
