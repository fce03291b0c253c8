//! All streams of a workload, and the objects that they share, between waves.

ghost use Rattle.std.specs.Prelude.{◌≡◌, ◌<◌, ◌≤◌, ℕ, IfOk, IfSome, List, Option, length, replicate, true};
ghost use Rattle.abt_machine.specs.declared.events.Outcome.{Outcome};
ghost use Rattle.abt_machine.specs.Stored.{CallsStored, Stored};
ghost use Rattle.abt_order.specs.Stored.{IsAnsweredOrder, stored_of};
ghost use Rattle.abt_commons.specs.Held.{clock_at};
ghost use Rattle.abt_commons.specs.Splits.{own_lock};
ghost use Rattle.abt_drain.specs.Answers.{AllAnswered};
ghost use Rattle.abt_drain.specs.Crews.{moment_in};
ghost use Rattle.abt_drain.specs.Looks.{AreStreams, EndedWith};
ghost use Rattle.abt_drain.specs.Rotations.{work_at};
ghost use Rattle.abt_waves.specs.Ends.{LeavesLogs};
ghost use Rattle.abt_waves.specs.Leaving.{Lowers};
ghost use Rattle.abt_waves.specs.Storing.{stored_by};
ghost use Rattle.abt_waves.specs.Waves.{HasEnded, IsFleetOf};

use crate::alone::{Until, find_alone, go_alone, next_with_work};
use crate::listing::{Listing, calls_none};
use crate::locks::{Locked, Locking, Orders, StoredOrders};
use crate::watch::Starts;
use crate::wave::sail;
use abt_commons::{Objects, Split, SplitPass};
use abt_drain::{Rests, Run, leave, outcome, picture, start_streams};
use abt_machine::{Outcome, Want, Workload};
use abt_order::StoredOrder;
use abt_stream::Stream;
use abt_work::Work;
use std::alloc::Global;
use std::marker::Model;
use std::sync::Wait;
use std::thread::Threads;

// How many turns a stream makes at a time while streams only hand work to each other.
const TURNS: u32 = 256;

/// The streams of a workload, with the objects that they share.
#[derive(Drop)]
pub(crate) struct Fleet<'w> {
    w: &'w Workload,
    steps: u64,
    keeps: bool,
    objects: Objects<'w>,
    streams: Vec<Stream>,
}

impl<'w> Model for Fleet<'w> {
    ghost use Rattle.abt_drain.specs.Crews.{CrewValue};

    ghost Value = { CrewValue };

    ghost view = { λ f. record { workload = f.w.now; steps = f.steps; keeps = f.keeps; objects = f.objects; streams = f.streams.items } };
}

impl<'w> Fleet<'w> {
    /// All streams and objects at the start.
    pub(crate) fn new<R, O: Orders, L: Locking<'w, R>>(
        alloc: Global,
        w: &'w Workload,
        orders: &O,
        steps: u64,
        keeps: bool,
    ) -> Result<Fleet<'w>, Want>
        requires orders { 2 ≤ length (O.shapes orders.now) }
        ensures workload { IfOk result (λ fleet. fleet.workload ≡ w.now) }
        ensures keeps { IfOk result (λ fleet. fleet.keeps ≡ keeps) }
        ensures answers { IfOk result (λ fleet. AllAnswered w.now (O.answered orders.now w.now) fleet.streams) }
        ensures fleet { IfOk result (λ fleet. (returns : ℕ → ℕ → ℕ → List ℕ → Option ℕ) → IsFleetOf L.lock L.clock w.now (stored_by (O.shapes orders.now) returns) steps fleet) }
    {
        w.known();
        let streams = start_streams(alloc, w, steps, keeps)?;
        let objects = Objects::place(alloc, w)?;
        Ok(Fleet {
            w,
            steps,
            keeps,
            objects,
            streams,
        })
    }

    // A wave over all streams.
    fn wave<
        R: Threads + Wait + Sync,
        P: Work + Sync,
        O: Orders + Sync,
        X: Send + Drop,
        L: Locking<'w, R> + Locked<Pass = X> + Sync + Drop,
    >(
        self,
        rt: &'w R,
        alloc: Global,
        orders: &O,
        work: &P,
        live: &[bool],
        starts: &Starts,
    ) -> Result<Fleet<'w>, Want>
        requires calls { CallsStored self.workload (P.count work.now) }
        requires fleet { IsFleetOf L.lock L.clock self.workload (stored_by (O.shapes orders.now) (P.returns work.now)) self.steps self }
        requires flags { live.now ≡ replicate self.workload.streams true }
        ensures fleet { IfOk result (IsFleetOf L.lock L.clock self.entry.workload (stored_by (O.shapes orders.now) (P.returns work.now)) self.entry.steps) }
        ensures lowers { IfOk result (λ fleet. Lowers self.entry.workload self.entry.steps (moment_in self.entry.workload self.entry) (moment_in self.entry.workload fleet)) }
        ensures keeps { IfOk result (λ fleet. fleet.keeps ≡ self.entry.keeps) }
        ensures answers { IfOk result (λ fleet. AllAnswered self.entry.workload (O.answered orders.now self.entry.workload) self.entry.streams → AllAnswered self.entry.workload (O.answered orders.now self.entry.workload) fleet.streams) }
    {
        let Fleet {
            w,
            steps,
            keeps,
            objects,
            streams,
        } = self;
        let (objects, streams) = sail::<R, P, O, X, L>(
            rt, alloc, w, orders, work, objects, streams, live, starts,
        )?;
        Ok(Fleet {
            w,
            steps,
            keeps,
            objects,
            streams,
        })
    }

    // Turns of stream `s` over objects without locks.
    fn go<R: Wait, P: Work>(
        self,
        rt: &R,
        alloc: Global,
        orders: &[StoredOrder],
        work: &P,
        listing: &Listing,
        s: u32,
        until: Until,
    ) -> Result<Fleet<'w>, Want>
        requires several { 2 ≤ self.workload.streams }
        requires calls { CallsStored self.workload (P.count work.now) }
        requires fleet { IsFleetOf own_lock clock_at self.workload (stored_of orders.now (P.returns work.now)) self.steps self }
        requires stream { s < self.workload.streams }
        ensures fleet { IfOk result (IsFleetOf own_lock clock_at self.entry.workload (stored_of orders.now (P.returns work.now)) self.entry.steps) }
        ensures raises_none { IfOk result (λ fleet. work_at self.entry.workload self.entry.steps (moment_in self.entry.workload fleet) ≤ work_at self.entry.workload self.entry.steps (moment_in self.entry.workload self.entry)) }
        ensures keeps { IfOk result (λ fleet. fleet.keeps ≡ self.entry.keeps) }
        ensures answers { IfOk result (λ fleet. AllAnswered self.entry.workload (IsAnsweredOrder self.entry.workload orders.now) self.entry.streams → AllAnswered self.entry.workload (IsAnsweredOrder self.entry.workload orders.now) fleet.streams) }
    {
        let Fleet {
            w,
            steps,
            keeps,
            objects,
            mut streams,
        } = self;
        let objects = go_alone(
            rt,
            alloc,
            w,
            orders,
            work,
            listing,
            s,
            until,
            objects,
            &mut streams[s as usize],
        )?;
        Ok(Fleet {
            w,
            steps,
            keeps,
            objects,
            streams,
        })
    }

    // The stream that alone has anything to do, if there is one.
    fn lone(&self) -> Option<u32>
        requires { self.now.objects.workload ≡ self.now.workload }
        ensures { IfSome result (λ s. s < self.now.workload.streams) }
    {
        find_alone(self.w, &self.objects, &self.streams)
    }

    // The first stream from this one on that has anything to do, or else the first of all, if there is one.
    fn next(&self, from: u32) -> Option<u32>
        requires { self.now.objects.workload ≡ self.now.workload }
        ensures { IfSome result (λ s. s < self.now.workload.streams) }
    {
        next_with_work(self.w, &self.objects, &self.streams, from)
    }

    // The turns of the one stream that has anything to do, if there is one, until it puts a unit into a pool that another one lists.
    fn alone<R: Wait, P: Work>(
        self,
        rt: &R,
        alloc: Global,
        orders: &[StoredOrder],
        work: &P,
        listing: &Listing,
    ) -> Result<Fleet<'w>, Want>
        requires several { 2 ≤ self.workload.streams }
        requires calls { CallsStored self.workload (P.count work.now) }
        requires fleet { IsFleetOf own_lock clock_at self.workload (stored_of orders.now (P.returns work.now)) self.steps self }
        ensures fleet { IfOk result (IsFleetOf own_lock clock_at self.entry.workload (stored_of orders.now (P.returns work.now)) self.entry.steps) }
        ensures raises_none { IfOk result (λ fleet. work_at self.entry.workload self.entry.steps (moment_in self.entry.workload fleet) ≤ work_at self.entry.workload self.entry.steps (moment_in self.entry.workload self.entry)) }
        ensures keeps { IfOk result (λ fleet. fleet.keeps ≡ self.entry.keeps) }
        ensures answers { IfOk result (λ fleet. AllAnswered self.entry.workload (IsAnsweredOrder self.entry.workload orders.now) self.entry.streams → AllAnswered self.entry.workload (IsAnsweredOrder self.entry.workload orders.now) fleet.streams) }
    {
        match self.lone() {
            Some(s) => self.go(rt, alloc, orders, work, listing, s, Until::PutsForOthers),
            None => Ok(self),
        }
    }

    // So many times the turns of a stream that has anything to do, of one after the other.
    fn by_turns<R: Wait, P: Work>(
        self,
        rt: &R,
        alloc: Global,
        orders: &[StoredOrder],
        work: &P,
        listing: &Listing,
        times: u32,
    ) -> Result<Fleet<'w>, Want>
        requires several { 2 ≤ self.workload.streams }
        requires calls { CallsStored self.workload (P.count work.now) }
        requires fleet { IsFleetOf own_lock clock_at self.workload (stored_of orders.now (P.returns work.now)) self.steps self }
        ensures fleet { IfOk result (IsFleetOf own_lock clock_at self.entry.workload (stored_of orders.now (P.returns work.now)) self.entry.steps) }
        ensures raises_none { IfOk result (λ fleet. work_at self.entry.workload self.entry.steps (moment_in self.entry.workload fleet) ≤ work_at self.entry.workload self.entry.steps (moment_in self.entry.workload self.entry)) }
        ensures keeps { IfOk result (λ fleet. fleet.keeps ≡ self.entry.keeps) }
        ensures answers { IfOk result (λ fleet. AllAnswered self.entry.workload (IsAnsweredOrder self.entry.workload orders.now) self.entry.streams → AllAnswered self.entry.workload (IsAnsweredOrder self.entry.workload orders.now) fleet.streams) }
    {
        let mut fleet = self;
        let mut from = 0;
        'times: for _ in 0..times {
            let Some(s) = fleet.next(from) else {
                return Ok(fleet);
            };
            fleet = fleet.go(rt, alloc, orders, work, listing, s, Until::HasMade(TURNS))?;
            from = s.saturating_add(1);
        }
        Ok(fleet)
    }

    // What needs no thread: the turns of a stream that alone has anything to do, and while streams only hand work to each other, turns
    // of each of them by turns.
    fn unshared<R: Wait, P: Work>(
        self,
        rt: &R,
        alloc: Global,
        orders: &[StoredOrder],
        work: &P,
        listing: &Listing,
        starts: &Starts,
    ) -> Result<Fleet<'w>, Want>
        requires several { 2 ≤ self.workload.streams }
        requires calls { CallsStored self.workload (P.count work.now) }
        requires fleet { IsFleetOf own_lock clock_at self.workload (stored_of orders.now (P.returns work.now)) self.steps self }
        ensures fleet { IfOk result (IsFleetOf own_lock clock_at self.entry.workload (stored_of orders.now (P.returns work.now)) self.entry.steps) }
        ensures raises_none { IfOk result (λ fleet. work_at self.entry.workload self.entry.steps (moment_in self.entry.workload fleet) ≤ work_at self.entry.workload self.entry.steps (moment_in self.entry.workload self.entry)) }
        ensures keeps { IfOk result (λ fleet. fleet.keeps ≡ self.entry.keeps) }
        ensures answers { IfOk result (λ fleet. AllAnswered self.entry.workload (IsAnsweredOrder self.entry.workload orders.now) self.entry.streams → AllAnswered self.entry.workload (IsAnsweredOrder self.entry.workload orders.now) fleet.streams) }
    {
        let times = starts.times();
        if times == 0 {
            return self.alone(rt, alloc, orders, work, listing);
        }
        self.by_turns(rt, alloc, orders, work, listing, times)
    }

    // How the run ended, if it did.
    fn ended(&self) -> Option<Outcome>
        requires objects { self.now.objects.workload ≡ self.now.workload }
        requires streams { AreStreams self.now.workload self.now.steps self.now.streams }
        ensures { EndedWith self.now.workload self.now.steps self.now.streams self.now.objects result }
    {
        outcome(self.w, &self.objects, &self.streams, self.steps)
    }

    /// Waves, until one leaves nothing to do or a stream spent. Each of the others lowers the work that is left.
    pub(crate) fn run<
        R: Threads + Wait + Sync,
        P: Work + Sync,
        O: Orders + Sync,
        X: Send + Drop,
        L: Locking<'w, R> + Locked<Pass = X> + Sync + Drop,
    >(self, rt: &'w R, alloc: Global, orders: &O, work: &P) -> Result<(Fleet<'w>, Outcome), Want>
        requires calls { CallsStored self.workload (P.count work.now) }
        requires fleet { IsFleetOf L.lock L.clock self.workload (stored_by (O.shapes orders.now) (P.returns work.now)) self.steps self }
        ensures ended { IfOk result (λ ended. HasEnded L.lock L.clock self.entry.workload (stored_by (O.shapes orders.now) (P.returns work.now)) self.entry.steps ended.0 ended.1) }
        ensures keeps { IfOk result (λ ended. ended.0.keeps ≡ self.entry.keeps) }
        ensures answers { IfOk result (λ ended. AllAnswered self.entry.workload (O.answered orders.now self.entry.workload) self.entry.streams → AllAnswered self.entry.workload (O.answered orders.now self.entry.workload) ended.0.streams) }
    {
        let live = vec![in alloc; true; self.w.streams() as usize]?;
        let starts = Starts::new();
        let mut fleet = self;
        'waves: loop {
            fleet = fleet.wave::<R, P, O, X, L>(rt, alloc, orders, work, &live, &starts)?;
            match fleet.ended() {
                Some(outcome) => return Ok((fleet, outcome)),
                None => {}
            }
        }
    }

    /// Waves of several streams over a lock for each site, until nothing is left to do or a stream is spent. While one stream alone has
    /// anything to do, it makes its turns on the caller's thread. Each wave but the last lowers the work that is left.
    pub(crate) fn run_split<R: Threads + Wait + Sync, P: Work + Sync>(
        self,
        rt: &'w R,
        alloc: Global,
        orders: &[StoredOrder],
        work: &P,
    ) -> Result<(Fleet<'w>, Outcome), Want>
        requires several { 2 ≤ self.workload.streams }
        requires calls { CallsStored self.workload (P.count work.now) }
        requires fleet { IsFleetOf own_lock clock_at self.workload (stored_of orders.now (P.returns work.now)) self.steps self }
        ensures ended { IfOk result (λ ended. HasEnded own_lock clock_at self.entry.workload (stored_of orders.now (P.returns work.now)) self.entry.steps ended.0 ended.1) }
        ensures keeps { IfOk result (λ ended. ended.0.keeps ≡ self.entry.keeps) }
        ensures answers { IfOk result (λ ended. AllAnswered self.entry.workload (IsAnsweredOrder self.entry.workload orders.now) self.entry.streams → AllAnswered self.entry.workload (IsAnsweredOrder self.entry.workload orders.now) ended.0.streams) }
    {
        let live = vec![in alloc; true; self.w.streams() as usize]?;
        let listing = Listing::new(alloc, self.w)?;
        let starts = Starts::new();
        starts.let_share(!work.watches() && calls_none(self.w));
        let mut fleet = self;
        'waves: loop {
            fleet = fleet.unshared(rt, alloc, orders, work, &listing, &starts)?;
            if let Some(outcome) = fleet.ended() {
                return Ok((fleet, outcome));
            }
            fleet = fleet.wave::<R, P, StoredOrders<'_>, SplitPass<'w>, Split<'w, R>>(
                rt,
                alloc,
                &StoredOrders { orders },
                work,
                &live,
                &starts,
            )?;
            match fleet.ended() {
                Some(end) => return Ok((fleet, end)),
                None => {}
            }
        }
    }

    /// What the run leaves, which ended so.
    pub(crate) fn end<R, L: Locking<'w, R>>(
        self,
        alloc: Global,
        outcome: Outcome,
    ) -> Result<Run, Want>
        requires ended { (Z : Stored) × HasEnded L.lock L.clock self.workload Z self.steps self outcome }
        ensures { IfOk result (λ run. (Z : Stored) → HasEnded L.lock L.clock self.entry.workload Z self.entry.steps self.entry outcome → LeavesLogs L.lock self.entry.workload Z self.entry.steps self.entry.keeps self.entry.streams run) }
    {
        let Fleet {
            w,
            steps: _,
            keeps,
            objects,
            streams,
        } = self;
        let Rests {
            journal,
            steps,
            parts,
        } = leave(alloc, streams, keeps)?;
        let picture = picture(alloc, w, objects, parts)?;
        Ok(Run {
            journal,
            steps,
            picture,
            outcome,
        })
    }
}
