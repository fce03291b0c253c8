//! One lock around all objects, as the streams of a wave share it.

ghost use Rattle.std.specs.Prelude.{◌≤◌, IfOk, length};
ghost use Rattle.abt_machine.specs.Stored.{CallsStored};
ghost use Rattle.abt_machine.specs.Valid.{IsValid};
ghost use Rattle.abt_booth.specs.Seats.{IsSeatOf, number_of, opening_of, seats_of};
ghost use Rattle.abt_commons.specs.AllPasses.{AreAll};
ghost use Rattle.abt_commons.specs.Halls.{the_lock};
ghost use Rattle.abt_order.specs.Stored.{stored_of};
ghost use Rattle.abt_waves.specs.Locks.{AreClosed};
ghost use Rattle.hall_waves.specs.HallLocks.{clock_of_hall, locks_of_hall};
ghost use Rattle.abt_drain.specs.Ends.{IsLeftOf};
ghost use Rattle.abt_drain.specs.Runs.{IsRunOf};

use abt_commons::{Hall, HallPass, Objects};
use abt_drain::Run;
use abt_machine::{Want, Workload};
use abt_order::StoredOrder;
use abt_stream::{Stream, Turn};
use abt_waves::{Locked, Locking, Puts, StoredOrders, noted_turn, run_over};
use abt_work::Work;
use std::alloc::Global;
use std::marker::Model;
use std::sync::Wait;
use std::thread::Threads;

/// A hall, as the one lock of a wave.
#[derive(Drop)]
pub struct OneLock<'w, R> {
    hall: Hall<'w, R>,
}

impl<'w, R> Model for OneLock<'w, R> {
    ghost use Rattle.abt_commons.specs.Halls.{HallValue};

    ghost Value = { HallValue };

    ghost view = { λ one. one.hall };
}

impl<'w, R: Wait> Locked for OneLock<'w, R> {
    ghost use Rattle.abt_booth.specs.Seats.{IsSeatOf};
    ghost use Rattle.abt_commons.specs.Halls.{the_lock};
    ghost use Rattle.hall_waves.specs.HallLocks.{clock_of_hall, locks_of_hall};
    ghost use Rattle.hall_waves.specs.HallLaws.{hall_begins};

    type Pass = HallPass<'w>;

    ghost Lock = { Unit {0} };

    ghost lock = { the_lock };

    ghost clock = { clock_of_hall };

    ghost locks = { λ hall. locks_of_hall hall };

    ghost is_of = { λ hall pass. IsSeatOf hall.booth pass };

    ghost begins = { hall_begins };

    fn turn<P: Work>(
        &self,
        puts: &Puts,
        stream: &mut Stream,
        pass: &mut HallPass<'w>,
        w: &Workload,
        work: &P,
    ) -> Turn {
        noted_turn(&self.hall, puts, stream, pass, w, work)
    }

    #[inline(always)]
    fn rest(&self, _pass: &mut HallPass<'w>) {}
}

impl<'w, R: Wait> Locking<'w, R> for OneLock<'w, R> {
    #[tactic(auto, using(crate::specs::HallLaws::tells_one, crate::proofs::HallClosed::hall_fresh))]
    fn make(
        rt: &'w R,
        alloc: Global,
        objects: Objects<'w>,
        streams: u32,
    ) -> Result<(OneLock<'w, R>, Vec<HallPass<'w>>), Want> {
        match Hall::make(rt, alloc, objects, streams) {
            Ok((hall, passes)) => Ok((OneLock { hall }, passes)),
            Err(_) => Err(Want),
        }
    }

    fn open(self, passes: Vec<HallPass<'w>>) -> Objects<'w>
        requires valid { IsValid (opening_of self.booth).workload }
        requires passes { AreAll (IsSeatOf self.booth) number_of (seats_of self.booth) passes.items }
        ensures { AreClosed (locks_of_hall self.entry) the_lock clock_of_hall passes.entry.items result }
    {
        self.hall.close(passes)
    }
}

/// Runs a workload as `run_streams` of abt_waves does, but with one lock around all objects. No more is claimed of stamps than that
/// they leave no gap: calls on different objects get stamps by the one lock too. Err: out of memory.
pub fn run_in_hall<'w, R: Threads + Wait + Sync, P: Work + Sync>(
    rt: &'w R,
    alloc: Global,
    w: &'w Workload,
    orders: &[StoredOrder],
    work: &P,
    steps: u64,
    keeps: bool,
) -> Result<Run, Want>
    requires orders { 2 ≤ length orders.now }
    requires calls { CallsStored w.now (P.count work.now) }
    ensures run { IfOk result (λ run. IsLeftOf w.now keeps (λ J. IsRunOf w.now (stored_of orders.now (P.returns work.now)) steps J run.outcome) run) }
{
    run_over::<R, P, StoredOrders<'_>, HallPass<'w>, OneLock<'w, R>>(
        rt,
        alloc,
        w,
        &StoredOrders { orders },
        work,
        steps,
        keeps,
    )
}
