//! One wave of streams.

ghost use Rattle.std.specs.Prelude.{ℕ, ◌≡◌, ◌≢◌, ◌↔◌, Bool, IfOk, IsTrue, OnOk, Some, false, length, slice_get, true};
ghost use Rattle.std.specs.List.{All};
ghost use Rattle.abt_machine.specs.Stored.{CallsStored};
ghost use Rattle.abt_order.specs.Stored.{IsAnsweredOrder, stored_of};
ghost use Rattle.abt_drain.specs.Answers.{AllAnswered};
ghost use Rattle.abt_drain.specs.Crews.{AllKeep, moment_of};
ghost use Rattle.abt_waves.specs.declared.voyages.Stop.TheVariants as why;
ghost use Rattle.abt_waves.specs.Fleets.{IsFleet, IsFleetOver, MakesWave, MakesWaveOver, moment_over};
ghost use Rattle.abt_waves.specs.Leaving.{HasLeft};
ghost use Rattle.abt_waves.specs.Storing.{stored_by};
ghost use Rattle.abt_waves.specs.Waves.{AreBack};

use crate::locks::{Locked, Locking, Orders, StoredOrders};
use crate::threads::{jobs, run_jobs};
use crate::voyages::{Returned, Stop};
use crate::watch::{Starts, Watch};
use abt_commons::{Objects, Split, SplitPass};
use abt_machine::{Want, Workload};
use abt_order::StoredOrder;
use abt_stream::Stream;
use abt_work::Work;
use std::alloc::Global;
use std::sync::Wait;
use std::thread::Threads;

/// One wave: each stream that `live` marks makes turns on a thread of its own, over objects that have a lock each, until it is
/// spent, or finds nothing while no other stream has work, or finds nothing too often in a row. All others stay as they are. If no
/// thread can be started the caller's does its work. `starts` goes from wave to wave of a run. Err: out of memory, in one stream or
/// before all.
pub fn run_wave<'w, R: Threads + Wait + Sync, P: Work + Sync>(
    rt: &'w R,
    alloc: Global,
    w: &'w Workload,
    orders: &[StoredOrder],
    work: &P,
    objects: Objects<'w>,
    streams: Vec<Stream>,
    live: &[bool],
    starts: &Starts,
) -> Result<(Objects<'w>, Vec<Stream>), Want>
    requires calls { CallsStored w.now (P.count work.now) }
    requires fleet { (n : ℕ) × IsFleet w.now (stored_of orders.now (P.returns work.now)) n objects streams.items }
    requires flags { length live.now ≡ w.now.streams }
    ensures fleet { IfOk result (λ left. (n : ℕ) → IsFleet w.now (stored_of orders.now (P.returns work.now)) n objects.entry streams.items → IsFleet w.now (stored_of orders.now (P.returns work.now)) n left.0 left.1.items) }
    ensures left { IfOk result (λ left. (n : ℕ) → IsFleet w.now (stored_of orders.now (P.returns work.now)) n objects.entry streams.items → (s : ℕ) → slice_get live.now s ≡ Some true → HasLeft w.now n (moment_of w.now streams.items objects.entry) (moment_of w.now left.1.items left.0) s) }
    ensures wave { IfOk result (λ left. MakesWave w.now (stored_of orders.now (P.returns work.now)) live.now (moment_of w.now streams.items objects.entry) (moment_of w.now left.1.items left.0)) }
    ensures still { IfOk result (λ left. (s : ℕ) → slice_get live.now s ≡ Some false → slice_get left.1.items s ≡ slice_get streams.items s) }
    ensures keeps { IfOk result (λ left. (k : Bool) → AllKeep k streams.items → AllKeep k left.1.items) }
    ensures answers { IfOk result (λ left. AllAnswered w.now (IsAnsweredOrder w.now orders.now) streams.items → AllAnswered w.now (IsAnsweredOrder w.now orders.now) left.1.items) }
{
    sail::<R, P, StoredOrders<'_>, SplitPass<'w>, Split<'w, R>>(
        rt,
        alloc,
        w,
        &StoredOrders { orders },
        work,
        objects,
        streams,
        live,
        starts,
    )
}

/// The same over any locks.
pub(crate) fn sail<
    'w,
    R: Threads + Wait + Sync,
    P: Work + Sync,
    O: Orders + Sync,
    X: Send + Drop,
    L: Locking<'w, R> + Locked<Pass = X> + Sync + Drop,
>(
    rt: &'w R,
    alloc: Global,
    w: &'w Workload,
    orders: &O,
    work: &P,
    objects: Objects<'w>,
    streams: Vec<Stream>,
    live: &[bool],
    starts: &Starts,
) -> Result<(Objects<'w>, Vec<Stream>), Want>
    requires calls { CallsStored w.now (P.count work.now) }
    requires fleet { (n : ℕ) × IsFleetOver L.lock L.clock w.now (stored_by (O.shapes orders.now) (P.returns work.now)) n objects streams.items }
    requires flags { length live.now ≡ w.now.streams }
    ensures fleet { IfOk result (λ left. (n : ℕ) → IsFleetOver L.lock L.clock w.now (stored_by (O.shapes orders.now) (P.returns work.now)) n objects.entry streams.items → IsFleetOver L.lock L.clock w.now (stored_by (O.shapes orders.now) (P.returns work.now)) n left.0 left.1.items) }
    ensures left { IfOk result (λ left. (n : ℕ) → IsFleetOver L.lock L.clock w.now (stored_by (O.shapes orders.now) (P.returns work.now)) n objects.entry streams.items → (s : ℕ) → slice_get live.now s ≡ Some true → HasLeft w.now n (moment_of w.now streams.items objects.entry) (moment_of w.now left.1.items left.0) s) }
    ensures wave { IfOk result (λ left. MakesWaveOver L.lock L.clock w.now (stored_by (O.shapes orders.now) (P.returns work.now)) live.now (moment_over L.lock L.clock w.now streams.items objects.entry) (moment_over L.lock L.clock w.now left.1.items left.0)) }
    ensures still { IfOk result (λ left. (s : ℕ) → slice_get live.now s ≡ Some false → slice_get left.1.items s ≡ slice_get streams.items s) }
    ensures keeps { IfOk result (λ left. (k : Bool) → AllKeep k streams.items → AllKeep k left.1.items) }
    ensures answers { IfOk result (λ left. AllAnswered w.now (O.answered orders.now w.now) streams.items → AllAnswered w.now (O.answered orders.now w.now) left.1.items) }
{
    let count = w.streams();
    let Ok((locks, passes)) = L::make(rt, alloc, objects, count) else {
        return Err(Want);
    };
    let watch = Watch::new(alloc, w, live, starts)?;
    let jobs = jobs(alloc, &locks, streams, passes, live)?;
    let returned = run_jobs(rt, w, orders, work, &watch, jobs)?;
    starts.note(&watch);
    let (streams, passes, stops) = parted(alloc, returned)?;
    let objects = locks.open(passes);
    settle(&stops)?;
    Ok((objects, streams))
}

// The streams, their passes, and why each stopped.
fn parted<X: Drop>(
    alloc: Global,
    returned: Vec<Returned<X>>,
) -> Result<(Vec<Stream>, Vec<X>, Vec<Stop>), Want>
    ensures { IfOk result (λ parted. AreBack returned.items parted.0.items parted.1.items parted.2.items) }
{
    let mut streams = Vec::with_capacity(alloc, returned.len())?;
    let mut passes = Vec::with_capacity(alloc, returned.len())?;
    let mut stops = Vec::with_capacity(alloc, returned.len())?;
    'returned: for back in returned {
        let Returned { stream, pass, stop } = back;
        streams.push(stream)?;
        passes.push(pass)?;
        stops.push(stop)?;
    }
    Ok((streams, passes, stops))
}

// Err: a stream is out of memory.
fn settle(stops: &[Stop]) -> Result<(), Want>
    ensures { OnOk result (All (λ stop. stop ≢ why.Refused) stops.now) }
{
    if stops.iter().all(|stop| has_memory(*stop)) {
        Ok(())
    } else {
        Err(Want)
    }
}

// Whether a stream left for another reason than want of memory.
fn has_memory(stop: Stop) -> bool
    ensures { IsTrue result ↔ stop ≢ why.Refused }
{
    !matches!(stop, Stop::Refused)
}
