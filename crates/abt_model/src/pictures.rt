//! The picture of the units that streams and objects hold.

ghost use Rattle.std.specs.Prelude.{◌≡◌, ◌<◌, [], ◌∷◌, ◌++◌, IfOk, drop, length, option_copied, replicate, set, slice_get};
ghost use Rattle.abt_machine.specs.declared.events.Shown.TheVariants as shows;
ghost use Rattle.abt_machine.specs.Monitors.{list_from};
ghost use Rattle.abt_machine.specs.Queues.{first};
ghost use Rattle.abt_machine.specs.Values.{conditions_of};
ghost use Rattle.abt_machine.specs.Workloads.{thing_at};
ghost use Rattle.abt_calls.specs.Effects.{unit_in};
ghost use Rattle.abt_calls.specs.Showing.{rows_as, rows_at, rows_at_desk, rows_of_part};
ghost use Rattle.abt_model.specs.Pictures.{blank, placed, rows_below, rows_of_desk, rows_of_lane, rows_of_pool, rows_of_slot, rows_of_thing, RunsSayOwnWords};
ghost use Rattle.abt_replay.specs.Phases.{phase_of};

use abt_machine::{ObjectNo, Output, PoolNo, Shown, StreamNo, Thing, UnitNo, Want, Workload};
use abt_replay::{Desk, Kept, Lane, Monitor, Objects, Phase, Pool, Slot, Unit, Waiters};
use abt_report::Row;
use std::alloc::Global;
use std::collections::VecDeque;

/// In every run of a valid workload what units put out are pieces of the workload.
pub fn runs_say_own_words()
    ensures { RunsSayOwnWords }
{}

/// One row a unit, each of an unborn unit that put out nothing. Out of memory is the only error.
pub(crate) fn blanks(alloc: Global, units: u32) -> Result<Vec<Row>, Want>
    ensures { IfOk result (λ rows. rows.items ≡ replicate units blank) }
{
    let mut rows = Vec::with_capacity(alloc, units as usize)?;
    for _ in 0..units {
        rows.push(Row {
            shown: Shown::Unborn,
            output: Output::new(Vec::new(alloc)),
        })?;
    }
    Ok(rows)
}

/// Puts in the units of all streams. Out of memory is the only error.
pub(crate) fn place_lanes(w: &Workload, lanes: &[Lane], rows: &mut Vec<Row>) -> Result<(), Want>
    ensures { IfOk result (λ _. rows.new.items ≡ placed (rows_below (λ s. rows_of_lane s (slice_get lanes.now s)) w.now.streams) rows.old.items) }
{
    for s in 0..w.streams() {
        place_lane(StreamNo(s), lanes.get(s as usize), rows)?;
    }
    Ok(())
}

/// Puts in the units that pools hold. Out of memory is the only error.
pub(crate) fn place_pools(w: &Workload, pools: &[Pool], rows: &mut Vec<Row>) -> Result<(), Want>
    ensures { IfOk result (λ _. rows.new.items ≡ placed (rows_below (λ p. rows_of_pool p (slice_get pools.now p)) (length w.now.pools)) rows.old.items) }
{
    for p in 0..w.pools() {
        place_pool(PoolNo(p), pools.get(p as usize), rows)?;
    }
    Ok(())
}

/// Puts in the units that desks hold. Out of memory is the only error.
pub(crate) fn place_desks(w: &Workload, desks: &[Desk], rows: &mut Vec<Row>) -> Result<(), Want>
    ensures { IfOk result (λ _. rows.new.items ≡ placed (rows_below (λ u. rows_of_desk u (slice_get desks.now u)) (length w.now.units)) rows.old.items) }
{
    for u in 0..w.units() {
        place_desk(UnitNo(u), desks.get(u as usize), rows)?;
    }
    Ok(())
}

/// Puts in the units that wait at declared objects. Out of memory is the only error.
pub(crate) fn place_things(w: &Workload, slots: &[Slot], rows: &mut Vec<Row>) -> Result<(), Want>
    ensures { IfOk result (λ _. rows.new.items ≡ placed (rows_below (λ x. rows_of_thing w.now x (thing_at w.now x) (slice_get slots.now x)) (length w.now.objects)) rows.old.items) }
{
    for x in 0..w.objects() {
        place_thing(w, ObjectNo(x), slots.get(x as usize), rows)?;
    }
    Ok(())
}

// Puts in the units of a stream, if it is there.
fn place_lane(s: StreamNo, lane: Option<&Lane>, rows: &mut Vec<Row>) -> Result<(), Want>
    ensures { IfOk result (λ _. rows.new.items ≡ placed (rows_of_lane s.0 (option_copied lane.entry)) rows.old.items) }
{
    match lane {
        Some(lane) => place_parts(Shown::Stream(s), lane, rows),
        None => Ok(()),
    }
}

// Puts in the units of a stream, shown alike.
fn place_parts(shown: Shown, lane: &Lane, rows: &mut Vec<Row>) -> Result<(), Want>
    ensures { IfOk result (λ _. rows.new.items ≡ placed (rows_as shown (unit_in lane.now.hand ++ unit_in lane.now.next ++ lane.now.tray ++ lane.now.framed)) rows.old.items) }
{
    place_some(shown, lane.hand(), rows)?;
    place_some(shown, lane.next(), rows)?;
    place_queue(shown, lane.tray(), rows)?;
    place_all(shown, lane.framed(), rows)
}

// Puts in the units of a pool, if it is there.
fn place_pool(p: PoolNo, pool: Option<&Pool>, rows: &mut Vec<Row>) -> Result<(), Want>
    ensures { IfOk result (λ _. rows.new.items ≡ placed (rows_of_pool p.0 (option_copied pool.entry)) rows.old.items) }
{
    match pool {
        Some(pool) => place_queue(Shown::Pool(p), pool.units(), rows),
        None => Ok(()),
    }
}

// Puts in the units of a desk, if it is there.
fn place_desk(u: UnitNo, desk: Option<&Desk>, rows: &mut Vec<Row>) -> Result<(), Want>
    ensures { IfOk result (λ _. rows.new.items ≡ placed (rows_of_desk u.0 (option_copied desk.entry)) rows.old.items) }
{
    let Some(desk) = desk else {
        return Ok(());
    };
    place_own(desk.phase(), rows)?;
    place_queue(Shown::Join(u), desk.joiners(), rows)
}

// Puts in a desk's own unit, if the desk holds it.
fn place_own(phase: &Phase, rows: &mut Vec<Row>) -> Result<(), Want>
    ensures { IfOk result (λ _. rows.new.items ≡ placed (rows_at_desk (phase_of phase.now)) rows.old.items) }
{
    match phase {
        Phase::Unborn(unit) => place(Shown::Unborn, unit, rows),
        Phase::Out => Ok(()),
        Phase::Suspended(unit) => place(Shown::Suspended, unit, rows),
        Phase::Ended(unit, cause) => place(Shown::Ended(*cause), unit, rows),
    }
}

// Puts in the units that wait at a thing and, if it is a mutex, at its conditions.
fn place_thing(
    w: &Workload,
    x: ObjectNo,
    slot: Option<&Slot>,
    rows: &mut Vec<Row>,
) -> Result<(), Want>
    requires { x.0 < length w.now.objects }
    ensures { IfOk result (λ _. rows.new.items ≡ placed (rows_of_thing w.now x.0 (thing_at w.now x.0) (option_copied slot.entry)) rows.old.items) }
{
    match w.thing(x) {
        Thing::Cond(_) => Ok(()),
        _ => place_slot(w, x, slot, rows),
    }
}

// Puts in the units of a declared object, if it is there.
fn place_slot(
    w: &Workload,
    x: ObjectNo,
    slot: Option<&Slot>,
    rows: &mut Vec<Row>,
) -> Result<(), Want>
    ensures { IfOk result (λ _. rows.new.items ≡ placed (rows_of_slot w.now x.0 (option_copied slot.entry)) rows.old.items) }
{
    let Some(slot) = slot else {
        return Ok(());
    };
    let shown = Shown::Object(x);
    match &slot.kept {
        Kept::Monitor(monitor) => place_monitor(w, x, monitor, rows),
        Kept::Eventual(eventual) => place_queue(shown, eventual.waiters(), rows),
        Kept::Future(future) => place_queue(shown, future.waiters(), rows),
        Kept::Barrier(barrier) => place_queue(shown, barrier.waiters(), rows),
        Kept::RwLock(lock) => place_queue(shown, lock.waiters(), rows),
        Kept::WithItsMutex => Ok(()),
    }
}

// Puts in the units that wait for a mutex, and those that wait at its conditions.
fn place_monitor(
    w: &Workload,
    x: ObjectNo,
    monitor: &Monitor,
    rows: &mut Vec<Row>,
) -> Result<(), Want>
    ensures { IfOk result (λ _. rows.new.items ≡ placed (rows_as (shows.Object x) monitor.now.waiters ++ rows_at (conditions_of w.now x.0) monitor.now.conds) rows.old.items) }
{
    place_queue(Shown::Object(x), monitor.waiters(), rows)?;
    place_conditions(w, x, monitor.conds(), rows)
}

// Puts in the units that wait at the conditions of a mutex.
fn place_conditions(
    w: &Workload,
    x: ObjectNo,
    conds: &[Waiters],
    rows: &mut Vec<Row>,
) -> Result<(), Want>
    ensures { IfOk result (λ _. rows.new.items ≡ placed (rows_at (conditions_of w.now x.0) conds.now) rows.old.items) }
{
    let mut left = conds;
    for y in 0..w.objects() {
        if left.is_empty() {
            return Ok(());
        }
        if !w.thing(ObjectNo(y)).is_condition_of(x) {
            continue;
        }
        left = place_first(ObjectNo(y), left, rows)?;
    }
    Ok(())
}

// Puts in the units that wait at the first of the conditions, which has that number, and returns the others.
fn place_first<'a>(
    y: ObjectNo,
    conds: &'a [Waiters],
    rows: &mut Vec<Row>,
) -> Result<&'a [Waiters], Want>
    ensures rows { IfOk result (λ left. rows.new.items ≡ placed (rows_as (shows.Object y) (list_from (first conds.now))) rows.old.items) }
    ensures left { IfOk result (λ left. left.now ≡ drop 1 conds.now) }
{
    let Some((first, others)) = conds.split_first() else {
        return Ok(conds);
    };
    place_queue(Shown::Object(y), first.units(), rows)?;
    Ok(others)
}

// Puts in a unit, if there is one.
fn place_some(shown: Shown, unit: Option<&Unit>, rows: &mut Vec<Row>) -> Result<(), Want>
    ensures { IfOk result (λ _. rows.new.items ≡ placed (rows_as shown (unit_in (option_copied unit.entry))) rows.old.items) }
{
    match unit {
        Some(unit) => place(shown, unit, rows),
        None => Ok(()),
    }
}

// Puts in the units of a queue.
fn place_queue(shown: Shown, units: &VecDeque<Unit>, rows: &mut Vec<Row>) -> Result<(), Want>
    ensures { IfOk result (λ _. rows.new.items ≡ placed (rows_as shown units.now.items) rows.old.items) }
{
    let (first, others) = units.as_slices();
    place_all(shown, first, rows)?;
    place_all(shown, others, rows)
}

// Puts in these units.
fn place_all(shown: Shown, units: &[Unit], rows: &mut Vec<Row>) -> Result<(), Want>
    ensures { IfOk result (λ _. rows.new.items ≡ placed (rows_as shown units.now) rows.old.items) }
{
    for unit in units {
        place(shown, unit, rows)?;
    }
    Ok(())
}

// Puts in a unit.
fn place(shown: Shown, unit: &Unit, rows: &mut Vec<Row>) -> Result<(), Want>
    ensures { IfOk result (λ _. rows.new.items ≡ placed (rows_as shown (unit.now ∷ [])) rows.old.items) }
{
    let output = Output::new(Vec::from_slice(*rows.allocator(), unit.output())?);
    store(rows, unit.number(), Row { shown, output });
    Ok(())
}

// Sets the row of a unit, if it has one.
fn store(rows: &mut Vec<Row>, u: UnitNo, row: Row)
    ensures { rows.new.items ≡ set rows.old.items u.0 row }
{
    if let Some(place) = rows.get_mut(u.0 as usize) {
        *place = row;
    }
}
