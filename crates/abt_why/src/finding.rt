//! What each unit waits for, found in a picture of the units and in what objects hold.

ghost use Rattle.std.specs.Prelude.{◌≡◌, ◌==◌, ◌<◌, [], ◌∷◌, ◌++◌, if◌then◌else◌, IfOk, length, option_copied, option_map, slice_get};
ghost use Rattle.std.specs.List.{list_any};
ghost use Rattle.abt_machine.specs.declared.numbers.PoolNo.{PoolNo};
ghost use Rattle.abt_machine.specs.declared.numbers.UnitNo.{UnitNo};
ghost use Rattle.abt_machine.specs.Holders.{reads};
ghost use Rattle.abt_machine.specs.Workloads.{thing_at};
ghost use Rattle.abt_why.specs.Held.{awaited_in, shown_in, wait_as, wait_by, wait_shown, waits_held};
ghost use Rattle.abt_why.specs.Waits.{holders_as, is_listed, main_lists, readers_as, readers_of, wish_of};

use crate::waits::{Awaited, Holders, Wait};
use abt_machine::{Items, ObjectNo, PoolNo, Shown, StreamNo, Thing, UnitNo, Want, Wish, Workload};
use abt_replay::{Kept, RwLock, Slot};
use abt_report::Row;
use std::alloc::Global;

/// What each unit waits for, in order of number. Out of memory is the only error.
pub(crate) fn waits(
    alloc: Global,
    w: &Workload,
    slots: &[Slot],
    rows: &[Row],
) -> Result<Vec<Wait>, Want>
    ensures { IfOk result (λ waits. waits.items ≡ waits_held w.now slots.now rows.now) }
{
    let mut waits = Vec::with_capacity(alloc, w.units() as usize)?;
    for u in 0..w.units() {
        waits.push(wait_of(alloc, w, slots, rows, UnitNo(u))?)?;
    }
    Ok(waits)
}

// What a unit waits for.
fn wait_of(
    alloc: Global,
    w: &Workload,
    slots: &[Slot],
    rows: &[Row],
    u: UnitNo,
) -> Result<Wait, Want>
    ensures { IfOk result (λ wait. wait ≡ wait_shown w.now slots.now rows.now u.0 (shown_in rows.now u.0)) }
{
    match shown(rows, u) {
        Shown::Unborn => Ok(Wait::Nothing),
        Shown::Pool(p) => Ok(Wait::Pool(p, is_listed(w, p))),
        Shown::Stream(s) => Ok(Wait::Stream(s)),
        Shown::Suspended => Ok(Wait::Resume),
        Shown::Join(v) => Ok(Wait::Join(awaited(rows, v))),
        Shown::Object(x) => wait_at(alloc, w, slots, rows, u, x),
        Shown::Ended(_) => Ok(Wait::Nothing),
    }
}

// Where the picture shows a unit.
fn shown(rows: &[Row], v: UnitNo) -> Shown
    ensures { result ≡ shown_in rows.now v.0 }
{
    match rows.get(v.0 as usize) {
        Some(row) => row.shown,
        None => Shown::Unborn,
    }
}

// A unit for which another waits.
fn awaited(rows: &[Row], v: UnitNo) -> Awaited
    ensures { result ≡ awaited_in rows.now v.0 }
{
    Awaited {
        unit: v,
        shown: shown(rows, v),
    }
}

// The same, if there is one.
fn some_awaited(rows: &[Row], v: Option<UnitNo>) -> Option<Awaited>
    ensures { result ≡ option_map (awaited_in rows.now) (option_map (λ (u : UnitNo). u.0) v) }
{
    match v {
        Some(v) => Some(awaited(rows, v)),
        None => None,
    }
}

// Whether a main scheduler lists the pool.
fn is_listed(w: &Workload, p: PoolNo) -> bool
    ensures { result ≡ is_listed w.now p.0 }
{
    for s in 0..w.streams() {
        if main_lists(w, StreamNo(s), p) {
            return true;
        }
    }
    false
}

// Whether the main scheduler of the stream lists the pool.
fn main_lists(w: &Workload, s: StreamNo, p: PoolNo) -> bool
    requires { s.0 < w.now.streams }
    ensures { result ≡ main_lists w.now p.0 s.0 }
{
    w.known();
    lists(w.sched(w.main(s)).pools.items(), p)
}

// Whether the pool is one of these.
fn lists(pools: &[PoolNo], p: PoolNo) -> bool
    ensures { result ≡ list_any (λ (q : PoolNo). q.0 == p.0) pools.now }
{
    pools.iter().any(|q| q.0 == p.0)
}

// What a unit waits for at an object.
fn wait_at(
    alloc: Global,
    w: &Workload,
    slots: &[Slot],
    rows: &[Row],
    u: UnitNo,
    x: ObjectNo,
) -> Result<Wait, Want>
    ensures { IfOk result (λ wait. wait ≡ wait_as w.now rows.now u.0 x (thing_at w.now x.0) (slice_get slots.now x.0)) }
{
    if x.0 >= w.objects() {
        return Ok(Wait::Nothing);
    }
    match w.thing(x) {
        Thing::Cond(m) => Ok(Wait::Condition(x, m)),
        _ => wait_by(alloc, w, rows, u, x, slots.get(x.0 as usize)),
    }
}

// What a unit waits for at an object, by what that holds.
fn wait_by(
    alloc: Global,
    w: &Workload,
    rows: &[Row],
    u: UnitNo,
    x: ObjectNo,
    slot: Option<&Slot>,
) -> Result<Wait, Want>
    ensures { IfOk result (λ wait. wait ≡ wait_by w.now rows.now u.0 x (option_copied slot.entry)) }
{
    let Some(slot) = slot else {
        return Ok(Wait::Nothing);
    };
    match &slot.kept {
        Kept::Monitor(monitor) => Ok(Wait::Mutex(x, some_awaited(rows, monitor.owner()))),
        Kept::Eventual(_) => Ok(Wait::Eventual(x)),
        Kept::Future(future) => Ok(Wait::Future(
            x,
            u64::from(future.filled()),
            u64::from(future.size()),
        )),
        Kept::Barrier(barrier) => Ok(Wait::Barrier(
            x,
            barrier.waiters().len() as u64,
            u64::from(barrier.size()),
        )),
        Kept::RwLock(lock) => Ok(Wait::RwLock(
            x,
            wish(lock, u),
            holders(rows, lock.writer(), readers(alloc, w, lock)?),
        )),
        Kept::WithItsMutex => Ok(Wait::Nothing),
    }
}

// What a unit wants that waits at the lock.
fn wish(lock: &RwLock, u: UnitNo) -> Wish
    ensures { result ≡ wish_of lock.now.lock u.0 }
{
    if lock.wants_to_read(u) {
        return Wish::Read;
    }
    Wish::Write
}

// Who holds a reader-writer lock that this unit writes, if there is one, or that these read.
fn holders(rows: &[Row], writer: Option<UnitNo>, readers: Items<UnitNo>) -> Holders
    ensures { result ≡ holders_as (awaited_in rows.now) (option_map (λ (u : UnitNo). u.0) writer) readers }
{
    match writer {
        Some(v) => Holders::Writer(awaited(rows, v)),
        None => holding(rows, readers),
    }
}

// Who holds a reader-writer lock that these units read.
fn holding(rows: &[Row], readers: Items<UnitNo>) -> Holders
    ensures { result ≡ readers_as (awaited_in rows.now) readers }
{
    match readers.items() {
        [v] => Holders::Reader(awaited(rows, *v)),
        _ => Holders::Readers(readers),
    }
}

// The units that read, in order of number.
fn readers(alloc: Global, w: &Workload, lock: &RwLock) -> Result<Items<UnitNo>, Want>
    ensures { IfOk result (λ readers. readers ≡ readers_of w.now lock.now.lock) }
{
    let mut readers = Vec::new(alloc);
    for v in 0..w.units() {
        push_reader(&mut readers, lock, UnitNo(v))?;
    }
    Ok(Items::new(readers))
}

// Appends the unit if it reads.
fn push_reader(readers: &mut Vec<UnitNo>, lock: &RwLock, v: UnitNo) -> Result<(), Want>
    ensures { IfOk result (λ _. readers.new.items ≡ readers.old.items ++ (if reads v.0 lock.now.lock then v ∷ [] else [])) }
{
    if lock.reads(v) {
        readers.push(v)?;
    }
    Ok(())
}
