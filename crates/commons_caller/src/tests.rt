ghost use Rattle.std.specs.Prelude.{◌≡◌};
ghost use Rattle.std.specs.List.{All};
ghost use Rattle.abt_unit.specs.Fits.{Fits};

mod asking;
mod crossing;
mod players;
mod rows;

use self::crossing::{THREADS, are_held_once, play_on_threads};
use self::players::{Heard, Request, play, play_all};
use self::rows::{BARRIERS, DESKS, EVENTUALS, FIFO, FUTURES, KINDS, MONITORS, POOLS, RWLOCKS};
use super::looked;
use abt_chain::Chain;
use abt_commons::{Commons, Hall, Objects, Plain, Split};
use abt_machine::*;
use abt_workload::read;
use std::alloc::{AllocError, Global};
use std::process::Abort;
use std::sync::Wait;
use std::test::*;
use std::thread::Threads;

// What is shown of the two units, and that there is no third.
fn as_placed(rt: &impl Abort, objects: &Objects) {
    assert!(rt; objects.shown(UnitNo(0)) == Some(Shown::Pool(PoolNo(0))));
    assert!(rt; objects.shown(UnitNo(1)) == Some(Shown::Unborn));
    assert!(rt; objects.shown(UnitNo(2)) == None);
    assert!(rt; objects.output(UnitNo(1)).is_some());
    assert!(rt; objects.output(UnitNo(2)).is_none());
}

#[test]
fn a_look_moves_no_unit(rt: HostRuntime) -> Result<(), Fail> {
    let w = workload_of(&rt, rt.alloc(), 1)?;
    assert!(rt; w.units() == 2);
    let objects = looked(rt.alloc(), &w, UnitNo(0))?;
    as_placed(&rt, &objects);
    Ok(())
}

// The objects, after a hall around them was closed, if there was memory for one.
fn through_hall<'w, R: Wait>(rt: &'w R, alloc: Global, objects: Objects<'w>) -> Objects<'w> {
    match Hall::make(rt, alloc, objects, 2) {
        Ok((hall, passes)) => hall.close(passes),
        Err(objects) => objects,
    }
}

// The same of a split.
fn through_split<'w, R: Wait>(rt: &'w R, alloc: Global, objects: Objects<'w>) -> Objects<'w> {
    match Split::make(rt, alloc, objects, 2) {
        Ok((split, passes)) => split.close(passes),
        Err(objects) => objects,
    }
}

#[test]
fn halls_and_splits_give_the_objects_back(rt: HostRuntime) -> Result<(), Fail> {
    let w = workload_of(&rt, rt.alloc(), 1)?;
    let objects = Objects::place(rt.alloc(), &w)?;
    let objects = through_hall(&rt, rt.alloc(), objects);
    as_placed(&rt, &objects);
    let objects = through_split(&rt, rt.alloc(), objects);
    as_placed(&rt, &objects);
    Ok(())
}

// Plays the rows of all kinds, with one hand.
fn play_every_kind<'w, C: Commons<'w>>(
    rt: &impl Abort,
    commons: &C,
    pass: &mut C::Pass,
    w: &Workload,
)
    requires workload { C.workload commons.now ≡ w.now }
    requires pass { C.is_of commons.now pass.old }
    ensures { C.is_of commons.now pass.new }
{
    let mut hand = Chain::new();
    play_all(rt, commons, pass, w, &mut hand, &POOLS);
    play_all(rt, commons, pass, w, &mut hand, &DESKS);
    play_all(rt, commons, pass, w, &mut hand, &MONITORS);
    play_all(rt, commons, pass, w, &mut hand, &EVENTUALS);
    play_all(rt, commons, pass, w, &mut hand, &FUTURES);
    play_all(rt, commons, pass, w, &mut hand, &BARRIERS);
    play_all(rt, commons, pass, w, &mut hand, &RWLOCKS);
}

// The workload with objects of all kinds, and `started` units that start in pool 0 besides an unborn one.
fn workload_of(rt: &impl Abort, alloc: Global, started: u8) -> Result<Workload, AllocError> {
    let text = text_of(alloc, started)?;
    match read(alloc, text.as_bytes()) {
        Ok(w) => Ok(w),
        Err(_) => panic!(rt; "not read"),
    }
}

// Plays the rows over each form of the objects.

fn play_in_plain<'w>(rt: &impl Abort, objects: Objects<'w>, w: &Workload)
    requires { objects.workload ≡ w.now }
{
    let (plain, mut pass) = Plain::make(objects);
    play_every_kind(rt, &plain, &mut pass, w);
}

fn play_in_hall<'w, R: Abort + Wait>(rt: &'w R, alloc: Global, objects: Objects<'w>, w: &Workload)
    requires { objects.workload ≡ w.now }
{
    let Ok((hall, mut passes)) = Hall::make(rt, alloc, objects, 1) else {
        panic!(rt; "no memory")
    };
    let Some(mut pass) = passes.pop() else {
        panic!(rt; "no pass")
    };
    play_every_kind(rt, &hall, &mut pass, w);
}

fn play_in_split<'w, R: Abort + Wait>(rt: &'w R, alloc: Global, objects: Objects<'w>, w: &Workload)
    requires { objects.workload ≡ w.now }
{
    let Ok((split, mut passes)) = Split::make(rt, alloc, objects, 1) else {
        panic!(rt; "no memory")
    };
    let Some(mut pass) = passes.pop() else {
        panic!(rt; "no pass")
    };
    play_every_kind(rt, &split, &mut pass, w);
}

// Takes the next units of the FIFO pool, which have the numbers from `from` to before `end`, and rests.
fn take_some<'w, C: Commons<'w>>(
    rt: &impl Abort,
    commons: &C,
    pass: &mut C::Pass,
    w: &Workload,
    hand: &mut Chain,
    from: u32,
    end: u32,
)
    requires workload { C.workload commons.now ≡ w.now }
    requires pass { C.is_of commons.now pass.old }
    requires hand { All (Fits w.now) hand.old.units }
    ensures pass { C.is_of commons.now pass.new }
    ensures hand { All (Fits w.now) hand.new.units }
{
    for u in from..end {
        let heard = play(commons, pass, w, hand, FIFO, Request::Take(Side::Front));
        assert!(rt; heard == Some(Heard::Given(u)));
    }
    commons.rest(pass);
}

// Two passes of one thread take units from one pool in turns. The calls of each but the last are by a turn that it keeps.
fn take_in_turns<'w, R: Abort + Wait>(rt: &'w R, alloc: Global, objects: Objects<'w>, w: &Workload)
    requires { objects.workload ≡ w.now }
{
    let Ok((split, mut passes)) = Split::make(rt, alloc, objects, 2) else {
        panic!(rt; "no memory")
    };
    let Some(mut second) = passes.pop() else {
        panic!(rt; "no pass")
    };
    let Some(mut first) = passes.pop() else {
        panic!(rt; "no pass")
    };
    let mut hand = Chain::new();
    take_some(rt, &split, &mut first, w, &mut hand, 0, 3);
    take_some(rt, &split, &mut second, w, &mut hand, 3, 5);
    take_some(rt, &split, &mut first, w, &mut hand, 5, 6);
}

#[test]
fn a_pass_that_rests_lets_others_call(rt: HostRuntime) -> Result<(), Fail> {
    let w = workload_of(&rt, rt.alloc(), 7)?;
    let objects = Objects::place(rt.alloc(), &w)?;
    take_in_turns(&rt, rt.alloc(), objects, &w);
    Ok(())
}

#[test]
fn each_act_is_answered(rt: HostRuntime) -> Result<(), Fail> {
    let w = workload_of(&rt, rt.alloc(), 3)?;
    let objects = Objects::place(rt.alloc(), &w)?;
    play_in_plain(&rt, objects, &w);
    let objects = Objects::place(rt.alloc(), &w)?;
    play_in_hall(&rt, rt.alloc(), objects, &w);
    let objects = Objects::place(rt.alloc(), &w)?;
    play_in_split(&rt, rt.alloc(), objects, &w);
    Ok(())
}

// Threads that share a hall or a split lose no unit.

fn hall_loses_no_unit<'w, R: Abort + Threads + Wait + Sync>(
    rt: &'w R,
    alloc: Global,
    objects: Objects<'w>,
    w: &Workload,
) -> Result<(), Fail>
    requires { objects.workload ≡ w.now }
{
    let Ok((hall, passes)) = Hall::make(rt, alloc, objects, THREADS) else {
        panic!(rt; "no memory")
    };
    let (passes, kept) = play_on_threads(rt, &hall, passes, w)?;
    are_held_once(rt, alloc, hall.close(passes), kept, w.units())
}

fn split_loses_no_unit<'w, R: Abort + Threads + Wait + Sync>(
    rt: &'w R,
    alloc: Global,
    objects: Objects<'w>,
    w: &Workload,
) -> Result<(), Fail>
    requires { objects.workload ≡ w.now }
{
    let Ok((split, passes)) = Split::make(rt, alloc, objects, THREADS) else {
        panic!(rt; "no memory")
    };
    let (passes, kept) = play_on_threads(rt, &split, passes, w)?;
    are_held_once(rt, alloc, split.close(passes), kept, w.units())
}

// The same of both, one after the other.
fn threads_lose_none<'w, R: Abort + Threads + Wait + Sync>(
    rt: &'w R,
    alloc: Global,
    w: &'w Workload,
) -> Result<(), Fail> {
    let objects = Objects::place(alloc, w)?;
    hall_loses_no_unit(rt, alloc, objects, w)?;
    let objects = Objects::place(alloc, w)?;
    split_loses_no_unit(rt, alloc, objects, w)
}

#[test]
fn threads_lose_no_unit(rt: HostRuntime) -> Result<(), Fail> {
    let w = workload_of(&rt, rt.alloc(), 255)?;
    threads_lose_none(&rt, rt.alloc(), &w)
}

// The text of a workload with objects of all kinds, and `started` units that start in pool 0 besides an unborn one.
fn text_of(alloc: Global, started: u8) -> Result<String, AllocError> {
    let mut text = String::from_str(alloc, KINDS)?;
    push_units(&mut text, started)?;
    Ok(text)
}

// Appends the lines of the units.
fn push_units(text: &mut String, started: u8) -> Result<(), AllocError> {
    writeln!(text, "units {}", u32::from(started) + 1)?;
    for u in 0..started {
        push_unit(text, u, "ult at 0")?;
    }
    push_unit(text, started, "ult later\nend")
}

fn push_unit(text: &mut String, u: u8, rest: &str) -> Result<(), AllocError> {
    writeln!(text, "unit {u} {rest}")
}
