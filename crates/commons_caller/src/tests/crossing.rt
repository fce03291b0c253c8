//! Threads that move units among pools, a mutex, a barrier and a reader-writer lock, after which each unit is held once.

ghost use Rattle.std.specs.Prelude.{◌≡◌, ℕ, IfOk};
ghost use Rattle.std.specs.List.{All};
ghost use Rattle.abt_machine.specs.declared.workload.Parts.{Parts};
ghost use Rattle.abt_unit.specs.Fits.{Fits};
ghost use Rattle.abt_booth.specs.Seats.{IsSeatOf, number_of, opening_of};
ghost use Rattle.abt_commons.specs.AllPasses.{AreAll};
ghost use Rattle.abt_commons.specs.Splits.{IsPassOf, pass_stream};

use super::players::{Heard, Request, play};
use super::rows::{BARRIER, DEQUE, FIFO, MONITOR, RWLOCK};
use abt_chain::Chain;
use abt_commons::{Commons, Hall, HallPass, Objects, Split, SplitPass};
use abt_machine::{Side, Site, UnitNo, Workload};
use std::alloc::{AllocError, Global};
use std::process::Abort;
use std::sync::{Mutex, Wait};
use std::test::*;
use std::thread;
use std::thread::Threads;

/// How many threads there are, each with a pass of its own.
pub const THREADS: u32 = 4;

// How many rounds each thread plays. The FIFO pool never runs empty: it starts with 255 units, and lacks at most two for each of
// the 120 rounds, which wait at the mutex and at the reader-writer lock or were woken there, one that waits at the barrier, and
// three for each thread.
const ROUNDS: u32 = 30;

// What a thread asks in a round, which moves a unit each time: four threads move 960 units and more.
const ROUND: [(Site, Request); 8] = [
    (FIFO, Request::Take(Side::Front)),
    (DEQUE, Request::Put),
    (DEQUE, Request::Take(Side::Back)),
    (MONITOR, Request::Lock),
    (FIFO, Request::Take(Side::Front)),
    (BARRIER, Request::Arrive),
    (FIFO, Request::Take(Side::Front)),
    (RWLOCK, Request::WriteLock),
];

// What is asked at the site after what was heard there. A unit that has the mutex, or writes at the reader-writer lock, unlocks
// it, and so does each that gets it then. After a unit that went back to the FIFO pool goes the next in hand.
fn next_request(site: Site, heard: Option<Heard>) -> Option<Request> {
    match heard? {
        Heard::Given(u) | Heard::Woke(Some(u)) if site == MONITOR => Some(Request::Unlock(u)),
        Heard::Given(u) | Heard::Woke(Some(u)) if site == RWLOCK => Some(Request::RwUnlock(u)),
        Heard::Rested if site == FIFO => Some(Request::Put),
        _ => None,
    }
}

// Asks the site for this, and for what comes next, until nothing does.
fn play_on<'w, C: Commons<'w>>(
    commons: &C,
    pass: &mut C::Pass,
    w: &Workload,
    hand: &mut Chain,
    site: Site,
    mut request: Option<Request>,
)
    requires workload { C.workload commons.now ≡ w.now }
    requires pass { C.is_of commons.now pass.old }
    requires hand { All (Fits w.now) hand.old.units }
    ensures pass { C.is_of commons.now pass.new }
    ensures number { C.number pass.new ≡ C.number pass.old }
    ensures hand { All (Fits w.now) hand.new.units }
{
    for _ in 0..w.units() {
        let Some(asked) = request else { return };
        request = next_request(site, play(commons, pass, w, hand, site, asked));
    }
}

// A round, which begins and ends with no unit in hand.
fn play_round<'w, C: Commons<'w>>(
    rt: &impl Abort,
    commons: &C,
    pass: &mut C::Pass,
    w: &Workload,
    hand: &mut Chain,
)
    requires workload { C.workload commons.now ≡ w.now }
    requires pass { C.is_of commons.now pass.old }
    requires hand { All (Fits w.now) hand.old.units }
    ensures pass { C.is_of commons.now pass.new }
    ensures number { C.number pass.new ≡ C.number pass.old }
    ensures hand { All (Fits w.now) hand.new.units }
{
    for (site, request) in &ROUND {
        let heard = play(commons, pass, w, hand, *site, *request);
        assert!(rt; heard.is_some() && heard != Some(Heard::Miss));
        play_on(commons, pass, w, hand, *site, next_request(*site, heard));
    }
    play_on(commons, pass, w, hand, FIFO, Some(Request::Put));
}

// All rounds of a thread. It takes one unit more, and keeps it with those that the others keep.
fn work<'w, R: Abort + Wait, C: Commons<'w>>(
    rt: &R,
    commons: &C,
    pass: &mut C::Pass,
    w: &Workload,
    kept: &Mutex<Chain>,
)
    requires workload { C.workload commons.now ≡ w.now }
    requires pass { C.is_of commons.now pass.old }
    ensures pass { C.is_of commons.now pass.new }
    ensures number { C.number pass.new ≡ C.number pass.old }
{
    let mut hand = Chain::new();
    for _ in 0..ROUNDS {
        play_round(rt, commons, pass, w, &mut hand);
    }
    play(
        commons,
        pass,
        w,
        &mut hand,
        FIFO,
        Request::Take(Side::Front),
    );
    commons.rest(pass);
    hand.drain_into(&mut kept.lock(rt));
}

/// Objects that threads share, each of which has a pass of its own.
pub trait AreShared {
    type Pass;

    // The workload for which the objects were placed.
    ghost workload: { Self → Parts };

    // The pass is of these objects.
    ghost is_of: { Self → Self.Pass → Type 0 };

    // The number of the pass.
    ghost number: { Self.Pass → ℕ };

    /// All rounds of a thread.
    fn play_rounds<R: Abort + Wait>(
        &self,
        rt: &R,
        pass: &mut Self::Pass,
        w: &Workload,
        kept: &Mutex<Chain>,
    )
        requires workload { workload self.now ≡ w.now }
        requires pass { is_of self.now pass.old }
        ensures pass { is_of self.now pass.new }
        ensures number { number pass.new ≡ number pass.old };
}

impl<'w, H: Wait> AreShared for Hall<'w, H> {
    type Pass = HallPass<'w>;

    ghost workload = { λ hall. (opening_of hall.booth).workload };

    ghost is_of = { λ hall pass. IsSeatOf hall.booth pass };

    ghost number = { λ pass. number_of pass };

    fn play_rounds<R: Abort + Wait>(
        &self,
        rt: &R,
        pass: &mut HallPass<'w>,
        w: &Workload,
        kept: &Mutex<Chain>,
    ) {
        work(rt, self, pass, w, kept)
    }
}

impl<'w, H: Wait> AreShared for Split<'w, H> {
    type Pass = SplitPass<'w>;

    ghost workload = { λ split. split.workload };

    ghost is_of = { λ split pass. IsPassOf split pass };

    ghost number = { λ pass. pass_stream pass };

    fn play_rounds<R: Abort + Wait>(
        &self,
        rt: &R,
        pass: &mut SplitPass<'w>,
        w: &Workload,
        kept: &Mutex<Chain>,
    ) {
        work(rt, self, pass, w, kept)
    }
}

/// Plays with each pass on a thread of its own. The passes come back, and the units that the threads keep.
pub fn play_on_threads<
    R: Abort + Threads + Wait + Sync,
    P: Send + Drop,
    C: AreShared<Pass = P> + Sync,
>(rt: &R, objects: &C, passes: Vec<P>, w: &Workload) -> Result<(Vec<P>, Chain), AllocError>
    requires workload { C.workload objects.now ≡ w.now }
    requires passes { AreAll (C.is_of objects.now) C.number THREADS passes.items }
    ensures { IfOk result (λ back. AreAll (C.is_of objects.now) C.number THREADS back.0.items) }
{
    let kept = Mutex::new(Chain::new());
    let passes = thread::map_vec(
        rt,
        passes,
        &|mut pass: P|
            requires { (C.workload objects.now ≡ w.now) × C.is_of objects.now pass }
            ensures { C.is_of objects.entry.now result × (C.number result ≡ C.number pass) }
        {
            objects.play_rounds(rt, &mut pass, w, &kept);
            pass
        },
    )?;
    Ok((passes, kept.into_inner()))
}

/// Each unit is held once, by the objects or by the threads, which keep one each.
pub fn are_held_once(
    rt: &impl Abort,
    alloc: Global,
    objects: Objects,
    kept: Chain,
    units: u32,
) -> Result<(), Fail> {
    let mut numbers = Vec::new(alloc);
    push_numbers(&mut numbers, kept)?;
    assert!(rt; numbers.len() == THREADS as usize);
    are_shown_once(rt, &objects, numbers.clone()?, units)?;
    are_given_once(rt, alloc, objects, numbers, units)
}

// The units of these numbers and those that the objects show.
fn are_shown_once(
    rt: &impl Abort,
    objects: &Objects,
    mut numbers: Vec<u32>,
    units: u32,
) -> Result<(), AllocError> {
    push_shown(&mut numbers, objects, units)?;
    are_all_once(rt, numbers, units);
    Ok(())
}

// The units of these numbers and those that the objects give back.
fn are_given_once(
    rt: &impl Abort,
    alloc: Global,
    objects: Objects,
    mut numbers: Vec<u32>,
    units: u32,
) -> Result<(), Fail> {
    push_given(&mut numbers, alloc, objects)?;
    are_all_once(rt, numbers, units);
    Ok(())
}

// Appends the numbers of the units that the objects give back.
fn push_given(numbers: &mut Vec<u32>, alloc: Global, objects: Objects) -> Result<(), Fail> {
    for group in objects.into_groups(alloc)? {
        push_numbers(numbers, group.units)?;
    }
    Ok(())
}

fn push_numbers(numbers: &mut Vec<u32>, mut units: Chain) -> Result<(), AllocError> {
    while let Some(unit) = units.take_front() {
        numbers.push(unit.number().0)?;
    }
    Ok(())
}

// Appends the numbers of the units that the objects hold.
fn push_shown(numbers: &mut Vec<u32>, objects: &Objects, units: u32) -> Result<(), AllocError> {
    for u in 0..units {
        if objects.shown(UnitNo(u)).is_some() {
            numbers.push(u)?;
        }
    }
    Ok(())
}

// The numbers from 0 on stand among these once each, and no others.
fn are_all_once(rt: &impl Abort, mut numbers: Vec<u32>, count: u32) {
    numbers.as_mut_slice().sort_unstable();
    assert!(rt; numbers.len() == count as usize);
    for u in 0..count {
        assert!(rt; numbers.get(u as usize) == Some(&u));
    }
}
