//! Each object behind a lock of its own.

ghost use Rattle.std.specs.Prelude.{◌≡◌, ◌≤◌, IfErr, IfOk};
ghost use Rattle.std.specs.List.{All};
ghost use Rattle.abt_commons.specs.AllPasses.{AreAll};
ghost use Rattle.abt_commons.specs.Splits.{HasSeenNothing, IsPassOf, SplitLeft, opening_of_split, pass_stream};

use crate::acts::{Act, Reply};
use crate::commons::Commons;
use crate::habits::Habits;
use crate::locking::{lock_all, turnless};
use crate::objects::Objects;
use crate::one::One;
use crate::owners::{Owner, first_owners};
use crate::sites::site_number;
use crate::turn::Turn;
use crate::unlocking::unlocked;
use abt_booth::{Booth, Called};
use abt_machine::{Site, Want, Workload};
use std::alloc::Global;
use std::marker::Model;
use std::sync::Wait;
use std::sync::atomic::AtomicU64;

/// One lock for each object, with a clock for each.
#[derive(Drop)]
pub struct Split<'w, R> {
    pub(crate) rt: &'w R,
    w: &'w Workload,
    streams: u32,
    pub(crate) booths: Vec<Booth<One<'w>>>,
    // To which stream each lock belongs.
    pub(crate) owners: Vec<Owner>,
    // How often a stream had to wait for a turn that another one might keep.
    pub(crate) wanted: AtomicU64,
    // The clocks that were carried to the locks.
    clocks: Vec<u64>,
    // Where the objects go when the locks are closed.
    room: Vec<One<'w>>,
}

impl<'w, R> Model for Split<'w, R> {
    ghost use Rattle.std.specs.Prelude.{◌≡◌, ◌≤◌, [], length, vec_capacity};
    ghost use Rattle.abt_commons.specs.Splits.{AreBooths, SplitValue};

    ghost Value = { SplitValue };

    ghost view = { λ s. record { workload = s.w.now; streams = s.streams; booths = s.booths.items; clocks = s.clocks.items } };

    ghost invariant = { λ s. AreBooths s.w.now s.streams s.booths.items s.clocks.items × (s.room.items ≡ []) × (length s.booths.items ≤ vec_capacity s.room) };
}

/// The right of one stream to call: the turn of each lock, taken or not.
#[derive(Drop)]
pub struct SplitPass<'w> {
    pub(crate) stream: u32,
    pub(crate) turns: Vec<Turn<'w>>,
    pub(crate) habits: Habits,
}

impl<'w, R: Wait> Commons<'w> for Split<'w, R> {
    ghost use Rattle.abt_commons.specs.Splits.{IsPassOf, SplitMoves, pass_stream};

    type Pass = SplitPass<'w>;

    ghost workload = { λ split. split.workload };

    ghost is_of = { λ split pass. IsPassOf split pass };

    ghost number = { λ pass. pass_stream pass };

    ghost moves = { λ split old x at act told new. SplitMoves split old x at act told new };

    #[inline(always)]
    fn call(&self, pass: &mut SplitPass<'w>, site: Site, at: u64, act: Act) -> Reply {
        let number = site_number(self.w, site);
        let raised = at.max(self.clocks[number]);
        self.heed(pass);
        match self.call_at(&self.booths[number], pass, number, raised, act) {
            Called::Done { stamp, answer } => Reply::Done { stamp, answer },
            Called::Worn(act) => Reply::Worn(act),
        }
    }

    fn rest(&self, pass: &mut SplitPass<'w>) {
        self.give_all_back(pass);
    }
}

impl<'w, R: Wait> Split<'w, R> {
    /// One booth for each object, with a pass for each stream. Err hands the objects back: out of memory.
    pub fn make(
        rt: &'w R,
        alloc: Global,
        objects: Objects<'w>,
        streams: u32,
    ) -> Result<(Split<'w, R>, Vec<SplitPass<'w>>), Objects<'w>>
        requires { 1 ≤ streams }
        ensures objects { IfOk result (λ made. opening_of_split made.0 ≡ objects.entry) }
        ensures streams { IfOk result (λ made. made.0.streams ≡ streams) }
        ensures passes { IfOk result (λ made. AreAll (IsPassOf made.0) pass_stream streams made.1.items) }
        ensures fresh { IfOk result (λ made. All HasSeenNothing made.1.items) }
        ensures refused { IfErr result (λ back. back ≡ objects.entry) }
    {
        let count = objects.ones.len();
        let Ok(mut booths) = Vec::with_capacity(alloc, count) else {
            return Err(objects);
        };
        let Ok(mut passes) = turnless(alloc, streams, count) else {
            return Err(objects);
        };
        let Ok(owners) = first_owners(alloc, objects.w, count) else {
            return Err(objects);
        };
        let Objects {
            w,
            ones: mut room,
            clocks,
        } = objects;
        room.reverse();
        if let Err(Want) = lock_all(
            alloc,
            streams,
            &mut room,
            &mut booths,
            passes.as_mut_slice(),
        ) {
            let (ones, clocks) = unlocked(booths, passes.as_mut_slice(), room, clocks);
            return Err(Objects { w, ones, clocks });
        }
        Ok((
            Split {
                rt,
                w,
                streams,
                booths,
                owners,
                wanted: AtomicU64::new(0),
                clocks,
                room,
            },
            passes,
        ))
    }

    /// The objects, once no stream calls any longer. It waits for nobody, and takes no memory.
    pub fn close(self, mut passes: Vec<SplitPass<'w>>) -> Objects<'w>
        requires passes { AreAll (IsPassOf self) pass_stream self.streams passes.items }
        ensures leaves { SplitLeft self.entry passes.entry.items result }
    {
        let Split {
            rt: _,
            w,
            streams: _,
            booths,
            owners: _,
            wanted: _,
            clocks,
            room,
        } = self;
        let (ones, clocks) = unlocked(booths, passes.as_mut_slice(), room, clocks);
        Objects { w, ones, clocks }
    }
}
