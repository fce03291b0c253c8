//! How a stream comes by the turn of a lock, and when it gives it back.
//!
//! A lock belongs to one stream at most, which keeps its turn after a call. It belongs to nobody any more once another stream had to
//! wait for its turn. Who waits gives back all that it keeps before that, so that no two streams wait for each other; then it says
//! that the lock is shared, and after that that a turn is wanted. A stream looks how many turns were wanted before it looks to whom
//! a lock belongs: so one that keeps the turn of a shared lock finds at its next call that a turn was wanted, and gives all back.

ghost use Rattle.std.specs.Prelude.{◌≡◌, ◌<◌, ◌≤◌, ◌^◌, length, slice_index_or};
ghost use Rattle.abt_booth.specs.Seats.{opening_of};
ghost use Rattle.abt_commons.specs.Asks.{MayAsk};
ghost use Rattle.abt_commons.specs.Splits.{AsksAt, IsPassOf, TakesAt};
ghost use Rattle.abt_commons.specs.Turns.{IsTurnOf, TurnValue};

use crate::acts::Act;
use crate::one::One;
use crate::split::{Split, SplitPass};
use abt_booth::{Booth, Called};
use std::sync::Wait;
use std::sync::atomic::Ordering;

impl<'w, R: Wait> Split<'w, R> {
    /// Gives all back, if a turn was wanted since the pass last looked.
    #[inline(always)]
    pub(crate) fn heed(&self, pass: &mut SplitPass<'w>)
        requires pass { IsPassOf self.now pass.old }
        ensures same { pass.new ≡ pass.old }
    {
        if pass.habits.hears(self.wanted.load(Ordering::SeqCst)) {
            self.give_all_back(pass);
        }
    }

    /// Gives back all turns that the pass keeps.
    pub(crate) fn give_all_back(&self, pass: &mut SplitPass<'w>)
        requires pass { IsPassOf self.now pass.old }
        ensures same { pass.new ≡ pass.old }
    {
        for _ in 0..pass.habits.count() {
            if let Some(number) = pass.habits.next() {
                self.rest_at(pass, number);
            }
        }
    }

    // Gives back the turn of one lock, if it is kept.
    fn rest_at(&self, pass: &mut SplitPass<'w>, number: usize)
        requires pass { IsPassOf self.now pass.old }
        ensures same { pass.new ≡ pass.old }
    {
        if number < self.booths.len() {
            pass.turns[number].rest(&self.booths[number]);
        }
    }

    /// Asks the object of a lock, by the turn that the pass keeps or takes.
    #[inline(always)]
    pub(crate) fn call_at(
        &self,
        booth: &Booth<One<'w>>,
        pass: &mut SplitPass<'w>,
        number: usize,
        at: u64,
        act: Act,
    ) -> Called<One<'w>>
        requires number { number < length self.now.booths }
        requires booth { booth.now ≡ slice_index_or self.now.booths number booth.now }
        requires pass { IsPassOf self.now pass.old }
        requires act { MayAsk (opening_of booth.now).workload (opening_of booth.now).object act }
        requires at { at ≤ 2 ^ 62 }
        ensures asks { AsksAt booth.now number pass.old at act result pass.new }
    {
        if pass.turns[number].is_kept() {
            return pass.turns[number].call(self.rt, booth, at, act);
        }
        self.take_at(booth, pass, number);
        let called = pass.turns[number].call(self.rt, booth, at, act);
        self.settle_at(booth, pass, number);
        called
    }

    // Takes the turn of a lock, if it is free at once. If it is not, the pass no longer keeps any.
    #[inline(always)]
    fn take_at(&self, booth: &Booth<One<'w>>, pass: &mut SplitPass<'w>, number: usize)
        requires number { number < length self.now.booths }
        requires booth { booth.now ≡ slice_index_or self.now.booths number booth.now }
        requires pass { IsPassOf self.now pass.old }
        ensures takes { TakesAt booth.now number pass.old pass.new }
    {
        if pass.turns[number].try_take(booth) {
            return;
        }
        self.give_way(pass, number);
    }

    // After a call by a turn that was not kept before: gives it back, unless the pass keeps it from now on.
    #[inline(always)]
    fn settle_at(&self, booth: &Booth<One<'w>>, pass: &mut SplitPass<'w>, number: usize)
        requires number { number < length pass.old.turns.items }
        requires turn { (turn : TurnValue) → IsTurnOf booth.now (slice_index_or pass.old.turns.items number turn) }
        ensures same { pass.new ≡ pass.old }
    {
        if self.may_keep(pass, number) {
            return;
        }
        pass.turns[number].rest(booth);
    }

    // Before the pass waits for the turn of a lock that another stream has: gives all back, and says what is wanted.
    #[inline(never)]
    fn give_way(&self, pass: &mut SplitPass<'w>, number: usize)
        requires pass { IsPassOf self.now pass.old }
        ensures same { pass.new ≡ pass.old }
    {
        self.give_all_back(pass);
        if let Some(owner) = self.owners.get(number)
            && owner.want(pass.stream)
        {
            self.wanted.fetch_add(1, Ordering::SeqCst);
        }
    }

    // Whether the pass keeps the turn of the lock after its call.
    #[inline(always)]
    fn may_keep(&self, pass: &mut SplitPass<'w>, number: usize) -> bool
        ensures same { pass.new ≡ pass.old }
    {
        match self.owners.get(number) {
            Some(owner) => owner.is(pass.stream) && pass.habits.keeps(number),
            None => false,
        }
    }
}
