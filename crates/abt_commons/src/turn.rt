//! The turn of one lock, as a stream takes it, keeps it and gives it back.

ghost use Rattle.std.specs.Prelude.{ℕ, ◌≡◌, ◌≤◌, ◌^◌};
ghost use Rattle.abt_interleave.specs.Histories.{Extends};
ghost use Rattle.abt_booth.specs.declared.booth.Booth.{Booth};
ghost use Rattle.abt_booth.specs.Seats.{IsReply, IsSeatOf, number_of, opening_of, seen_of};
ghost use Rattle.abt_commons.specs.declared.acts.Act.{Act};
ghost use Rattle.abt_commons.specs.declared.acts.Answer.{Answer};
ghost use Rattle.abt_commons.specs.Asks.{Does, MayAsk};
ghost use Rattle.abt_commons.specs.Held.{OneValue};
ghost use Rattle.abt_commons.specs.Turns.{IsTurnOf};

use crate::acts::Act;
use crate::one::One;
use abt_booth::{Booth, Called, Holder, Seat};
use std::marker::Model;
use std::sync::Wait;

/// The right of one stream to call one lock. It may keep the lock's turn between its calls: what is seen of it tells what the
/// stream has seen of the lock, and nothing of that. It takes one byte.
#[derive(Drop)]
pub struct Turn<'w> {
    holder: Holder<One<'w>>,
    kept: bool,
}

impl<'w> Model for Turn<'w> {
    ghost use Rattle.abt_commons.specs.Turns.{RestsOrKeeps, TurnValue, turn_of};

    ghost Value = { TurnValue };

    ghost view = { λ t. turn_of t.holder };

    ghost invariant = { λ t. RestsOrKeeps t.holder t.kept };
}

impl<'w> Turn<'w> {
    /// The seat's.
    pub(crate) fn new(seat: Seat<One<'w>>) -> Turn<'w>
        ensures number { result.number ≡ number_of seat.entry }
        ensures seen { result.seen ≡ seen_of seat.entry }
        ensures booth { (booth : Booth OneValue Act Answer) → IsSeatOf booth seat.entry → IsTurnOf booth result }
    {
        Turn {
            holder: seat.into_holder(),
            kept: false,
        }
    }

    /// The seat again.
    pub(crate) fn into_seat(self, booth: &Booth<One<'w>>) -> Seat<One<'w>>
        requires { IsTurnOf booth.now self }
        ensures number { number_of result ≡ self.entry.number }
        ensures seen { seen_of result ≡ self.entry.seen }
        ensures booth { IsSeatOf booth.now result }
    {
        let Turn { mut holder, kept } = self;
        if kept {
            booth.give_back(&mut holder);
        }
        holder.into_seat()
    }

    /// Whether it is kept.
    #[inline(always)]
    pub(crate) fn is_kept(&self) -> bool {
        self.kept
    }

    /// Gives the turn back, if it is kept.
    pub(crate) fn rest(&mut self, booth: &Booth<One<'w>>)
        requires { IsTurnOf booth.now self.old }
        ensures { self.new ≡ self.old }
    {
        if self.kept {
            booth.give_back(&mut self.holder);
            self.kept = false;
        }
    }

    /// Takes the turn and keeps it, if it is free at once. Returns whether that is so.
    #[inline(always)]
    pub(crate) fn try_take(&mut self, booth: &Booth<One<'w>>) -> bool
        requires { IsTurnOf booth.now self.old }
        ensures booth { IsTurnOf booth.now self.new }
        ensures number { self.new.number ≡ self.old.number }
        ensures met { Extends self.old.number self.old.seen self.new.seen }
    {
        if self.kept {
            return true;
        }
        self.kept = booth.try_hold(&mut self.holder);
        self.kept
    }

    /// Asks the object, and keeps the turn. It waits for the turn, if that is not kept.
    #[inline(always)]
    pub(crate) fn call<R: Wait>(
        &mut self,
        rt: &R,
        booth: &Booth<One<'w>>,
        at: u64,
        act: Act,
    ) -> Called<One<'w>>
        requires booth { IsTurnOf booth.now self.old }
        requires act { MayAsk (opening_of booth.now).workload (opening_of booth.now).object act }
        requires at { at ≤ 2 ^ 62 }
        ensures booth { IsTurnOf booth.now self.new }
        ensures number { self.new.number ≡ self.old.number }
        ensures reply { IsReply Does (opening_of booth.now) self.old.number self.old.seen self.new.seen at act result }
    {
        if self.kept {
            return booth.call_held(&mut self.holder, at, act);
        }
        booth.hold(rt, &mut self.holder);
        self.kept = true;
        booth.call_held(&mut self.holder, at, act)
    }
}
