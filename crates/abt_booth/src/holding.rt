//! Holders: seats that may keep the turn between their calls.
#![tactic(auto, unfolding(crate::specs::Holders::holder_number, crate::specs::Holders::holder_seen, crate::specs::Holders::HasTurn, crate::specs::Holders::IsHolderOf, crate::specs::Holders::Rests, crate::specs::Seats::number_of, crate::specs::Seats::seen_of, crate::specs::Seats::IsSeatOf,))]

ghost use Rattle.std.specs.Prelude.{◌≡◌, ◌≤◌, ◌^◌, ◌++◌, false, true};
ghost use Rattle.abt_interleave.specs.Histories.{Extends};
ghost use Rattle.abt_booth.specs.Calls.{GrowsBy};
ghost use Rattle.abt_booth.specs.Holders.{holder_number, holder_seen, HasTurn, IsHolderOf, Rests};
ghost use Rattle.abt_booth.specs.Seats.{added_by, number_of, opening_of, seen_of, IsReply, IsSeatOf};

use crate::booth::{Booth, Called, Seat};
use crate::holder::Holder;
use crate::object::Object;
use std::sync::Wait;

impl<O: Object> Seat<O> {
    /// The seat may keep the turn from now on.
    pub fn into_holder(self) -> Holder<O>
        ensures number { holder_number result ≡ number_of self }
        ensures seen { holder_seen result ≡ seen_of self }
        ensures booth { (booth : _) → IsSeatOf booth self → IsHolderOf booth result }
        ensures rests { Rests result }
    {
        let Seat { raw } = self;
        Holder { raw }
    }
}

impl<O: Object> Holder<O> {
    /// The seat again, which is then called or retired as any other.
    pub fn into_seat(self) -> Seat<O>
        requires { Rests self }
        ensures number { number_of result ≡ holder_number self }
        ensures seen { seen_of result ≡ holder_seen self }
        ensures booth { (booth : _) → IsHolderOf booth self → IsSeatOf booth result }
    {
        let Holder { raw } = self;
        Seat { raw }
    }
}

impl<O: Object> Booth<O> {
    /// Takes the turn for the holder, which keeps it until it is given back. It may wait, and takes no memory.
    pub fn hold<R: Wait>(&self, rt: &R, holder: &mut Holder<O>)
        requires holder { IsHolderOf self.now holder.old }
        requires rests { Rests holder.old }
        ensures holder { IsHolderOf self.now holder.new }
        ensures number { holder_number holder.new ≡ holder_number holder.old }
        ensures turn { HasTurn O.does self.now holder.new }
        ensures met { Extends (holder_number holder.old) (holder_seen holder.old) (holder_seen holder.new) }
    {
        self.begin(rt, &mut holder.raw);
    }

    /// Takes the turn for the holder if it is free at once. Returns whether that is so: if not, another seat has it, or took it first.
    pub fn try_hold(&self, holder: &mut Holder<O>) -> bool
        requires holder { IsHolderOf self.now holder.old }
        requires rests { Rests holder.old }
        ensures holder { IsHolderOf self.now holder.new }
        ensures number { holder_number holder.new ≡ holder_number holder.old }
        ensures turn { result ≡ true → HasTurn O.does self.now holder.new }
        ensures met { result ≡ true → Extends (holder_number holder.old) (holder_seen holder.old) (holder_seen holder.new) }
        ensures rests { result ≡ false → Rests holder.new }
        ensures seen { result ≡ false → holder_seen holder.new ≡ holder_seen holder.old }
    {
        self.try_begin(&mut holder.raw)
    }

    /// Asks the object whose turn the holder keeps: a call as any other, but it waits for nobody, and no other seat's call stands
    /// between it and the holder's call before it.
    pub fn call_held(&self, holder: &mut Holder<O>, at: u64, act: O::Act) -> Called<O>
        requires turn { HasTurn O.does self.now holder.old }
        requires act { O.allowed (opening_of self.now) act }
        requires at { at ≤ 2 ^ 62 }
        ensures turn { HasTurn O.does self.now holder.new }
        ensures number { holder_number holder.new ≡ holder_number holder.old }
        ensures reply { IsReply O.does (opening_of self.now) (holder_number holder.old) (holder_seen holder.old) (holder_seen holder.new) at act result }
        ensures grows { GrowsBy (holder_number holder.old) (holder_seen holder.old) (holder_seen holder.new) (added_by (holder_number holder.old) act result) }
        ensures alone { holder_seen holder.new ≡ holder_seen holder.old ++ added_by (holder_number holder.old) act result }
    {
        self.ask(&mut holder.raw, at, act)
    }

    /// Gives back the turn that the holder kept, with all calls that it made meanwhile, and wakes one caller that sleeps.
    pub fn give_back(&self, holder: &mut Holder<O>)
        requires { HasTurn O.does self.now holder.old }
        ensures holder { IsHolderOf self.now holder.new }
        ensures number { holder_number holder.new ≡ holder_number holder.old }
        ensures rests { Rests holder.new }
        ensures seen { holder_seen holder.new ≡ holder_seen holder.old }
    {
        self.release(&mut holder.raw);
    }
}
