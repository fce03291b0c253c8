//! The memory that a turn needs.

ghost use Rattle.std.specs.Prelude.{◌≡◌, ◌<◌, ◌+◌, ◌^◌, ◌↔◌, ℕ, [], List, OnOk, OnErr, IsSome, Option, false, ◌⊎◌, IsTrue, length, ◌≢◌};
ghost use Rattle.abt_stream.specs.Answers.{FitsAnswers};
ghost use Rattle.abt_stream.specs.Streams.{FitsShapes, FitsStream, IsIdle};
ghost use Rattle.abt_stream.specs.Turned.{HasHandRoom, HasRoom, HoldsNext, IsPrepared, IsReady};
ghost use Rattle.abt_order.specs.Schedulers.{IsSchedulerOf, IsStored, pool_numbers};
ghost use Rattle.abt_machine.specs.Valid.{IsValid};

use super::Stream;
use crate::parts::Current;
use abt_machine::{Want, Workload};
use abt_order::StoredOrder;

impl Stream {
    ghost use Rattle.abt_order.specs.Stored.{IsAnsweredOrder, shapes_of, stored_of};

    /// Takes what one turn needs: room for one event, and for a frame and one piece of output if there is a unit in hand, and
    /// the next round's order, if the next event starts a round and none is held.
    #[inline(always)]
    pub fn prepare(&mut self, w: &Workload, orders: &[StoredOrder]) -> Result<(), Want>
        requires stored { (g : ℕ) → IsStored w.now g (length orders.now) }
        requires fits { FitsStream w.now self.old }
        ensures keeps { self.new.keeps ≡ self.old.keeps }
        ensures held { self.new.held ≡ self.old.held }
        ensures ready { OnOk result (IsReady w.now self.new) }
        ensures fits { FitsStream w.now self.new }
        ensures shapes { (returns : ℕ → ℕ → ℕ → List ℕ → Option ℕ) → FitsShapes w.now (stored_of orders.now returns) self.old → FitsShapes w.now (stored_of orders.now returns) self.new }
        ensures answers { FitsAnswers w.now (IsAnsweredOrder w.now orders.now) self.old → FitsAnswers w.now (IsAnsweredOrder w.now orders.now) self.new }
        ensures same { OnOk result (IsPrepared self.old self.new) }
        ensures kept { self.old.order ≢ [] → self.new ≡ record self.old { rooms = self.new.rooms } }
        ensures err { OnErr result (self.new ≡ record self.old { rooms = self.new.rooms }) }
    {
        w.known();
        if self.written >= 1 << 55 {
            return Err(Want);
        }
        self.make_room()?;
        if self.starts_round() {
            self.order_round(w, orders)?;
        }
        Ok(())
    }

    // Whether the next event starts a round.
    fn starts_round(&self) -> bool
        ensures { IsTrue result ↔ (IsIdle self.now × ((self.now.top.empty ≡ false) ⊎ (self.now.below ≡ [])) × (self.now.order ≡ [])) }
    {
        self.tray.is_empty()
            && matches!(&self.current, Current::Idle)
            && (!self.top.empty || self.below.is_empty())
            && !self.begun
    }

    // Room for one event, and for what the unit in hand may need, which is there in nearly every turn.
    #[inline(always)]
    fn make_room(&mut self) -> Result<(), Want>
        ensures room { OnOk result (HasRoom self.new) }
        ensures same { self.new ≡ record self.old { rooms = self.new.rooms } }
    {
        if self.has_room() {
            return Ok(());
        }
        self.take_room()
    }

    // Whether there is room for what a turn may write.
    #[inline(always)]
    fn has_room(&self) -> bool
        ensures { IsTrue result → HasRoom self.now }
    {
        !self.log.is_full() && self.has_hand_room()
    }

    // Whether there is room for a frame and its unit, and for one more piece of output, if there is a unit in hand.
    #[inline(always)]
    fn has_hand_room(&self) -> bool
        ensures { IsTrue result → IsSome self.now.held.hand → HasHandRoom self.now }
    {
        match &self.current {
            Current::Running(unit) => {
                unit.has_room()
                    && self.below.len() < self.below.capacity()
                    && self.framed.len() < self.framed.capacity()
            }
            Current::Taken(_) | Current::Idle => true,
        }
    }

    // Takes memory for that room.
    #[inline(never)]
    fn take_room(&mut self) -> Result<(), Want>
        ensures room { OnOk result (HasRoom self.new) }
        ensures same { self.new ≡ record self.old { rooms = self.new.rooms } }
    {
        self.log.reserve()?;
        self.below.reserve(1)?;
        self.framed.reserve(1)?;
        match &mut self.current {
            Current::Running(unit) => unit.reserve_output()?,
            Current::Taken(_) | Current::Idle => {}
        }
        Ok(())
    }

    // The next round's order, which is made only if the list of the round before does not stand.
    #[tactic(auto, using(crate::proofs::Rounding::ordered_some))]
    #[inline(always)]
    fn order_round(&mut self, w: &Workload, orders: &[StoredOrder]) -> Result<(), Want>
        requires valid { IsValid w.now }
        requires stored { IsStored w.now self.old.top.scheduler.number (length orders.now) }
        requires scheduler { IsSchedulerOf w.now self.old.top.scheduler }
        requires few { self.old.top.scheduler.round + 1 < 2 ^ 64 }
        requires order { self.old.order ≡ [] }
        requires idle { IsIdle self.old }
        ensures next { OnOk result (HoldsNext w.now (shapes_of orders.now) self.old self.new) }
        ensures answered { OnOk result (IsAnsweredOrder w.now orders.now self.old.top.scheduler.number self.old.top.scheduler.round (pool_numbers self.new.order)) }
        ensures held { self.new.held ≡ self.old.held }
        ensures rooms { self.new.rooms ≡ self.old.rooms }
        ensures err { OnErr result (self.new ≡ self.old) }
    {
        if !self.stands {
            return self.list_round(w, orders);
        }
        self.top.scheduler.round_again(w);
        self.begun = true;
        Ok(())
    }

    // The next round's order, in the memory of an earlier one.
    #[tactic(auto, using(crate::proofs::Rounding::ordered_some))]
    #[inline(never)]
    fn list_round(&mut self, w: &Workload, orders: &[StoredOrder]) -> Result<(), Want>
        requires valid { IsValid w.now }
        requires stored { IsStored w.now self.old.top.scheduler.number (length orders.now) }
        requires scheduler { IsSchedulerOf w.now self.old.top.scheduler }
        requires few { self.old.top.scheduler.round + 1 < 2 ^ 64 }
        requires order { self.old.order ≡ [] }
        requires idle { IsIdle self.old }
        ensures next { OnOk result (HoldsNext w.now (shapes_of orders.now) self.old self.new) }
        ensures answered { OnOk result (IsAnsweredOrder w.now orders.now self.old.top.scheduler.number self.old.top.scheduler.round (pool_numbers self.new.order)) }
        ensures held { self.new.held ≡ self.old.held }
        ensures rooms { self.new.rooms ≡ self.old.rooms }
        ensures err { OnErr result (self.new ≡ self.old) }
    {
        self.top.scheduler.round_into(w, orders, &mut self.order)?;
        self.stands = self.top.scheduler.is_fixed();
        self.begun = true;
        Ok(())
    }
}
