//! The call: waiting for the turn, running the object, and giving the turn back.
ghost use Rattle.std.specs.Prelude.{◌≡◌, ◌<◌, ◌≤◌, ◌^◌, [], ◌++◌, false, true, Some, IfErr, IfOk};
ghost use Rattle.abt_interleave.specs.Histories.{Extends};
ghost use Rattle.abt_booth.specs.Calls.{GrowsBy};
ghost use Rattle.abt_booth.specs.Holders.{sight_of, IsBusy};
ghost use Rattle.abt_booth.specs.Lots.{Answers};
ghost use Rattle.abt_booth.specs.Rule.{Takes, IsOf, holding, resting};
ghost use Rattle.abt_booth.specs.Seats.{opening_of, number_of, seen_of, IsReply, IsSeatOf, Replies, added_by};

use crate::booth::{Booth, Called, Raw, Seat};
use crate::made::{Call, no_calls, one_more};
use crate::object::Object;
use crate::plays::{Release, Take};
use crate::rule::{Lot, TURN};
use std::hint::spin_loop;
use std::mem;
use std::snapshot::Snapshot;
use std::sync::Wait;
use std::sync::atomic::Ordering;

/// No stamp is greater: 2^62. A clock that is there is worn.
pub const LAST_STAMP: u64 = 1 << 62;

// The word of the turn counts turns up to this many, and then begins anew.
const MOST_TURNS: u64 = 1 << 62;

// A caller that finds the turn held pauses ever longer, and if it is still held after a pause of this length it sleeps.
const LONGEST_PAUSE: u32 = 128;

impl<O: Object> Booth<O> {
    /// Asks the object, once the seat has the turn. The stamp is one more than the greater of `at` and the
    /// booth's clock, so that it is above every stamp that the caller and the object have met. It may wait, and
    /// takes no memory.
    #[tactic(auto, unfolding(crate::specs::Seats::number_of, crate::specs::Seats::seen_of, crate::specs::Seats::IsSeatOf,))]
    pub fn call<R: Wait>(&self, rt: &R, seat: &mut Seat<O>, at: u64, act: O::Act) -> Called<O>
        requires seat { IsSeatOf self.now seat.old }
        requires act { O.allowed (opening_of self.now) act }
        requires at { at ≤ 2 ^ 62 }
        ensures seat { IsSeatOf self.now seat.new }
        ensures number { number_of seat.new ≡ number_of seat.old }
        ensures reply { Replies O.does self.now seat.old seat.new at act result }
        ensures grows { GrowsBy (number_of seat.old) (seen_of seat.old) (seen_of seat.new) (added_by (number_of seat.old) act result) }
    {
        self.begin(rt, &mut seat.raw);
        let called = self.ask(&mut seat.raw, at, act);
        self.release(&mut seat.raw);
        called
    }

    // Waits for the turn, which begins with no call.
    pub(crate) fn begin<R: Wait>(&self, rt: &R, seat: &mut Raw<O>)
        requires seat { IsOf self.now.table.shared.table_id (opening_of self.now) seat.old }
        requires rests { (seat.old.me.1 ≡ []) × (seat.old.me.0.number < seat.old.me.0.next) }
        ensures same { (seat.new.table_id ≡ seat.old.table_id) × (seat.new.id ≡ seat.old.id) }
        ensures view { seat.new.me.0 ≡ holding seat.old.me.0 seat.new.me.0.seen }
        ensures turn { IsBusy O.does (opening_of self.now) seat.new.me }
        ensures met { Extends seat.old.me.0.number seat.old.me.0.seen (sight_of seat.new.me) }
    {
        self.take(rt, seat);
        self.begin_turn(seat);
    }

    // Takes the turn, which begins with no call, if it is free at once. Returns whether that is so.
    pub(crate) fn try_begin(&self, seat: &mut Raw<O>) -> bool
        requires seat { IsOf self.now.table.shared.table_id (opening_of self.now) seat.old }
        requires rests { (seat.old.me.1 ≡ []) × (seat.old.me.0.number < seat.old.me.0.next) }
        ensures same { (seat.new.table_id ≡ seat.old.table_id) × (seat.new.id ≡ seat.old.id) }
        ensures view { result ≡ true → seat.new.me.0 ≡ holding seat.old.me.0 seat.new.me.0.seen }
        ensures turn { result ≡ true → IsBusy O.does (opening_of self.now) seat.new.me }
        ensures met { result ≡ true → Extends seat.old.me.0.number seat.old.me.0.seen (sight_of seat.new.me) }
        ensures refused { result ≡ false → seat.new.me ≡ seat.old.me }
    {
        match self.try_take(seat) {
            Ok(()) => {
                self.begin_turn(seat);
                true
            }
            Err(_) => false,
        }
    }

    // Asks the object, of which the seat has the turn.
    pub(crate) fn ask(&self, seat: &mut Raw<O>, at: u64, act: O::Act) -> Called<O>
        requires own { seat.old.table_id ≡ self.now.table.shared.table_id }
        requires turn { IsBusy O.does (opening_of self.now) seat.old.me }
        requires act { O.allowed (opening_of self.now) act }
        requires at { at ≤ 2 ^ 62 }
        ensures same { (seat.new.table_id ≡ seat.old.table_id) × (seat.new.id ≡ seat.old.id) }
        ensures view { seat.new.me.0 ≡ seat.old.me.0 }
        ensures turn { IsBusy O.does (opening_of self.now) seat.new.me }
        ensures reply { IsReply O.does (opening_of self.now) seat.old.me.0.number (sight_of seat.old.me) (sight_of seat.new.me) at act result }
        ensures alone { sight_of seat.new.me ≡ sight_of seat.old.me ++ added_by seat.old.me.0.number act result }
    {
        let kept = seat.slot_mut(&self.table.shared, 0);
        let Some(lot) = kept else { unreachable!() };
        answer(lot, at, act)
    }

    // Gives the turn back, after the calls that were made in it.
    pub(crate) fn release(&self, seat: &mut Raw<O>)
        requires seat { IsOf self.now.table.shared.table_id (opening_of self.now) seat.old }
        requires alone { (seat.old.me.0.number < seat.old.me.0.next) × (seat.old.me.0.taken ≡ []) }
        requires turn { IsBusy O.does (opening_of self.now) seat.old.me }
        ensures same { (seat.new.table_id ≡ seat.old.table_id) × (seat.new.id ≡ seat.old.id) }
        ensures view { seat.new.me ≡ (resting seat.old.me.0 (sight_of seat.old.me), []) }
    {
        let turns = self.table.shared.peek(TURN) / 2 % MOST_TURNS;
        self.table
            .shared
            .store::<Release>(seat, TURN, 2 * (turns + 1));
        self.wake();
    }

    // Waits for the turn.
    fn take<R: Wait>(&self, rt: &R, seat: &mut Raw<O>)
        requires own { seat.old.table_id ≡ self.now.table.shared.table_id }
        requires live { seat.old.me.0.number < seat.old.me.0.next }
        ensures same { (seat.new.table_id ≡ seat.old.table_id) × (seat.new.id ≡ seat.old.id) }
        ensures turn { Takes O.does seat.old.me seat.new.me }
    {
        let mut pause = 1;
        for _ in rt.forever() {
            let found = match self.try_take(seat) {
                Ok(()) => return,
                Err(found) => found,
            };
            if pause < LONGEST_PAUSE {
                spin(pause);
                pause *= 2;
            } else {
                self.sleep(rt, found);
                pause = 1;
            }
        }
        unreachable!()
    }

    // Takes the turn, if it is free. Err: what its word was found to be.
    #[inline(always)]
    fn try_take(&self, seat: &mut Raw<O>) -> Result<(), u64>
        requires own { seat.old.table_id ≡ self.now.table.shared.table_id }
        requires live { seat.old.me.0.number < seat.old.me.0.next }
        ensures same { (seat.new.table_id ≡ seat.old.table_id) × (seat.new.id ≡ seat.old.id) }
        ensures turn { IfOk result (λ _. Takes O.does seat.old.me seat.new.me) }
        ensures missed { IfErr result (λ _. seat.new.me ≡ seat.old.me) }
    {
        let found = self.table.shared.peek(TURN);
        if found % 2 == 0
            && self
                .table
                .shared
                .compare_exchange::<Take<O>>(seat, TURN, found, found + 1)
                == found
        {
            return Ok(());
        }
        Err(found)
    }

    // Sleeps until the turn's word is another one than was found, unless it is so already.
    fn sleep<R: Wait>(&self, rt: &R, found: u64) {
        self.asleep.fetch_add(1, Ordering::SeqCst);
        let low = (found % (1 << 32)) as u32;
        self.table.shared.park(rt, TURN, low);
        self.asleep.fetch_sub(1, Ordering::SeqCst);
    }

    // Has a caller that sleeps look again, if there is one. The turn is free.
    fn wake(&self) {
        if self.asleep.load(Ordering::SeqCst) > 0 {
            self.table.shared.wake_one(TURN);
        }
    }

    // The turn that the seat took begins with no call.
    #[inline(always)]
    fn begin_turn(&self, seat: &mut Raw<O>)
        requires own { seat.old.table_id ≡ self.now.table.shared.table_id }
        requires turn { (me : _) × Takes O.does me seat.old.me × (me.1 ≡ []) × (me.0.opening ≡ Some (opening_of self.now)) }
        ensures same { (seat.new.table_id ≡ seat.old.table_id) × (seat.new.id ≡ seat.old.id) }
        ensures view { seat.new.me.0 ≡ seat.old.me.0 }
        ensures turn { IsBusy O.does (opening_of self.now) seat.new.me }
        ensures seen { sight_of seat.new.me ≡ seat.old.me.0.seen }
    {
        let kept = seat.slot_mut(&self.table.shared, 0);
        let Some(lot) = kept else { unreachable!() };
        lot.made = no_calls();
    }
}

// Asks the object of the lot, and notes the call.
fn answer<O: Object>(lot: &mut Lot<O, O::Act, O::Answer>, at: u64, act: O::Act) -> Called<O>
    requires act { O.allowed lot.old.object act }
    requires clock { lot.old.clock ≤ 2 ^ 62 }
    requires at { at ≤ 2 ^ 62 }
    ensures { Answers O.does lot.old lot.new at act result }
{
    let greater = at.max(lot.clock);
    if greater == LAST_STAMP {
        return Called::Worn(act);
    }
    let stamp = greater + 1;
    let asked = Snapshot::of(&act);
    let answer = lot.object.run(act);
    let call = Call {
        stamp,
        act: asked,
        answer: Snapshot::of(&answer),
    };
    let before = mem::replace(&mut lot.made, no_calls());
    lot.made = one_more(before, call);
    lot.clock = stamp;
    Called::Done { stamp, answer }
}

// Pauses, without letting other threads run.
fn spin(times: u32) {
    for _ in 0..times {
        spin_loop();
    }
}
