//! Objects behind locks, whichever the locks are, and stored orders.

ghost use Rattle.std.specs.Prelude.{ℕ, ◌≡◌, ◌≤◌, IfOk, List, OnErr, OnOk, Option};
ghost use Rattle.std.specs.List.{All};
ghost use Rattle.abt_machine.specs.declared.events.Site.{Site};
ghost use Rattle.abt_machine.specs.declared.operations.OrderShape.{OrderShape};
ghost use Rattle.abt_machine.specs.Stored.{CallsStored, Stored};
ghost use Rattle.abt_machine.specs.declared.workload.Parts.{Parts};
ghost use Rattle.abt_machine.specs.Rounds.{OrdersStored};
ghost use Rattle.abt_machine.specs.Valid.{IsValid};
ghost use Rattle.abt_interleave.specs.Weaving.{TellsLocks};
ghost use Rattle.abt_commons.specs.AllPasses.{AreAll};
ghost use Rattle.abt_commons.specs.Held.{ObjectsValue, clock_at};
ghost use Rattle.abt_commons.specs.Placing.{ArePlaced};
ghost use Rattle.abt_commons.specs.Splits.{IsPassOf, opening_of_split, own_lock, pass_stream};
ghost use Rattle.abt_stream.specs.Heeding.{Heeds};
ghost use Rattle.abt_stream.specs.Answers.{FitsAnswers, Follows};
ghost use Rattle.abt_stream.specs.Streams.{FitsShapes, FitsStream};
ghost use Rattle.abt_stream.specs.Turned.{IsPrepared, IsReady, Turned};
ghost use Rattle.abt_waves.specs.Locks.{AreClosed, HasSeenNothing, LocksValue, Moves};
ghost use Rattle.abt_waves.specs.SplitLocks.{locks_of_split};
ghost use Rattle.abt_waves.specs.Storing.{stored_by};

use crate::puts::{Puts, noted_turn};
use abt_commons::{Commons, Objects, Split, SplitPass};
use abt_machine::{Want, Workload};
use abt_order::StoredOrder;
use abt_stream::{Stream, Turn};
use abt_work::Work;
use std::alloc::Global;
use std::sync::Wait;

/// Objects behind locks, as the threads of a wave share them.
pub trait Locked {
    /// The right of one stream to call.
    type Pass;

    // What a lock is named by.
    ghost Lock: { Type 0 };

    // The lock of each site.
    ghost lock: { Site → Lock };

    // The clock that objects carry to each lock.
    ghost clock: { ObjectsValue → Lock → ℕ };

    // The locks with what passes see of them.
    ghost locks: { Self → LocksValue Lock Self.Pass };

    // The pass is of these locks.
    ghost is_of: { Self → Self.Pass → Type 0 };

    /// One turn of a stream, which notes the pool into which it puts a unit.
    fn turn<P: Work>(
        &self,
        puts: &Puts,
        stream: &mut Stream,
        pass: &mut Self::Pass,
        w: &Workload,
        work: &P,
    ) -> Turn
        requires pass { is_of self.now pass.old }
        requires w { (locks self.now).objects.workload ≡ w.now }
        requires fits { FitsStream w.now stream.old }
        requires ready { IsReady w.now stream.old }
        requires calls { CallsStored w.now (P.count work.now) }
        ensures turned { (Z : Stored) → FitsShapes w.now Z stream.old → Z.returns ≡ P.returns work.now → Turned (Heeds (Moves (locks self.now) lock) (locks self.now).objects.workload) w.now Z stream.old pass.old result stream.new pass.new }
        ensures stream { stream.new.number ≡ stream.old.number }
        ensures budget { stream.new.budget ≡ stream.old.budget }
        ensures keeps { stream.new.keeps ≡ stream.old.keeps }
        ensures fits { FitsStream w.now stream.new }
        ensures shapes { (Z : Stored) → FitsShapes w.now Z stream.old → FitsShapes w.now Z stream.new }
        ensures follows { Follows w.now stream.old stream.new }
        ensures pass { is_of self.now pass.new }
        ensures number { (locks self.now).number pass.new ≡ (locks self.now).number pass.old };

    /// Gives back every lock that the pass keeps from one turn to the next. Nothing that is seen of the pass changes.
    fn rest(&self, pass: &mut Self::Pass)
        requires pass { is_of self.now pass.old }
        ensures same { pass.new ≡ pass.old };

    // At the start each clock is 0.
    ghost begins: { (W : Parts) (held : ObjectsValue) → ArePlaced W held → (l : Lock) → clock held l ≡ 0 };
}

/// Locks that are put around objects for one wave.
pub trait Locking<'w, R>: Locked {
    /// Locks around the objects, with a pass for each stream. Err: out of memory.
    fn make(
        rt: &'w R,
        alloc: Global,
        objects: Objects<'w>,
        streams: u32,
    ) -> Result<(Self, Vec<Self::Pass>), Want>
        requires { 1 ≤ streams }
        ensures objects { IfOk result (λ made. (Self.locks made.0).objects ≡ objects.entry) }
        ensures streams { IfOk result (λ made. (Self.locks made.0).streams ≡ streams) }
        ensures clocks { IfOk result (λ made. (Self.locks made.0).carried ≡ Self.clock objects.entry) }
        ensures passes { IfOk result (λ made. AreAll (Self.is_of made.0) (Self.locks made.0).number streams made.1.items) }
        ensures fresh { IfOk result (λ made. All (HasSeenNothing (Self.locks made.0)) made.1.items) }
        ensures tells { IfOk result (λ made. Parts → TellsLocks Self.Lock) };

    /// The objects, once no stream calls any longer. It waits for nobody, and takes no memory.
    fn open(self, passes: Vec<Self::Pass>) -> Objects<'w>
        requires valid { IsValid (Self.locks self).objects.workload }
        requires passes { AreAll (Self.is_of self) (Self.locks self).number (Self.locks self).streams passes.items }
        ensures { AreClosed (Self.locks self) Self.lock Self.clock passes.items result };
}

/// Stored orders, as streams ask for them.
pub trait Orders {
    // Their shapes.
    ghost shapes: { Self → List OrderShape };

    // The order that they answer for a scheduler of a workload and a round.
    ghost answered: { Self → Parts → ℕ → ℕ → List ℕ → Type 0 };

    /// Takes the memory that one turn of the stream needs. Err: out of memory.
    fn prepare(&self, stream: &mut Stream, w: &Workload) -> Result<(), Want>
        requires stored { OrdersStored w.now (shapes self.now) }
        requires fits { FitsStream w.now stream.old }
        ensures ready { OnOk result (IsReady w.now stream.new) }
        ensures fits { FitsStream w.now stream.new }
        ensures shapes { (returns : ℕ → ℕ → ℕ → List ℕ → Option ℕ) → FitsShapes w.now (stored_by (shapes self.now) returns) stream.old → FitsShapes w.now (stored_by (shapes self.now) returns) stream.new }
        ensures answers { FitsAnswers w.now (answered self.now w.now) stream.old → FitsAnswers w.now (answered self.now w.now) stream.new }
        ensures same { OnOk result (IsPrepared stream.old stream.new) }
        ensures err { OnErr result (stream.new ≡ record stream.old { rooms = stream.new.rooms }) };
}

/// The orders of a slice.
#[derive(Drop)]
pub struct StoredOrders<'o> {
    pub orders: &'o [StoredOrder],
}

impl<'o> Orders for StoredOrders<'o> {
    ghost use Rattle.abt_order.specs.Stored.{IsAnsweredOrder, shapes_of};

    ghost shapes = { λ stored. shapes_of stored.orders.now };

    ghost answered = { λ stored W. IsAnsweredOrder W stored.orders.now };

    fn prepare(&self, stream: &mut Stream, w: &Workload) -> Result<(), Want> {
        stream.prepare(w, self.orders)
    }
}

impl<'w, R: Wait> Locked for Split<'w, R> {
    ghost use Rattle.abt_machine.specs.declared.events.Site.{Site};
    ghost use Rattle.abt_commons.specs.Splits.{IsPassOf, own_lock};
    ghost use Rattle.abt_commons.specs.Held.{clock_at};
    ghost use Rattle.abt_waves.specs.SplitLocks.{locks_of_split, split_begins};

    type Pass = SplitPass<'w>;

    ghost Lock = { Site };

    ghost lock = { own_lock };

    ghost clock = { clock_at };

    ghost locks = { λ split. locks_of_split split };

    ghost is_of = { λ split pass. IsPassOf split pass };

    ghost begins = { split_begins };

    fn turn<P: Work>(
        &self,
        puts: &Puts,
        stream: &mut Stream,
        pass: &mut SplitPass<'w>,
        w: &Workload,
        work: &P,
    ) -> Turn {
        noted_turn(self, puts, stream, pass, w, work)
    }

    #[inline(always)]
    fn rest(&self, pass: &mut SplitPass<'w>) {
        Commons::rest(self, pass)
    }
}

impl<'w, R: Wait> Locking<'w, R> for Split<'w, R> {
    #[tactic(auto, using(crate::specs::SplitLocks::tells_sites))]
    fn make(
        rt: &'w R,
        alloc: Global,
        objects: Objects<'w>,
        streams: u32,
    ) -> Result<(Split<'w, R>, Vec<SplitPass<'w>>), Want> {
        match Split::make(rt, alloc, objects, streams) {
            Ok(made) => Ok(made),
            Err(_) => Err(Want),
        }
    }

    fn open(self, passes: Vec<SplitPass<'w>>) -> Objects<'w>
        requires valid { IsValid (opening_of_split self).workload }
        requires passes { AreAll (IsPassOf self) pass_stream self.streams passes.items }
        ensures { AreClosed (locks_of_split self.entry) own_lock clock_at passes.entry.items result }
    {
        self.close(passes)
    }
}
