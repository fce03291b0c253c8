//! What streams do on the caller's thread: one that alone has anything to do, or several that only hand work to each other.

ghost use Rattle.std.specs.Prelude.{◌≡◌, ◌<◌, ◌≤◌, ◌^◌, IfOk, IfSome, OnOk, length, true};
ghost use Rattle.abt_machine.specs.Outcomes.{steps_in};
ghost use Rattle.abt_machine.specs.Rounds.{OrdersStored};
ghost use Rattle.abt_machine.specs.Stored.{CallsStored};
ghost use Rattle.abt_order.specs.Stored.{IsAnsweredOrder, shapes_of, stored_of};
ghost use Rattle.abt_stream.specs.Answers.{FitsAnswers};
ghost use Rattle.abt_stream.specs.Streams.{FitsShapes, FitsStream};
ghost use Rattle.abt_drain.specs.Crews.{TurnsBy};
ghost use Rattle.abt_waves.specs.Staying.{BeginsAnew, MayEnd, StaysCrew};

use crate::listing::{Listing, bit};
use crate::puts::{Puts, noted_turn};
use abt_commons::{Objects, Plain, PlainPass};
use abt_drain::has_empty_pools;
use abt_machine::{StreamNo, Want, Workload};
use abt_order::StoredOrder;
use abt_stream::{Stream, Turn};
use abt_work::Work;
use std::alloc::Global;
use std::sync::Wait;

/// The stream that alone has anything to do. None if no stream has, or more than one.
pub(crate) fn find_alone<'w>(w: &Workload, objects: &Objects<'w>, streams: &[Stream]) -> Option<u32>
    requires { objects.now.workload ≡ w.now }
    ensures { IfSome result (λ s. s < w.now.streams) }
{
    let s = first_with_work(w, objects, streams, 0)?;
    match first_with_work(w, objects, streams, s.saturating_add(1)) {
        None => Some(s),
        Some(_) => None,
    }
}

/// The first stream from this one on that has anything to do, or else the first of all.
pub(crate) fn next_with_work<'w>(
    w: &Workload,
    objects: &Objects<'w>,
    streams: &[Stream],
    from: u32,
) -> Option<u32>
    requires { objects.now.workload ≡ w.now }
    ensures { IfSome result (λ s. s < w.now.streams) }
{
    match first_with_work(w, objects, streams, from) {
        Some(s) => Some(s),
        None => first_with_work(w, objects, streams, 0),
    }
}

// The first stream from this one on that has anything to do.
fn first_with_work<'w>(
    w: &Workload,
    objects: &Objects<'w>,
    streams: &[Stream],
    from: u32,
) -> Option<u32>
    requires { objects.now.workload ≡ w.now }
    ensures { IfSome result (λ s. s < w.now.streams) }
{
    for s in from..w.streams() {
        if has_work(w, objects, streams, StreamNo(s)) {
            return Some(s);
        }
    }
    None
}

// Whether a stream has anything to do: it is not idle, or a pool that it lists is not empty.
fn has_work<'w>(w: &Workload, objects: &Objects<'w>, streams: &[Stream], s: StreamNo) -> bool
    requires objects { objects.now.workload ≡ w.now }
    requires stream { s.0 < w.now.streams }
{
    match streams.get(s.0 as usize) {
        Some(stream) => !stream.is_idle() || !has_empty_pools(w, objects, s),
        None => false,
    }
}

/// When a stream on the caller's thread stops, beside when it finds nothing or is spent.
#[derive(Clone, Copy)]
pub(crate) enum Until {
    /// It has put a unit into a pool that another stream lists.
    PutsForOthers,
    /// It has made so many turns.
    HasMade(u32),
}

/// The turns of stream `s` over objects without locks, until it finds nothing, is spent, or stops for this. Err: out of memory.
pub(crate) fn go_alone<'w, R: Wait, P: Work>(
    rt: &R,
    alloc: Global,
    w: &Workload,
    orders: &[StoredOrder],
    work: &P,
    listing: &Listing,
    s: u32,
    until: Until,
    objects: Objects<'w>,
    stream: &mut Stream,
) -> Result<Objects<'w>, Want>
    requires orders { OrdersStored w.now (shapes_of orders.now) }
    requires calls { CallsStored w.now (P.count work.now) }
    requires objects { objects.workload ≡ w.now }
    requires fits { FitsStream w.now stream.old }
    requires shapes { FitsShapes w.now (stored_of orders.now (P.returns work.now)) stream.old }
    ensures stays { IfOk result (λ left. StaysCrew w.now (stored_of orders.now (P.returns work.now)) stream.old objects.entry stream.new left) }
    ensures fresh { OnOk result (BeginsAnew w.now (stored_of orders.now (P.returns work.now)) stream.old objects.entry stream.new) }
    ensures answers { OnOk result (FitsAnswers w.now (IsAnsweredOrder w.now orders.now) stream.old → FitsAnswers w.now (IsAnsweredOrder w.now orders.now) stream.new) }
{
    let (plain, mut pass) = Plain::make(objects);
    turns(
        rt,
        w,
        orders,
        work,
        listing,
        bit(s),
        until,
        &plain,
        &mut pass,
        stream,
    )?;
    closed(alloc, plain, pass)
}

// The objects that the pass holds. Err: out of memory.
fn closed<'w>(alloc: Global, plain: Plain<'w>, pass: PlainPass<'w>) -> Result<Objects<'w>, Want>
    requires { pass.workload ≡ plain }
    ensures { IfOk result (λ objects. objects ≡ pass.entry) }
{
    Ok(plain.close(vec![in alloc; pass]?))
}

// The turns of the stream of this bit.
fn turns<'w, R: Wait, P: Work>(
    rt: &R,
    w: &Workload,
    orders: &[StoredOrder],
    work: &P,
    listing: &Listing,
    bit: u64,
    until: Until,
    plain: &Plain<'w>,
    pass: &mut PlainPass<'w>,
    stream: &mut Stream,
) -> Result<(), Want>
    requires orders { OrdersStored w.now (shapes_of orders.now) }
    requires calls { CallsStored w.now (P.count work.now) }
    requires plain { plain.now ≡ w.now }
    requires pass { pass.old.workload ≡ w.now }
    requires fits { FitsStream w.now stream.old }
    requires shapes { FitsShapes w.now (stored_of orders.now (P.returns work.now)) stream.old }
    ensures stays { OnOk result (StaysCrew w.now (stored_of orders.now (P.returns work.now)) stream.old pass.old stream.new pass.new) }
    ensures pass { OnOk result (pass.new.workload ≡ w.now) }
    ensures answers { OnOk result (FitsAnswers w.now (IsAnsweredOrder w.now orders.now) stream.old → FitsAnswers w.now (IsAnsweredOrder w.now orders.now) stream.new) }
    ensures fresh { OnOk result (BeginsAnew w.now (stored_of orders.now (P.returns work.now)) stream.old pass.old stream.new) }
{
    let puts = Puts::new();
    let mut until = until;
    'turns: for _ in rt.forever() {
        let putting = stream.puts();
        let turn = advance(w, orders, work, &puts, plain, pass, stream)?;
        if stops(turn, putting, stream, listing, bit, &mut until, &puts) {
            return Ok(());
        }
    }
    unreachable!()
}

// Whether the stream of this bit stops after this turn: it finds nothing, may make no other turn, or stops for what it was to go on
// until. `putting` says whether a unit was in its tray.
#[inline(always)]
fn stops(
    turn: Turn,
    putting: bool,
    stream: &Stream,
    listing: &Listing,
    bit: u64,
    until: &mut Until,
    puts: &Puts,
) -> bool
    ensures { result ≡ true → MayEnd putting turn }
{
    match turn {
        Turn::Spent | Turn::Worn => true,
        Turn::EmptyRound => stream.is_idle(),
        Turn::Stepped => until.has_made_all(),
        Turn::Moved => putting && until.comes_by(listing, bit, puts),
    }
}

impl Until {
    // One more turn was made: whether it was the last.
    #[inline(always)]
    fn has_made_all(&mut self) -> bool {
        match self {
            Until::PutsForOthers => false,
            Until::HasMade(turns) => {
                *turns = turns.saturating_sub(1);
                *turns == 0
            }
        }
    }

    // The stream of this bit has put a unit into a pool: whether it stops.
    #[inline(always)]
    fn comes_by(&mut self, listing: &Listing, bit: u64, puts: &Puts) -> bool {
        match self {
            Until::PutsForOthers => match puts.take() {
                Some(p) => listing.of(p) & !bit != 0,
                None => false,
            },
            Until::HasMade(_) => self.has_made_all(),
        }
    }
}

// Takes the memory that one turn of a stream needs, and makes the turn.
#[inline(always)]
fn advance<'w, P: Work>(
    w: &Workload,
    orders: &[StoredOrder],
    work: &P,
    puts: &Puts,
    plain: &Plain<'w>,
    pass: &mut PlainPass<'w>,
    stream: &mut Stream,
) -> Result<Turn, Want>
    requires orders { OrdersStored w.now (shapes_of orders.now) }
    requires calls { CallsStored w.now (P.count work.now) }
    requires plain { plain.now ≡ w.now }
    requires pass { pass.old.workload ≡ w.now }
    requires fits { FitsStream w.now stream.old }
    requires shapes { FitsShapes w.now (stored_of orders.now (P.returns work.now)) stream.old }
    ensures turn { IfOk result (λ turn. TurnsBy w.now (stored_of orders.now (P.returns work.now)) stream.old pass.old turn stream.new pass.new) }
    ensures fits { OnOk result (FitsStream w.now stream.new) }
    ensures shapes { OnOk result (FitsShapes w.now (stored_of orders.now (P.returns work.now)) stream.new) }
    ensures answers { OnOk result (FitsAnswers w.now (IsAnsweredOrder w.now orders.now) stream.old → FitsAnswers w.now (IsAnsweredOrder w.now orders.now) stream.new) }
    ensures number { OnOk result (stream.new.number ≡ stream.old.number) }
    ensures keeps { OnOk result (stream.new.keeps ≡ stream.old.keeps) }
    ensures budget { OnOk result (stream.new.budget ≡ stream.old.budget) }
    ensures few { OnOk result (length stream.new.log ≤ 2 ^ 55) }
    ensures within { OnOk result (steps_in stream.new.log ≤ stream.new.budget) }
    ensures pass { OnOk result (pass.new.workload ≡ w.now) }
{
    w.known();
    stream.prepare(w, orders)?;
    let turn = noted_turn(plain, puts, stream, pass, w, work);
    // The number of steps is of no use here, but its contract says that the stream made no more than it may make.
    stream.steps();
    Ok(turn)
}
