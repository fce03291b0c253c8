//! What one stream does in a wave.

ghost use Rattle.std.specs.Prelude.{◌≡◌, IfOk, IfSome, true};
ghost use Rattle.abt_machine.specs.Rounds.{OrdersStored};
ghost use Rattle.abt_machine.specs.Stored.{CallsStored};
ghost use Rattle.abt_stream.specs.Answers.{FitsAnswers};
ghost use Rattle.abt_stream.specs.Streams.{StreamValue};
ghost use Rattle.abt_waves.specs.Voyages.{HasGone, HasPass};
ghost use Rattle.abt_waves.specs.Stops.{StopsBy, TurnEnds};
ghost use Rattle.abt_waves.specs.Storing.{stored_by};
ghost use Rattle.abt_waves.specs.Jobs.{HasReturned, MayGo};

use crate::locks::{Locked, Orders};
use crate::puts::Puts;
use crate::watch::{Shift, Watch};
use abt_machine::{Want, Workload};
use abt_stream::{Stream, Turn};
use abt_work::Work;
use std::marker::Model;
use std::sync::Wait;
use std::thread::Threads;

/// A stream with its number and its pass, the objects that it calls, and whether it is live: one that is not makes no turn.
#[derive(Drop)]
pub(crate) struct Job<'a, C, X> {
    pub(crate) locks: &'a C,
    pub(crate) number: u32,
    pub(crate) stream: Stream,
    pub(crate) pass: X,
    pub(crate) live: bool,
}

impl<'a, C, X> Model for Job<'a, C, X> {
    ghost use Rattle.abt_waves.specs.Jobs.{JobValue};

    ghost Value = { JobValue C X };

    ghost view = { λ job. record { locks = job.locks.now; stream = job.stream; pass = job.pass; live = job.live } };
}

/// Why a stream left a wave: it found nothing or is not live, it has made its steps, it or another one is out of memory, or a clock is at
/// its end.
#[derive(Clone, Copy, Debug, PartialEq, Eq)]
pub(crate) enum Stop {
    Idle,
    Spent,
    Refused,
    Worn,
}

/// What a stream leaves of a wave.
#[derive(Drop)]
pub(crate) struct Returned<X> {
    pub(crate) stream: Stream,
    pub(crate) pass: X,
    pub(crate) stop: Stop,
}

/// All that a stream does in a wave.
pub(crate) fn voyage<'a, R: Threads + Wait, P: Work, O: Orders, C: Locked>(
    rt: &R,
    w: &Workload,
    orders: &O,
    work: &P,
    watch: &Watch,
    job: Job<'a, C, C::Pass>,
) -> Returned<C::Pass>
    requires stored { OrdersStored w.now (O.shapes orders.now) }
    requires calls { CallsStored w.now (P.count work.now) }
    requires may { MayGo C.is_of C.locks w.now (stored_by (O.shapes orders.now) (P.returns work.now)) job }
    ensures returned { HasReturned C.is_of C.locks C.lock w.now (stored_by (O.shapes orders.now) (P.returns work.now)) job.entry result }
    ensures answers { FitsAnswers w.now (O.answered orders.now w.now) job.entry.stream → FitsAnswers w.now (O.answered orders.now w.now) result.stream }
{
    let Job {
        locks,
        number,
        mut stream,
        mut pass,
        live,
    } = job;
    if !live {
        return Returned {
            stream,
            pass,
            stop: Stop::Idle,
        };
    }
    let stop = turns(
        rt,
        w,
        orders,
        work,
        watch,
        number,
        locks,
        &mut stream,
        &mut pass,
    );
    Returned { stream, pass, stop }
}

// The turns of a stream, until it stops.
fn turns<R: Threads + Wait, P: Work, O: Orders, C: Locked>(
    rt: &R,
    w: &Workload,
    orders: &O,
    work: &P,
    watch: &Watch,
    number: u32,
    locks: &C,
    stream: &mut Stream,
    pass: &mut C::Pass,
) -> Stop
    requires stored { OrdersStored w.now (O.shapes orders.now) }
    requires calls { CallsStored w.now (P.count work.now) }
    requires locks { (C.locks locks.now).objects.workload ≡ w.now }
    requires has { HasPass (C.is_of locks.now) (C.locks locks.now) w.now (stored_by (O.shapes orders.now) (P.returns work.now)) stream.old pass.old }
    ensures has { HasPass (C.is_of locks.now) (C.locks locks.now) w.now (stored_by (O.shapes orders.now) (P.returns work.now)) stream.new pass.new }
    ensures answers { FitsAnswers w.now (O.answered orders.now w.now) stream.old → FitsAnswers w.now (O.answered orders.now w.now) stream.new }
    ensures gone { (first : StreamValue) → HasGone (C.locks locks.now) C.lock w.now (stored_by (O.shapes orders.now) (P.returns work.now)) first stream.old pass.old → HasGone (C.locks locks.now) C.lock w.now (stored_by (O.shapes orders.now) (P.returns work.now)) first stream.new pass.new }
    ensures stops { (first : StreamValue) → HasGone (C.locks locks.now) C.lock w.now (stored_by (O.shapes orders.now) (P.returns work.now)) first stream.old pass.old → StopsBy (C.locks locks.now) C.lock w.now true first.log stream.new pass.new result }
{
    let mut shift = watch.start(rt, number);
    let puts = Puts::new();
    'turns: for _ in rt.forever() {
        match take_turn(
            rt, w, orders, work, watch, &mut shift, &puts, locks, stream, pass,
        ) {
            Some(stop) => {
                locks.rest(pass);
                watch.leave(shift);
                return stop;
            }
            None => {}
        }
    }
    unreachable!()
}

// One turn, and why the stream stops after it, if it does.
#[inline(always)]
fn take_turn<R: Threads + Wait, P: Work, O: Orders, C: Locked>(
    rt: &R,
    w: &Workload,
    orders: &O,
    work: &P,
    watch: &Watch,
    shift: &mut Shift,
    puts: &Puts,
    locks: &C,
    stream: &mut Stream,
    pass: &mut C::Pass,
) -> Option<Stop>
    requires stored { OrdersStored w.now (O.shapes orders.now) }
    requires calls { CallsStored w.now (P.count work.now) }
    requires locks { (C.locks locks.now).objects.workload ≡ w.now }
    requires has { HasPass (C.is_of locks.now) (C.locks locks.now) w.now (stored_by (O.shapes orders.now) (P.returns work.now)) stream.old pass.old }
    ensures has { HasPass (C.is_of locks.now) (C.locks locks.now) w.now (stored_by (O.shapes orders.now) (P.returns work.now)) stream.new pass.new }
    ensures answers { FitsAnswers w.now (O.answered orders.now w.now) stream.old → FitsAnswers w.now (O.answered orders.now w.now) stream.new }
    ensures gone { (first : StreamValue) → HasGone (C.locks locks.now) C.lock w.now (stored_by (O.shapes orders.now) (P.returns work.now)) first stream.old pass.old → HasGone (C.locks locks.now) C.lock w.now (stored_by (O.shapes orders.now) (P.returns work.now)) first stream.new pass.new }
    ensures stops { (first : StreamValue) → HasGone (C.locks locks.now) C.lock w.now (stored_by (O.shapes orders.now) (P.returns work.now)) first stream.old pass.old → IfSome result (StopsBy (C.locks locks.now) C.lock w.now true first.log stream.new pass.new) }
{
    let Ok(turn) = advance(w, orders, work, puts, locks, stream, pass) else {
        watch.refuse();
        return Some(Stop::Refused);
    };
    if let Some(p) = puts.take() {
        watch.note_put(shift, p);
    }
    match turn {
        Turn::Spent => Some(Stop::Spent),
        Turn::Worn => Some(Stop::Worn),
        Turn::EmptyRound => stop_unless(
            looks_on(rt, watch, shift, stream, locks, pass),
            Stop::Idle,
        ),
        Turn::Stepped => stop_unless(watch.turned(shift, stream), Stop::Refused),
        Turn::Moved => stop_unless(watch.turned(shift, stream), Stop::Refused),
    }
}

// Whether a stream goes on after an empty round. Before it waits it gives back what it keeps.
#[inline(never)]
fn looks_on<R: Threads + Wait, C: Locked>(
    rt: &R,
    watch: &Watch,
    shift: &mut Shift,
    stream: &Stream,
    locks: &C,
    pass: &mut C::Pass,
) -> bool
    requires pass { C.is_of locks.now pass.old }
    ensures same { pass.new ≡ pass.old }
{
    if !stream.is_idle() {
        return true;
    }
    locks.rest(pass);
    watch.found_none(rt, shift)
}

fn stop_unless(goes_on: bool, stop: Stop) -> Option<Stop>
    ensures { IfSome result (λ s. s ≡ stop) }
{
    if goes_on { None } else { Some(stop) }
}

// Takes the memory that one turn of a stream needs, and makes the turn.
#[inline(always)]
fn advance<P: Work, O: Orders, C: Locked>(
    w: &Workload,
    orders: &O,
    work: &P,
    puts: &Puts,
    locks: &C,
    stream: &mut Stream,
    pass: &mut C::Pass,
) -> Result<Turn, Want>
    requires stored { OrdersStored w.now (O.shapes orders.now) }
    requires calls { CallsStored w.now (P.count work.now) }
    requires locks { (C.locks locks.now).objects.workload ≡ w.now }
    requires has { HasPass (C.is_of locks.now) (C.locks locks.now) w.now (stored_by (O.shapes orders.now) (P.returns work.now)) stream.old pass.old }
    ensures has { HasPass (C.is_of locks.now) (C.locks locks.now) w.now (stored_by (O.shapes orders.now) (P.returns work.now)) stream.new pass.new }
    ensures answers { FitsAnswers w.now (O.answered orders.now w.now) stream.old → FitsAnswers w.now (O.answered orders.now w.now) stream.new }
    ensures gone { (first : StreamValue) → HasGone (C.locks locks.now) C.lock w.now (stored_by (O.shapes orders.now) (P.returns work.now)) first stream.old pass.old → HasGone (C.locks locks.now) C.lock w.now (stored_by (O.shapes orders.now) (P.returns work.now)) first stream.new pass.new }
    ensures ends { IfOk result (TurnEnds (C.locks locks.now) C.lock w.now stream.old.log stream.new pass.new) }
{
    w.known();
    orders.prepare(stream, w)?;
    let turn = locks.turn(puts, stream, pass, w, work);
    // The number of steps is of no use here, but its contract says that it is no more than the stream may make.
    stream.steps();
    Ok(turn)
}
