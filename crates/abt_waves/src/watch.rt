//! How the streams of a wave know of each other whether they have work. It decides when a stream that finds nothing looks again, and
//! when it leaves the wave. Whatever it decides, what the streams do is a run.
//!
//! A stream that finds nothing marks itself, and looks once more: a unit that came into one of its pools before that is found, and who puts
//! one afterwards sees the mark and calls the stream. If it finds nothing again it waits. Who calls a stream first counts it as active, and
//! then takes its mark, so the count is never below the number of those that are awake. When none is active and none is to start, each
//! stream that has not left has looked in vain after the last work of all, and the wave is over. A stream leaves before that if it is
//! spent, if it is out of memory, or if it has found nothing too often in a row.

ghost use Rattle.std.specs.Prelude.{◌≡◌, Bool, count_by};

use crate::listing::{Listing, bit};
use crate::tally::{Change, Tally};
use abt_machine::{PoolNo, Want, Workload};
use abt_stream::Stream;
use std::alloc::Global;
use std::cell::Cell;
use std::hint::spin_loop;
use std::sync::Wait;
use std::sync::atomic::{AtomicBool, AtomicU64, Ordering};
use std::thread;
use std::thread::Threads;
use std::time::Duration;

// After how many turns a stream with work sees that another one is out of memory.
const HEEDING: u32 = 1 << 12;

// How many times a waiting stream checks for a call before it sleeps; halved each time no call came, until it finds work.
const LONGEST_LOOK: u32 = 512;

// How many microseconds a stream that has started waits before its first turn for the next one to start, at most.
const GATHERING: u64 = 200;

// How many times a stream that waits sleeps, a millisecond at most, before it no longer counts on those that have not started.
const PATIENCE: u32 = 32;

// How many further empty rounds in a row a stream without work makes at most, while others have work.
const FURTHER_ROUNDS: u32 = 1_000;

// How few turns between two sleeps are not worth the second one.
const SHORT_RUN: u32 = 256;

// After how many such sleeps in a row threads do not pay for a stream.
const SHORT_RUNS: u32 = 8;

// After how many sleeps in a row of any streams, each of which leaves one at work that was called just before, threads pay for none.
const BATONS: u64 = 64;

// For how many waves no stream is waited for to start, after the first one that waited in vain; for twice as many each further time, up to
// the most. A thread that starts late on a busy machine is not one that lacks.
const FIRST_LACKING: u32 = 1 << 6;

const MOST_LACKING: u32 = 1 << 20;

// How often streams make turns by turns after the first wave whose streams only handed work to each other; twice as often after each
// further one, up to the most.
const FIRST_TIMES: u32 = 1 << 12;

const MOST_TIMES: u32 = 1 << 20;

/// What the waves of a run know of threads: whether one was waited for in vain, so that some streams may share a thread; and whether
/// streams only handed work to each other, so that they are to share one for some time.
#[derive(Drop)]
pub struct Starts {
    // For how many waves no stream is waited for to start.
    lacking: Cell<u32>,
    // For how many the last time.
    lacked: Cell<u32>,
    // Whether streams may share a thread that could have one each.
    shares: Cell<bool>,
    // How often streams make turns by turns before the next wave.
    times: Cell<u32>,
}

impl Starts {
    /// At the start of a run no thread is known to lack, and no streams share one.
    pub fn new() -> Starts {
        Starts {
            lacking: Cell::new(0),
            lacked: Cell::new(0),
            shares: Cell::new(false),
            times: Cell::new(0),
        }
    }

    /// Whether streams that only hand work to each other may share a thread.
    pub(crate) fn let_share(&self, may: bool) {
        self.shares.set(may);
    }

    /// How often streams make turns by turns before the next wave.
    pub(crate) fn times(&self) -> u32 {
        self.times.get()
    }

    /// After a wave: what it has found.
    pub(crate) fn note(&self, watch: &Watch) {
        self.note_lack(watch.lacking.load(Ordering::SeqCst));
        if watch.is_crowded() {
            let twice = self.times.get().saturating_mul(2);
            self.times.set(twice.clamp(FIRST_TIMES, MOST_TIMES));
        } else {
            self.times.set(0);
        }
    }
}

impl Starts {
    // Whether streams may share a thread for want of others, so that none is waited for to start.
    fn are_lacking(&self) -> bool {
        self.lacking.get() > 0
    }

    // After a wave, in which threads lacked or not. One that did not wait says nothing new.
    fn note_lack(&self, lack: bool) {
        if self.are_lacking() {
            self.lacking.set(self.lacking.get().saturating_sub(1));
        } else if lack {
            let twice = self.lacked.get().saturating_mul(2);
            self.lacked.set(twice.clamp(FIRST_LACKING, MOST_LACKING));
            self.lacking.set(self.lacked.get());
        } else {
            self.lacked.set(0);
        }
    }
}

/// The streams that are live in a wave.
#[derive(Drop)]
pub(crate) struct Watch {
    alloc: Global,
    streams: u64,
    listing: Listing,
    started: AtomicU64,
    // Whether threads lack, so that none waits for a stream to start.
    lacking: AtomicBool,
    tally: AtomicU64,
    // The streams that are to be called if a unit comes into one of their pools.
    marked: AtomicU64,
    // The streams that sleep, or are about to.
    asleep: AtomicU64,
    // Of each stream how often it was called, on which it sleeps.
    calls: Vec<AtomicU64>,
    refused: AtomicBool,
    // The streams that may find that threads do not pay for them: all that are live, or none.
    crowding: u64,
    // Those that have found that.
    crowded: AtomicU64,
    // How many sleeps in a row left one stream at work that was called just before.
    batons: AtomicU64,
    // Whether threads were found to pay for none.
    shared: AtomicBool,
}

/// What a stream is at.
#[derive(Drop)]
pub(crate) struct Shift {
    stream: u32,
    bit: u64,
    // Whether it counts as active.
    active: bool,
    // Whether it has marked itself.
    marked: bool,
    // Whether it has waited since it last had work.
    waited: bool,
    // How often it looks before it sleeps.
    look: u32,
    // How often it still sleeps for those that have not started.
    patience: u32,
    // How many further rounds it has begun since the first that found nothing after it last had work.
    further_rounds: u32,
    // How many turns it makes before it looks whether another one is out of memory.
    heeding: u32,
    // How many turns it has made since it last slept.
    run: u32,
    // How many of these it had made when it last called another one, if it has.
    called_at: Option<u32>,
    // How many times in a row it slept after few turns.
    short_runs: u32,
}

impl Watch {
    /// For the streams that are live, none of which has started. Err: out of memory.
    pub(crate) fn new(
        alloc: Global,
        w: &Workload,
        live: &[bool],
        starts: &Starts,
    ) -> Result<Watch, Want> {
        let streams = live_count(live);
        let lacking = starts.are_lacking();
        let awaited = if lacking { 0 } else { streams.min(64) as u8 };
        Ok(Watch {
            alloc,
            streams,
            listing: Listing::new(alloc, w)?,
            started: AtomicU64::new(0),
            lacking: AtomicBool::new(lacking),
            tally: AtomicU64::new(Tally::new(awaited).word()),
            marked: AtomicU64::new(0),
            asleep: AtomicU64::new(0),
            calls: zeros(alloc, live.len())?,
            refused: AtomicBool::new(false),
            crowding: if starts.shares.get() {
                live_bits(live)
            } else {
                0
            },
            crowded: AtomicU64::new(0),
            batons: AtomicU64::new(0),
            shared: AtomicBool::new(false),
        })
    }

    /// A stream starts, and is active. It waits a little for the others, so that they begin together.
    pub(crate) fn start<R: Wait>(&self, rt: &R, stream: u32) -> Shift {
        self.touch_memory();
        self.count(Change::Started);
        self.started.fetch_add(1, Ordering::SeqCst);
        self.started.wake_all();
        self.gather(rt);
        Shift {
            stream,
            bit: bit(stream),
            active: true,
            marked: false,
            waited: false,
            look: LONGEST_LOOK,
            patience: PATIENCE,
            further_rounds: 0,
            heeding: HEEDING,
            run: 0,
            called_at: None,
            short_runs: 0,
        }
    }

    /// A stream has put a unit into this pool: those that wait and list it are called.
    #[inline(always)]
    pub(crate) fn note_put(&self, shift: &mut Shift, p: PoolNo) {
        let others = self.listing.of(p) & !shift.bit;
        if others & self.marked.load(Ordering::SeqCst) != 0 {
            self.call(others);
            shift.called_at = Some(shift.run);
        }
    }

    /// After a turn of a stream that did not end a round empty: whether it goes on.
    #[inline(always)]
    pub(crate) fn turned(&self, shift: &mut Shift, stream: &Stream) -> bool {
        if shift.further_rounds > 0 && !stream.is_idle() {
            self.note_work(shift);
        }
        shift.run = shift.run.saturating_add(1);
        if shift.heeding > 0 {
            shift.heeding -= 1;
            return true;
        }
        shift.heeding = HEEDING;
        !self.refused.load(Ordering::SeqCst)
    }

    /// After a round in which a stream found nothing: whether it goes on. It looks once more if it was not marked, or was called since, and
    /// else waits for a call. It does not go on if it has made all the further rounds that it may make.
    pub(crate) fn found_none<R: Threads + Wait>(&self, rt: &R, shift: &mut Shift) -> bool {
        if shift.further_rounds >= FURTHER_ROUNDS || self.tally().over || self.is_crowded() {
            return false;
        }
        shift.further_rounds += 1;
        if self.streams > 1 && !(shift.marked && self.is_marked(shift)) {
            self.unmark(shift);
            self.mark(shift);
            return !self.refused.load(Ordering::SeqCst);
        }
        self.rest(rt, shift) && !self.refused.load(Ordering::SeqCst) && !self.is_crowded()
    }

    /// A stream leaves the wave.
    pub(crate) fn leave(&self, mut shift: Shift) {
        if shift.active {
            self.unmark(&mut shift);
            self.count_down(Change::Left);
        }
    }

    /// The stream is out of memory, and all others are to leave too.
    pub(crate) fn refuse(&self) {
        self.refused.store(true, Ordering::SeqCst);
        self.call(u64::MAX);
    }

    // Whether threads were found to pay for none of the streams.
    fn is_crowded(&self) -> bool {
        self.shared.load(Ordering::SeqCst)
    }

    // The stream is about to sleep, and so many are at work. If threads pay for none, all are to leave: each slept again and again after few
    // turns, or again and again one slept when it had called the only one at work.
    fn note_sleep(&self, shift: &mut Shift, active: u8) {
        self.note_run(shift);
        self.note_baton(shift, active);
        shift.run = 0;
        shift.called_at = None;
        let crowded = self.crowded.load(Ordering::SeqCst) == self.crowding;
        let handed = self.batons.load(Ordering::SeqCst) >= BATONS;
        if self.crowding != 0 && (crowded || handed) {
            self.shared.store(true, Ordering::SeqCst);
            self.call(u64::MAX);
        }
    }

    // If the stream sleeps after few turns too often in a row, threads do not pay for it.
    fn note_run(&self, shift: &mut Shift) {
        if shift.run >= SHORT_RUN {
            shift.short_runs = 0;
            self.crowded.fetch_and(!shift.bit, Ordering::SeqCst);
            return;
        }
        shift.short_runs = shift.short_runs.saturating_add(1);
        if shift.short_runs == SHORT_RUNS {
            self.crowded
                .fetch_or(shift.bit & self.crowding, Ordering::SeqCst);
        }
    }

    // Counts the sleeps in a row by which one stream alone is at work, called by the one that sleeps not long before.
    fn note_baton(&self, shift: &Shift, active: u8) {
        let since = match shift.called_at {
            Some(at) => shift.run.saturating_sub(at),
            None => SHORT_RUN,
        };
        if active <= 1 && since < SHORT_RUN {
            self.batons.fetch_add(1, Ordering::SeqCst);
        } else {
            self.batons.store(0, Ordering::SeqCst);
        }
    }

    // The tally at this moment.
    fn tally(&self) -> Tally {
        Tally::of(self.tally.load(Ordering::SeqCst))
    }

    // Changes the tally; returns what it is then. None if the wave is over and the stream is not to wait.
    fn count(&self, change: Change) -> Option<Tally> {
        let counted = self.tally.fetch_update(
            Ordering::SeqCst,
            Ordering::SeqCst,
            |word| word_after(word, change),
        );
        match counted {
            Ok(word) => Tally::of(word).after(change),
            Err(_) => None,
        }
    }

    // As `count`; if that ends the wave, those that wait leave.
    fn count_down(&self, change: Change) {
        match self.count(change) {
            Some(tally) if tally.over => self.end(),
            _ => {}
        }
    }

    // The streams among these that are marked are called.
    fn call(&self, streams: u64) {
        let called = streams & self.marked.load(Ordering::SeqCst);
        let mut s = 0;
        for calls in self.calls.iter() {
            if called & bit(s) != 0 {
                self.call_one(bit(s), calls);
            }
            s = s.wrapping_add(1);
        }
    }

    // A stream is called, unless another one has called it meanwhile.
    fn call_one(&self, bit: u64, calls: &AtomicU64) {
        self.count(Change::Called);
        if self.marked.fetch_and(!bit, Ordering::SeqCst) & bit == 0 {
            self.count_down(Change::Left);
        } else {
            self.wake(bit, calls);
        }
    }

    // A stream that was called wakes, if it sleeps.
    fn wake(&self, bit: u64, calls: &AtomicU64) {
        calls.fetch_add(1, Ordering::SeqCst);
        if self.asleep.load(Ordering::SeqCst) & bit != 0 {
            calls.wake_all();
        }
    }

    // The wave is over: all that wait wake.
    fn end(&self) {
        let mut s = 0;
        for calls in self.calls.iter() {
            self.wake(bit(s), calls);
            s = s.wrapping_add(1);
        }
    }

    // The stream is to be called if a unit comes into one of its pools.
    fn mark(&self, shift: &mut Shift) {
        shift.marked = true;
        self.marked.fetch_or(shift.bit, Ordering::SeqCst);
    }

    // Whether the stream is marked, and so was not called since it marked itself.
    fn is_marked(&self, shift: &Shift) -> bool {
        self.marked.load(Ordering::SeqCst) & shift.bit != 0
    }

    // The stream needs no call. If it was called it was counted once more.
    fn unmark(&self, shift: &mut Shift) {
        if !shift.marked {
            return;
        }
        shift.marked = false;
        if self.marked.fetch_and(!shift.bit, Ordering::SeqCst) & shift.bit == 0 {
            self.count_down(Change::Left);
        }
    }

    // The stream has work.
    fn note_work(&self, shift: &mut Shift) {
        self.unmark(shift);
        shift.further_rounds = 0;
        if shift.waited {
            shift.waited = false;
            shift.look = LONGEST_LOOK;
        }
    }

    // The stream waits, and is active again once it is called; returns false if the wave is over.
    fn rest<R: Threads + Wait>(&self, rt: &R, shift: &mut Shift) -> bool {
        match self.count(Change::Rested) {
            Some(tally) if tally.over => self.end(),
            Some(tally) => self.await_call(rt, shift, tally.active),
            None => {}
        }
        self.count(Change::Woken);
        shift.marked = false;
        shift.active = !self.tally().over;
        shift.active
    }

    // Waits until the stream is called, or the wave is over.
    fn await_call<R: Threads + Wait>(&self, rt: &R, shift: &mut Shift, active: u8) {
        shift.waited = true;
        if !self.looks(shift) {
            shift.look /= 2;
            self.note_sleep(shift, active);
            self.sleep(rt, shift);
        }
    }

    // Whether the stream was called, or the wave is over.
    fn is_called(&self, shift: &Shift) -> bool {
        !self.is_marked(shift) || self.tally().over
    }

    // Checks some times whether the stream is called, or the wave over; returns whether it found that.
    fn looks(&self, shift: &Shift) -> bool {
        for _ in 0..shift.look {
            if self.is_called(shift) {
                return true;
            }
            spin_loop();
        }
        false
    }

    // Sleeps until the stream is called, or the wave is over.
    fn sleep<R: Threads + Wait>(&self, rt: &R, shift: &mut Shift) {
        let Some(calls) = self.calls.get(shift.stream as usize) else {
            return;
        };
        self.asleep.fetch_or(shift.bit, Ordering::SeqCst);
        for _ in rt.forever() {
            let seen = (calls.load(Ordering::SeqCst) % (1 << 32)) as u32;
            if self.is_called(shift) {
                break;
            }
            if self.tally().awaited == 0 {
                calls.park(rt, seen);
            } else if self.counts_on_starts(rt, shift) {
                calls.park_timeout(rt, seen, Duration::from_millis(1));
            } else {
                self.abandon();
            }
        }
        self.asleep.fetch_and(!shift.bit, Ordering::SeqCst);
    }

    // Whether those that have not started may still start while the stream sleeps: there is a thread to be had, and it has not yet slept
    // for them in vain.
    fn counts_on_starts<R: Threads>(&self, rt: &R, shift: &mut Shift) -> bool {
        if shift.patience == PATIENCE && thread::spawn(rt, || {}).is_err() {
            return false;
        }
        if shift.patience == 0 {
            return false;
        }
        shift.patience -= 1;
        true
    }

    // Those that have not started are waited for no longer, in this wave and in later ones.
    fn abandon(&self) {
        self.lacking.store(true, Ordering::SeqCst);
        self.count_down(Change::Abandoned);
    }

    // Takes memory and gives it back: on a new thread the first time takes longer than the work of a small workload.
    fn touch_memory(&self) {
        let _ = Vec::<u64>::with_capacity(self.alloc, 1);
    }

    // Waits until all streams have started, or until none has for as long as `GATHERING`, unless threads lack.
    fn gather<R: Wait>(&self, rt: &R) {
        for _ in 0..self.streams {
            let started = self.started.load(Ordering::SeqCst);
            if self.lacking.load(Ordering::SeqCst) || started >= self.streams {
                return;
            }
            let low = (started % (1 << 32)) as u32;
            self.started
                .park_timeout(rt, low, Duration::from_micros(GATHERING));
            if self.started.load(Ordering::SeqCst) == started {
                return;
            }
        }
    }
}

// How many streams are live.
fn live_count(live: &[bool]) -> u64
    ensures { result ≡ count_by (λ (b : Bool). b) live.now }
{
    live.iter().filter(|live| **live).count() as u64
}

// The bits of the streams that are live.
fn live_bits(live: &[bool]) -> u64 {
    let mut bits = 0;
    let mut s = 0;
    for is in live {
        if *is {
            bits |= bit(s);
        }
        s = s.wrapping_add(1);
    }
    bits
}

// The tally after a change, both as numbers.
fn word_after(word: u64, change: Change) -> Option<u64> {
    match Tally::of(word).after(change) {
        Some(tally) => Some(tally.word()),
        None => None,
    }
}

// So many words, which are 0.
fn zeros(alloc: Global, count: usize) -> Result<Vec<AtomicU64>, Want> {
    let mut words = Vec::with_capacity(alloc, count)?;
    for _ in 0..count {
        words.push(AtomicU64::new(0))?;
    }
    Ok(words)
}
