//! What is called before each step, beside the steps of journals, in all ways to run.

ghost use Rattle.std.specs.Prelude.{None};
ghost use Rattle.abt_machine.specs.Limits.{function_limit};

use abt_drain::drain_with;
use abt_lives::abtwaves;
use abt_machine::{Event, Journal, StreamNo, UnitNo, Want, What, Workload};
use abt_order::StoredOrder;
use abt_run::{Keep, abtrun};
use abt_source::{MemoryFiles, MemorySink, NamedBytes};
use abt_streams::{read_lives, run_lives};
use abt_waves::run_streams;
use abt_work::Work;
use abt_workload::read;
use hall_waves::run_in_hall;
use std::alloc::{AllocError, Global};
use std::sync::Wait;
use std::sync::atomic::{AtomicU64, Ordering};
use std::test::Fail;
use std::thread::Threads;

// One stream, and two that steal from one another.
static STREAMS: [&str; 2] = [
    "abt 3\nstreams 1\npool 0 deque mpmc\nsched 0 prio 0\nstream 0 main 0\n",
    "abt 3\nstreams 2\npool 0 deque mpmc\npool 1 deque mpmc\nsched 0 randws 1 0 1\nsched 1 randws 2 1 0\nstream 0 main 0\nstream 1 main 1\n",
];

// Forty units that call, yield and wait for a mutex. The last step of each is refused.
static UNITS: &str =
    "object 0 mutex\nunits 40\nmany 0 40 ult at 0\nlock 0\nload 0\ncall 0\nstore 0\nyield\nunlock 0\nunlock 0\nend\n";

// How many steps each stream may make, of which there are enough, and of which there are not.
static STEPS: [u64; 2] = [10_000, 50];

// More bytes than a report has.
const ROOM: usize = 100_000;

// Notes each step before which it is called, for each of two streams.
#[derive(Drop)]
struct Noting {
    first: AtomicU64,
    second: AtomicU64,
}

impl Noting {
    fn new() -> Noting {
        Noting {
            first: AtomicU64::new(0),
            second: AtomicU64::new(0),
        }
    }

    fn note_of(&self, stream: StreamNo) -> &AtomicU64 {
        if stream == StreamNo(0) {
            &self.first
        } else {
            &self.second
        }
    }

    // Whether it has noted the steps of these events, of which there are some.
    fn has_noted(&self, events: &[Event]) -> bool {
        let first = note_in(events, StreamNo(0));
        let second = note_in(events, StreamNo(1));
        (first != 0 || second != 0)
            && self.first.load(Ordering::SeqCst) == first
            && self.second.load(Ordering::SeqCst) == second
    }
}

impl Work for Noting {
    ghost count = { λ _. function_limit };

    ghost returns = { λ _ _ _ _ _. None };

    fn before_step(&self, stream: StreamNo, unit: UnitNo, at: u32) {
        let note = self.note_of(stream);
        let before = note.load(Ordering::SeqCst);
        note.store(noted(before, unit, at), Ordering::SeqCst);
    }

    fn call(&self, _function: u32, _unit: UnitNo, acc: u64, _keys: &[u64]) -> u64 {
        acc.wrapping_add(1)
    }

    fn accepts(
        &self,
        _function: u32,
        _unit: UnitNo,
        _acc: u64,
        _keys: &[u64],
        _value: u64,
    ) -> bool {
        true
    }
}

// The note of steps, and of a step of this unit at this position after them. It tells their order and their number.
fn noted(note: u64, unit: UnitNo, at: u32) -> u64 {
    note.wrapping_mul(1_000_003)
        .wrapping_add(unit.0 as u64)
        .wrapping_mul(1_000_003)
        .wrapping_add(at as u64 + 1)
}

// The note of the steps and the calls that the stream made.
fn note_in(events: &[Event], stream: StreamNo) -> u64 {
    let mut note = 0;
    for event in events.iter().filter(|event| event.stream == stream) {
        note = match event.what {
            What::Step(unit, at, _) => noted(note, unit, at),
            What::Call(unit, at, _) => noted(note, unit, at),
            _ => note,
        };
    }
    note
}

// Whether the steps of a journal that was kept were noted.
fn has_noted(work: &Noting, journal: &Option<Journal>) -> bool {
    match journal {
        Some(journal) => work.has_noted(journal.items()),
        None => false,
    }
}

// Whether the steps of a run in rotation are noted.
#[tactic(auto, using(crate::proofs::Storing::stores_calls))]
fn notes_rotation(alloc: Global, w: &Workload, steps: u64) -> Result<bool, Want> {
    w.known();
    let work = Noting::new();
    let orders = [StoredOrder::rotating(), StoredOrder::mirroring()];
    let run = drain_with(alloc, w, &orders, &work, steps, true)?;
    Ok(has_noted(&work, &run.journal))
}

// Whether the steps of a run on threads are noted.
#[tactic(auto, using(crate::proofs::Storing::stores_calls))]
fn notes_streams<R: Threads + Wait + Sync>(
    rt: &R,
    alloc: Global,
    w: &Workload,
    steps: u64,
) -> Result<bool, Want> {
    w.known();
    let work = Noting::new();
    let orders = [StoredOrder::rotating(), StoredOrder::mirroring()];
    let run = run_streams(rt, alloc, w, &orders, &work, steps, true)?;
    Ok(has_noted(&work, &run.journal))
}

// Whether the steps of a run in a hall are noted.
#[tactic(auto, using(crate::proofs::Storing::stores_calls))]
fn notes_hall<R: Threads + Wait + Sync>(
    rt: &R,
    alloc: Global,
    w: &Workload,
    steps: u64,
) -> Result<bool, Want> {
    w.known();
    let work = Noting::new();
    let orders = [StoredOrder::rotating(), StoredOrder::mirroring()];
    let run = run_in_hall(rt, alloc, w, &orders, &work, steps, true)?;
    Ok(has_noted(&work, &run.journal))
}

// Whether the steps of a run are noted whose streams all live.
#[tactic(auto, using(crate::proofs::Storing::stores_calls))]
fn notes_lives<R: Threads + Wait + Sync>(
    rt: &R,
    alloc: Global,
    w: &Workload,
    steps: u64,
) -> Result<bool, Fail> {
    let lives = read_lives(alloc, w, b"")?;
    w.known();
    let work = Noting::new();
    let orders = [StoredOrder::rotating(), StoredOrder::mirroring()];
    let run = run_lives(rt, alloc, w, &lives, &orders, &work, steps)?;
    Ok(work.has_noted(run.journal.items()))
}

// The text of the workload over these streams.
fn text_of(alloc: Global, streams: &str) -> Result<String, AllocError> {
    let mut text = String::from_str(alloc, streams)?;
    text.push_str(UNITS)?;
    Ok(text)
}

// Whether each way to run it notes its steps.
fn notes<R: Threads + Wait + Sync>(
    rt: &R,
    alloc: Global,
    streams: &str,
    steps: u64,
) -> Result<bool, Fail> {
    let text = text_of(alloc, streams)?;
    let w = read(alloc, text.as_bytes())?;
    Ok(
        notes_rotation(alloc, &w, steps)?
            && notes_streams(rt, alloc, &w, steps)?
            && notes_hall(rt, alloc, &w, steps)?
            && notes_lives(rt, alloc, &w, steps)?,
    )
}

#[test]
fn each_step_is_told_once_before_it(rt: HostRuntime) -> Result<(), Fail> {
    for streams in STREAMS {
        for steps in STEPS {
            let is = notes(&rt, rt.alloc(), streams, steps)?;
            assert!(rt; is, "{steps} steps of {streams}");
        }
    }
    Ok(())
}

// The words of a call.
fn list_of(alloc: Global, words: &[&str]) -> Result<Vec<String>, AllocError> {
    let mut list = Vec::new(alloc);
    for word in words {
        list.push(String::from_str(alloc, word)?)?;
    }
    Ok(list)
}

// A file of that name.
fn file(alloc: Global, name: &str, text: &str) -> Result<NamedBytes, AllocError> {
    let name = String::from_str(alloc, name)?;
    let bytes = Vec::from_slice(alloc, text.as_bytes())?;
    Ok(NamedBytes { name, bytes })
}

// The workload over these streams in a file `w`, and no lives in a file `l`.
fn files_of(alloc: Global, streams: &str) -> Result<MemoryFiles, AllocError> {
    let text = text_of(alloc, streams)?;
    let w = file(alloc, "w", text.as_str())?;
    let l = file(alloc, "l", "")?;
    Ok(MemoryFiles::new(vec![in alloc; w, l]?, Vec::new(alloc)))
}

// Whether the steps of a call of `abtrun` are noted.
fn notes_abtrun<R: Threads + Wait + Sync>(
    rt: &R,
    alloc: Global,
    streams: &str,
) -> Result<bool, Fail> {
    let words = list_of(alloc, &["run", "w"])?;
    let mut files = files_of(alloc, streams)?;
    let mut out = MemorySink::new(alloc, ROOM, ROOM, Vec::new(alloc))?;
    let mut err = MemorySink::new(alloc, ROOM, ROOM, Vec::new(alloc))?;
    let work = Noting::new();
    let orders = [StoredOrder::rotating(), StoredOrder::mirroring()];
    let answer = abtrun(
        rt,
        alloc,
        &words,
        &mut files,
        &mut out,
        &mut err,
        &work,
        &orders,
        Keep::Always,
    );
    Ok(answer.status == 0 && has_noted(&work, &answer.journal))
}

// Whether the steps of a call of `abtwaves` are noted.
fn notes_abtwaves<R: Threads + Wait + Sync>(
    rt: &R,
    alloc: Global,
    streams: &str,
) -> Result<bool, Fail> {
    let words = list_of(alloc, &["w", "l"])?;
    let mut files = files_of(alloc, streams)?;
    let mut out = MemorySink::new(alloc, ROOM, ROOM, Vec::new(alloc))?;
    let mut err = MemorySink::new(alloc, ROOM, ROOM, Vec::new(alloc))?;
    let work = Noting::new();
    let orders = [StoredOrder::rotating(), StoredOrder::mirroring()];
    let ended = abtwaves(
        rt, alloc, &words, &mut files, &mut out, &mut err, &work, &orders,
    );
    Ok(ended.status == 0 && work.has_noted(ended.journal.items()))
}

#[test]
fn each_step_of_a_call_is_told_once_before_it(rt: HostRuntime) -> Result<(), Fail> {
    for streams in STREAMS {
        let run = notes_abtrun(&rt, rt.alloc(), streams)?;
        let waves = notes_abtwaves(&rt, rt.alloc(), streams)?;
        assert!(rt; run && waves, "{streams}");
    }
    Ok(())
}
