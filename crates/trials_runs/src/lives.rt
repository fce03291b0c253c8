//! Runs on lives, by what their reports and their waves say, and the texts that are refused.

use crate::reports::is_reported;
use abt_machine::Workload;
use abt_order::StoredOrder;
use abt_report::{TextFault, count_steps};
use abt_streams::{Wave, read_lives, run_lives};
use abt_work::AnyWork;
use abt_workload::read;
use std::alloc::Global;
use std::process::Abort;
use std::sync::Wait;
use std::test::Fail;
use std::thread::Threads;

// Two streams with a pool each, two eventuals and a mutex.
const PAIR: &str =
    "abt 1\nstreams 2\npool 0 fifo mpmc\npool 1 fifo mpmc\nsched 0 prio 0\nsched 1 prio 1\nstream 0 main 0\nstream 1 main 1\nobject 0 eventual\nobject 1 eventual\nobject 2 mutex\n";

// Three streams with a pool each, and four eventuals.
const TRIO: &str =
    "abt 1\nstreams 3\npool 0 fifo mpmc\npool 1 fifo mpmc\npool 2 fifo mpmc\nsched 0 prio 0\nsched 1 prio 1\nsched 2 prio 2\nstream 0 main 0\nstream 1 main 1\nstream 2 main 2\nobject 0 eventual\nobject 1 eventual\nobject 2 eventual\nobject 3 eventual\n";

// Eight streams with a pool each, and eight eventuals.
const EIGHT: &str =
    "abt 1\nstreams 8\npool 0 fifo mpmc\npool 1 fifo mpmc\npool 2 fifo mpmc\npool 3 fifo mpmc\npool 4 fifo mpmc\npool 5 fifo mpmc\npool 6 fifo mpmc\npool 7 fifo mpmc\nsched 0 prio 0\nsched 1 prio 1\nsched 2 prio 2\nsched 3 prio 3\nsched 4 prio 4\nsched 5 prio 5\nsched 6 prio 6\nsched 7 prio 7\nstream 0 main 0\nstream 1 main 1\nstream 2 main 2\nstream 3 main 3\nstream 4 main 4\nstream 5 main 5\nstream 6 main 6\nstream 7 main 7\nobject 0 eventual\nobject 1 eventual\nobject 2 eventual\nobject 3 eventual\nobject 4 eventual\nobject 5 eventual\nobject 6 eventual\nobject 7 eventual\n";

// A wave: how many events came before it, if that is stated, and its streams.
type Waved = (Option<u64>, &'static [u32]);

// A workload's first lines and what follows them, the lives, the report, and the waves.
type Row = (
    &'static str,
    &'static str,
    &'static str,
    &'static str,
    &'static [Waved],
);

static ROWS: [Row; 7] = [
    (
        PAIR,
        "units 2\nunit 0 ult at 0\ncreate 1 1\neset 0\nunit 1 ult later\nsay made\nend\n",
        "life 1 0 1\n",
        "unit 0 done:\nunit 1 done: made\ntally units 2 unborn 0 pool 0 stream 0 blocked 0 done 2 asked 0 access 0 steps 3\nfinished\n",
        &[(Some(0), &[0]), (Some(7), &[0, 1])],
    ),
    (
        PAIR,
        "units 2\nunit 0 ult at 0\ncreate 1 1\nunit 1 ult later\nsay made\nend\n",
        "life 1 0 1\n",
        "unit 0 done:\nunit 1 pool 1:\ntally units 2 unborn 0 pool 1 stream 0 blocked 0 done 1 asked 0 access 0 steps 1\nstuck\n",
        &[(None, &[0])],
    ),
    (
        PAIR,
        "units 2\nunit 0 ult at 0\nsay never\nunit 1 ult at 1\nsay never\nend\n",
        "life 0 0 1\nlife 1 1 0\n",
        "unit 0 pool 0:\nunit 1 pool 1:\ntally units 2 unborn 0 pool 2 stream 0 blocked 0 done 0 asked 0 access 0 steps 0\nstuck\n",
        &[(None, &[])],
    ),
    (
        TRIO,
        "units 4\nunit 0 ult at 0\ncreate 1 1\neset 0\nunit 1 ult later\nsay a\ncreate 2 2\neset 1\nunit 2 ult later\ncreate 3 1\nereset 1\nunit 3 ult later\nsay b\nend\n",
        "life 1 0 1\nlife 2 1 3\n",
        "unit 0 done:\nunit 1 done: a\nunit 2 done:\nunit 3 done: b\ntally units 4 unborn 0 pool 0 stream 0 blocked 0 done 4 asked 0 access 0 steps 8\nfinished\n",
        &[
            (None, &[0]),
            (None, &[0, 1]),
            (None, &[0, 2]),
            (None, &[0, 1]),
        ],
    ),
    (
        PAIR,
        "units 1\nunit 0 ult at 1\neset 1\nyield\nsay on\nend\n",
        "life 0 0 1\n",
        "unit 0 done: on\ntally units 1 unborn 0 pool 0 stream 0 blocked 0 done 1 asked 0 access 0 steps 3\nfinished\n",
        &[(None, &[1])],
    ),
    (
        PAIR,
        "units 2\nunit 0 ult at 0\ncreate 1 1\neset 0\nexit\nsay never\nunit 1 ult later\nsay made\nexit\nsay never\nend\n",
        "life 1 0 1\n",
        "unit 0 exited:\nunit 1 exited: made\ntally units 2 unborn 0 pool 0 stream 0 blocked 0 done 2 asked 0 access 0 steps 5\nfinished\n",
        &[(None, &[0]), (None, &[0, 1])],
    ),
    // each stream but the first is born by a unit of the one before it
    (
        EIGHT,
        "units 8\nunit 0 ult at 0\ncreate 1 1\neset 1\nunit 1 ult later\ncreate 2 2\neset 2\nunit 2 ult later\ncreate 3 3\neset 3\nunit 3 ult later\ncreate 4 4\neset 4\nunit 4 ult later\ncreate 5 5\neset 5\nunit 5 ult later\ncreate 6 6\neset 6\nunit 6 ult later\ncreate 7 7\neset 7\nunit 7 ult later\nsay last\nend\n",
        "life 1 1 0\nlife 2 2 0\nlife 3 3 0\nlife 4 4 0\nlife 5 5 0\nlife 6 6 0\nlife 7 7 0\n",
        "unit 0 done:\nunit 1 done:\nunit 2 done:\nunit 3 done:\nunit 4 done:\nunit 5 done:\nunit 6 done:\nunit 7 done: last\ntally units 8 unborn 0 pool 0 stream 0 blocked 0 done 8 asked 0 access 0 steps 15\nfinished\n",
        &[
            (None, &[0]),
            (None, &[0, 1]),
            (None, &[0, 1, 2]),
            (None, &[0, 1, 2, 3]),
            (None, &[0, 1, 2, 3, 4]),
            (None, &[0, 1, 2, 3, 4, 5]),
            (None, &[0, 1, 2, 3, 4, 5, 6]),
            (None, &[0, 1, 2, 3, 4, 5, 6, 7]),
        ],
    ),
];

// A workload in two parts.
static NO_UNITS: (&str, &str) = (PAIR, "units 0\nend\n");

// Texts that are refused, each at this line.
static FAULTS: [(&str, u32); 24] = [
    ("life 1 0 0\n", 1),
    ("life 1 0 1\nlife 1 1 0\n", 2),
    ("life 2 0 1\n", 1),
    ("life 1 0 2\n", 1),
    ("life 1 2 0\n", 1),
    ("life 1 0 3\n", 1),
    ("life 1 0 1", 1),
    ("life 0 0 1\nlife 1 0 1", 2),
    ("life 01 0 1\n", 1),
    ("life 1 00 1\n", 1),
    ("life 1 +0 1\n", 1),
    ("life 1  0 1\n", 1),
    ("life 1 0 1 \n", 1),
    (" life 1 0 1\n", 1),
    ("life\t1 0 1\n", 1),
    ("life 1 0\n", 1),
    ("life 1 0 1 1\n", 1),
    ("lives 1 0 1\n", 1),
    (";\n", 1),
    ("\r\n", 1),
    ("\n\nlife 1 0 0\n", 3),
    ("life 0 0 1\n \t\n\t# life 1 0 1\nlife 0 0 1\n", 4),
    ("#\nlife 1 0 1", 2),
    ("life 0 0 1\n\nlife 1 0 1\n# life\nlives\n", 5),
];

// Two lives among lines that are skipped.
const SKIPPED: &str = "\n# two streams\nlife 1 0 1\n \t#\n\t \nlife 0 1 0\n#";

fn is_wave(wave: &Wave, (from, streams): Waved) -> bool {
    let starts = match from {
        Some(events) => wave.from == events,
        None => true,
    };
    starts && wave.streams.items() == streams
}

fn are_waves(waves: &[Wave], wanted: &[Waved]) -> bool {
    waves.len() == wanted.len()
        && waves
            .iter()
            .zip(wanted)
            .all(|(wave, wanted)| is_wave(wave, *wanted))
}

// Whether a run on lives has this report and these waves.
#[tactic(auto, using(crate::proofs::Storing::stores_calls))]
fn is_run<R: Abort + Threads + Wait + Sync>(
    rt: &R,
    alloc: Global,
    w: &Workload,
    lives: &str,
    report: &str,
    waves: &[Waved],
) -> Result<bool, Fail> {
    assert!(rt; lives.len() < 10_000);
    let lives = read_lives(alloc, w, lives.as_bytes())?;
    let orders = [StoredOrder::rotating(), StoredOrder::mirroring()];
    w.known();
    let run = run_lives(rt, alloc, w, &lives, &orders, &AnyWork, 10_000)?;
    let steps = count_steps(run.journal.items());
    Ok(
        is_reported(alloc, w, steps, &run.picture, run.outcome, report)
            && are_waves(run.waves.items(), waves),
    )
}

// As `is_run`, of the workload of this text.
fn is_run_of<R: Abort + Threads + Wait + Sync>(
    rt: &R,
    alloc: Global,
    text: &str,
    lives: &str,
    report: &str,
    waves: &[Waved],
) -> Result<bool, Fail> {
    let w = read(alloc, text.as_bytes())?;
    is_run(rt, alloc, &w, lives, report, waves)
}

#[test]
fn runs_on_lives_end_as_reported(rt: HostRuntime) -> Result<(), Fail> {
    for (head, lines, lives, report, waves) in &ROWS {
        let text = format!(in rt.alloc(); "{head}{lines}")?;
        let is = is_run_of(&rt, rt.alloc(), &text, lives, report, waves)?;
        assert!(rt; is, "{lines}");
    }
    Ok(())
}

// How many lives a text has, if it is a text of lives.
fn count_lives(rt: &impl Abort, alloc: Global, w: &Workload, text: &str) -> Option<usize> {
    assert!(rt; text.len() < 10_000);
    match read_lives(alloc, w, text.as_bytes()) {
        Ok(lives) => Some(lives.items().len()),
        Err(_) => None,
    }
}

// The line at which a text is refused, if it is.
fn refused(rt: &impl Abort, alloc: Global, w: &Workload, text: &str) -> Option<u32> {
    assert!(rt; text.len() < 10_000);
    match read_lives(alloc, w, text.as_bytes()) {
        Err(TextFault::Bad { line }) => Some(line),
        _ => None,
    }
}

// The first text that is not refused at its line, if there is one.
fn other_than_refused(rt: &impl Abort, alloc: Global, w: &Workload) -> Option<&'static str> {
    for (text, line) in &FAULTS {
        if refused(rt, alloc, w, text) != Some(*line) {
            return Some(text);
        }
    }
    None
}

// No units over the two streams.
fn no_units(alloc: Global) -> Result<Workload, Fail> {
    let (head, rest) = NO_UNITS;
    let mut text = String::from_str(alloc, head)?;
    text.push_str(rest)?;
    Ok(read(alloc, text.as_bytes())?)
}

#[test]
fn lives_are_read_or_refused(rt: HostRuntime) -> Result<(), Fail> {
    let w = no_units(rt.alloc())?;
    let none = count_lives(&rt, rt.alloc(), &w, "");
    let two = count_lives(&rt, rt.alloc(), &w, "life 1 0 1\nlife 0 1 0\n");
    let skipped = count_lives(&rt, rt.alloc(), &w, SKIPPED);
    let other = other_than_refused(&rt, rt.alloc(), &w);
    assert!(rt;
        (none, two, skipped, other) == (Some(0), Some(2), Some(2), None),
        "{other:?}"
    );
    Ok(())
}
