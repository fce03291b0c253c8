//! Calls over texts that are made: of many lines, pools, words, units, keys, pieces, conditions and steps.

use crate::calls::check;
use crate::formats::{ONE_POOL_OF_THREE, ONE_POOL_OF_TWO};
use crate::rows::{ONE_POOL, RUN, Row};
use std::alloc::{AllocError, Global};
use std::process::Abort;
use std::sync::Wait;
use std::test::Fail;
use std::thread::Threads;

// A part of a text for each number from the first up to the one before the second, with the number in place of each `@`.
type Part<'a> = (u32, u32, &'a str);

const HI: &str = "units 1\nunit 0 ult at 0\nsay hi\nend\n";

const HI_REPORT: &str =
    "unit 0 done: hi\ntally units 1 unborn 0 pool 0 stream 0 blocked 0 done 1 asked 0 access 0 steps 1\nfinished\n";

// Eight units that yield 256 times each, which takes 2,048 rounds, and their report.
static YIELDS: [Part<'static>; 17] = [
    (0, 1, "unit @ ult at 0\n"),
    (0, 256, "yield\n"),
    (1, 2, "unit @ ult at 0\n"),
    (0, 256, "yield\n"),
    (2, 3, "unit @ ult at 0\n"),
    (0, 256, "yield\n"),
    (3, 4, "unit @ ult at 0\n"),
    (0, 256, "yield\n"),
    (4, 5, "unit @ ult at 0\n"),
    (0, 256, "yield\n"),
    (5, 6, "unit @ ult at 0\n"),
    (0, 256, "yield\n"),
    (6, 7, "unit @ ult at 0\n"),
    (0, 256, "yield\n"),
    (7, 8, "unit @ ult at 0\n"),
    (0, 256, "yield\n"),
    (0, 1, "end\n"),
];

static YIELDS_REPORT: [Part<'static>; 2] = [
    (0, 8, "unit @ done:\n"),
    (
        0,
        1,
        "tally units 8 unborn 0 pool 0 stream 0 blocked 0 done 8 asked 0 access 0 steps 2048\nfinished\n",
    ),
];

// The heads of texts whose rounds over two pools go by each rule.
static RULES: [&str; 5] = [
    "abt 1\nstreams 1\npool 0 fifo mpmc\npool 1 fifo mpmc\nsched 0 prio 0 1\nstream 0 main 0\nunits 8\n",
    "abt 1\nstreams 1\npool 0 fifo mpmc\npool 1 fifo mpmc\nsched 0 basic 0 1\nstream 0 main 0\nunits 8\n",
    "abt 1\nstreams 1\npool 0 fifo mpmc\npool 1 fifo mpmc\nsched 0 randws 7 0 1\nstream 0 main 0\nunits 8\n",
    "abt 1\nstreams 1\npool 0 fifo mpmc\npool 1 fifo mpmc\nsched 0 user 0 0 1\nstream 0 main 0\nunits 8\n",
    "abt 1\nstreams 1\npool 0 fifo mpmc\npool 1 fifo mpmc\nsched 0 user 1 0 1\nstream 0 main 0\nunits 8\n",
];

// The heads of texts that have as many of a kind as a text may have, the other parts, and the reports.
static WIDEST: [(&str, &[Part<'static>], &[Part<'static>]); 4] = [
    // units that say their numbers
    (
        ONE_POOL,
        &[
            (0, 1, "units 256\n"),
            (0, 256, "unit @ ult at 0\nsay u@\n"),
            (0, 1, "end\n"),
        ],
        &[
            (0, 256, "unit @ done: u@\n"),
            (
                0,
                1,
                "tally units 256 unborn 0 pool 0 stream 0 blocked 0 done 256 asked 0 access 0 steps 256\nfinished\n",
            ),
        ],
    ),
    // pieces of output
    (
        ONE_POOL,
        &[
            (0, 1, "units 1\nunit 0 ult at 0\n"),
            (0, 256, "print\n"),
            (0, 1, "end\n"),
        ],
        &[
            (0, 1, "unit 0 done:"),
            (0, 256, " 0"),
            (
                0,
                1,
                "\ntally units 1 unborn 0 pool 0 stream 0 blocked 0 done 1 asked 0 access 0 steps 256\nfinished\n",
            ),
        ],
    ),
    // keys that are set and then printed
    (
        "abt 1\nstreams 1\nkeys 16\npool 0 fifo mpmc\nsched 0 prio 0\nstream 0 main 0\n",
        &[
            (0, 1, "units 1\nunit 0 ult at 0\n"),
            (0, 16, "set 10@\nkset @\n"),
            (0, 16, "kget @\nprint\n"),
            (0, 1, "end\n"),
        ],
        &[
            (0, 1, "unit 0 done:"),
            (0, 16, " 10@"),
            (
                0,
                1,
                "\ntally units 1 unborn 0 pool 0 stream 0 blocked 0 done 1 asked 0 access 0 steps 64\nfinished\n",
            ),
        ],
    ),
    // conditions of a mutex: unit 0 waits at the last one, and unit 1 signals 250 others and then that one
    (
        ONE_POOL,
        &[
            (0, 1, "object 0 mutex\n"),
            (1, 256, "object @ cond 0\n"),
            (
                0,
                1,
                "units 2\nunit 0 ult at 0\nlock 0\ncwait 255\nsay woken\nunlock 0\nunit 1 ult at 0\nlock 0\n",
            ),
            (1, 251, "signal @\n"),
            (0, 1, "signal 255\nunlock 0\nend\n"),
        ],
        &[(
            0,
            1,
            "unit 0 done: woken\nunit 1 done:\ntally units 2 unborn 0 pool 0 stream 0 blocked 0 done 2 asked 0 access 0 steps 257\nfinished\n",
        )],
    ),
];

// 4,000 units that add 1 to a number under a mutex and meet at a barrier, where one more that prints the sum waits for them, on two
// streams that share a pool; and the report.
const BARRIER: &str =
    "abt 2\nstreams 2\npool 0 fifo mpmc\nsched 0 prio 0\nsched 1 prio 0\nstream 0 main 0\nstream 1 main 1\nobject 0 mutex\nobject 1 barrier 4001\nunits 4001\nmany 0 4000 ult at 0\nlock 0\nload 0\nadd 1\nstore 0\nunlock 0\nbwait 1\nunit 4000 ult at 0\nbwait 1\nlock 0\nload 0\nprint\nunlock 0\nend\n";

static BARRIER_REPORT: [Part<'static>; 2] = [
    (0, 4000, "unit @ done:\n"),
    (
        0,
        1,
        "unit 4000 done: 4000\ntally units 4001 unborn 0 pool 0 stream 0 blocked 0 done 4001 asked 0 access 0 steps 24005\nfinished\n",
    ),
];

// 40 units of 256 operations each, which are more steps than a stream may make by the first two formats if no option asks for any, and
// the reports by format 2 and by format 3.
const MANY_STEPS: &str = "units 40\nmany 0 40 ult at 0\nrepeat 255 add 1\nprint\nend\n";

static SPENT_REPORT: [Part<'static>; 2] = [
    (0, 39, "unit @ done: 255\n"),
    (
        39,
        40,
        "unit @ stream 0:\ntally units 40 unborn 0 pool 0 stream 1 blocked 0 done 39 asked 0 access 0 steps 10000\nbudget 0\n",
    ),
];

static FINISHED_REPORT: [Part<'static>; 2] = [
    (0, 40, "unit @ done: 255\n"),
    (
        0,
        1,
        "tally units 40 unborn 0 pool 0 stream 0 blocked 0 done 40 asked 0 access 0 steps 10240\nfinished\n",
    ),
];

// Appends a part for this number.
fn push_part(text: &mut String, number: u32, part: &str) -> Result<(), AllocError> {
    for c in part.chars() {
        match c {
            '@' => write!(text, "{number}")?,
            _ => text.push(c)?,
        }
    }
    Ok(())
}

// The text of these parts.
fn made(alloc: Global, parts: &[Part]) -> Result<String, AllocError> {
    let mut text = String::new(alloc);
    for (from, to, part) in parts {
        for number in *from..*to {
            push_part(&mut text, number, part)?;
        }
    }
    Ok(text)
}

// As `check`, of the row with these parts for its lines and those for its output.
fn check_made<R: Threads + Wait + Sync + Abort>(
    rt: &R,
    alloc: Global,
    lines: &[Part],
    out: &[Part],
    row: &Row,
) -> Result<(), Fail> {
    let lines = made(alloc, lines)?;
    let out = made(alloc, out)?;
    let row = Row {
        lines: lines.as_bytes(),
        most: 1000,
        out: out.as_str(),
        ..*row
    };
    check(rt, alloc, &row)
}

// The bytes of a padded text that are not its padding.
const OTHERS: u32 = 101;

// Texts of these lengths, most of which are a comment.
#[test]
fn texts_of_each_length_run(rt: HostRuntime) -> Result<(), Fail> {
    for bytes in [
        3000u32, 3001, 3333, 3500, 3750, 3999, 4000, 4095, 4096, 4097, 9000,
    ] {
        let padding = bytes.saturating_sub(OTHERS);
        let lines = made(
            rt.alloc(),
            &[(0, 1, "#"), (0, padding, "x"), (0, 1, "\n"), (0, 1, HI)],
        )?;
        assert!(rt; lines.len().saturating_add(ONE_POOL.len()) == bytes as usize);
        let row = Row {
            lines: lines.as_bytes(),
            most: 1000,
            out: HI_REPORT,
            ..RUN
        };
        check(&rt, rt.alloc(), &row)?;
    }
    Ok(())
}

#[test]
fn words_of_each_length_are_said(rt: HostRuntime) -> Result<(), Fail> {
    for bytes in 1..65 {
        let lines = [
            (0, 1, "units 1\nunit 0 ult at 0\nsay "),
            (0, bytes, "w"),
            (0, 1, "\nend\n"),
        ];
        let out = [
            (0, 1, "unit 0 done: "),
            (0, bytes, "w"),
            (
                0,
                1,
                "\ntally units 1 unborn 0 pool 0 stream 0 blocked 0 done 1 asked 0 access 0 steps 1\nfinished\n",
            ),
        ];
        check_made(&rt, rt.alloc(), &lines, &out, &RUN)?;
    }
    Ok(())
}

#[test]
fn wide_workloads_run(rt: HostRuntime) -> Result<(), Fail> {
    for (head, lines, out) in &WIDEST {
        check_made(&rt, rt.alloc(), lines, out, &Row { head, ..RUN })?;
    }
    for head in &RULES {
        check_made(
            &rt,
            rt.alloc(),
            &YIELDS,
            &YIELDS_REPORT,
            &Row { head, ..RUN },
        )?;
    }
    Ok(())
}

// More units than format 1 has, on threads, ten times.
#[test]
fn a_barrier_of_4001_lets_all_through(rt: HostRuntime) -> Result<(), Fail> {
    let row = Row {
        words: "run f --steps 100000",
        head: BARRIER,
        ..RUN
    };
    for _ in 0..10 {
        check_made(&rt, rt.alloc(), &[], &BARRIER_REPORT, &row)?;
    }
    Ok(())
}

// By format 3 a stream may make as many steps as the workload has operations.
#[test]
fn the_format_says_how_many_steps_a_stream_may_make(rt: HostRuntime) -> Result<(), Fail> {
    let lines = [(0, 1, MANY_STEPS)];
    let spent = Row {
        head: ONE_POOL_OF_TWO,
        status: 4,
        ..RUN
    };
    let finished = Row {
        head: ONE_POOL_OF_THREE,
        ..RUN
    };
    check_made(&rt, rt.alloc(), &lines, &SPENT_REPORT, &spent)?;
    check_made(&rt, rt.alloc(), &lines, &FINISHED_REPORT, &finished)?;
    for (words, row) in [
        ("run f --steps 10240", &spent),
        ("run f --steps 16777216", &finished),
    ] {
        let row = Row {
            words,
            status: 0,
            ..*row
        };
        check_made(&rt, rt.alloc(), &lines, &FINISHED_REPORT, &row)?;
    }
    Ok(())
}

// Each of the `count` streams below this head in turn has the only unit, of two operations, and is spent.
fn check_spent<R: Threads + Wait + Sync + Abort>(
    rt: &R,
    alloc: Global,
    head: &str,
    count: u32,
) -> Result<(), Fail> {
    let row = Row {
        words: "run f --steps 1",
        head,
        status: 4,
        ..RUN
    };
    for s in 0..count {
        let lines = [
            (0, count, "pool @ fifo priv of @\n"),
            (0, count, "sched @ prio @\n"),
            (0, count, "stream @ main @\n"),
            (s, s + 1, "units 1\nunit 0 ult at @\nset 1\nset 2\nend\n"),
        ];
        let out = [(
            s,
            s + 1,
            "unit 0 stream @:\ntally units 1 unborn 0 pool 0 stream 1 blocked 0 done 0 asked 0 access 0 steps 1\nbudget @\n",
        )];
        check_made(rt, alloc, &lines, &out, &row)?;
    }
    Ok(())
}

#[test]
fn each_stream_may_be_the_one_that_is_spent(rt: HostRuntime) -> Result<(), Fail> {
    check_spent(&rt, rt.alloc(), "abt 1\nstreams 8\n", 8)?;
    check_spent(&rt, rt.alloc(), "abt 2\nstreams 16\n", 16)
}

// A faulty line after lines that are skipped.
#[test]
fn a_fault_far_down_is_found(rt: HostRuntime) -> Result<(), Fail> {
    for (skipped, message) in [
        (998, "abtrun: line 1000: unknown\n"),
        (999, "abtrun: line 1001: unknown\n"),
        (1000, "abtrun: line 1002: unknown\n"),
        (65534, "abtrun: line 65536: unknown\n"),
        (65535, "abtrun: line 65537: unknown\n"),
    ] {
        let lines = [(0, skipped, "# skipped\n"), (0, 1, "walk\n")];
        let row = Row {
            head: "abt 1\n",
            status: 3,
            err: message,
            ..RUN
        };
        check_made(&rt, rt.alloc(), &lines, &[], &row)?;
    }
    Ok(())
}
