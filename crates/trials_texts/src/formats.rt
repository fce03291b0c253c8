//! The format in which a workload is written, by how many parts of each kind it has, and where a text has too many.

use crate::refusals::refused;
use crate::writings::is_written;
use abt_machine::{Fault, Format};
use abt_workload::format_of;
use std::alloc::{AllocError, Global};
use std::test::Fail;

// How many streams, pools, schedulers, objects and units a workload has, and how many operations each unit.
type Counts = (u32, u32, u32, u32, u32, u32);

// Counts, and the least format that allows them.
static LEAST: [(Counts, u32); 15] = [
    ((8, 64, 64, 256, 256, 256), 1),
    ((9, 1, 9, 0, 0, 0), 2),
    ((16, 64, 64, 256, 4096, 16), 2),
    ((17, 1, 17, 0, 0, 0), 3),
    ((1, 65, 1, 0, 0, 0), 3),
    ((1, 1, 65, 0, 0, 0), 3),
    ((1, 1, 1, 257, 0, 0), 3),
    ((1, 1, 1, 0, 256, 0), 1),
    ((1, 1, 1, 0, 257, 0), 2),
    ((1, 1, 1, 0, 4096, 0), 2),
    ((1, 1, 1, 0, 4097, 0), 3),
    ((1, 1, 1, 0, 1, 257), 3),
    ((1, 1, 1, 0, 257, 256), 3),
    ((64, 1024, 1024, 65536, 256, 4096), 3),
    ((1, 1, 1, 0, 65536, 16), 3),
];

// Texts, and the format by which each is judged.
static JUDGED: [(&str, Format); 9] = [
    ("", Format::One),
    ("abt 1\nstreams 1\n", Format::One),
    ("abt 2\n", Format::Two),
    ("abt 3", Format::Three),
    ("# abt 2\n\n\tabt  3 \nabt 2\n", Format::Three),
    ("abt 4\n", Format::One),
    ("abt 3 3\n", Format::One),
    ("abt\n3\n", Format::One),
    ("streams 1\nabt 3\n", Format::One),
];

// The first lines of a text, how a line begins and goes on behind its number, how many such lines may follow, and the
// line after them.
static MOST: [(&str, &str, &str, u32, u32); 6] = [
    ("abt 2\nstreams 1\n", "pool", "fifo mpmc", 64, 67),
    ("abt 3\nstreams 1\n", "pool", "fifo mpmc", 1024, 1027),
    (
        "abt 2\nstreams 1\npool 0 fifo mpmc\n",
        "sched",
        "prio 0",
        64,
        68,
    ),
    (
        "abt 3\nstreams 1\npool 0 fifo mpmc\n",
        "sched",
        "prio 0",
        1024,
        1028,
    ),
    ("abt 2\nstreams 1\n", "object", "mutex", 256, 259),
    ("abt 3\nstreams 1\n", "object", "mutex", 65536, 65539),
];

// Appends so many lines that begin with this word and a number, and go on so.
fn push_numbered(text: &mut String, word: &str, rest: &str, n: u32) -> Result<(), AllocError> {
    for k in 0..n {
        writeln!(text, "{word} {k} {rest}")?;
    }
    Ok(())
}

// Appends so many streams, each with the scheduler of its number.
fn push_streams(text: &mut String, n: u32) -> Result<(), AllocError> {
    for s in 0..n {
        writeln!(text, "stream {s} main {s}")?;
    }
    Ok(())
}

// Appends so many units, each with as many operations.
fn push_units(text: &mut String, units: u32, each: u32) -> Result<(), AllocError> {
    for u in 0..units {
        writeln!(text, "unit {u} ult later")?;
        for _ in 0..each {
            text.push_str("print\n")?;
        }
    }
    Ok(())
}

// A text of so many parts.
fn counted(alloc: Global, version: u32, counts: Counts) -> Result<String, AllocError> {
    let (streams, pools, scheds, objects, units, each) = counts;
    let mut text = format!(in alloc; "abt {version}\nstreams {streams}\n")?;
    push_numbered(&mut text, "pool", "fifo mpmc", pools)?;
    push_numbered(&mut text, "sched", "prio 0", scheds)?;
    push_streams(&mut text, streams)?;
    push_numbered(&mut text, "object", "mutex", objects)?;
    writeln!(text, "units {units}")?;
    push_units(&mut text, units, each)?;
    text.push_str("end\n")?;
    Ok(text)
}

#[test]
fn the_first_line_says_the_format(rt: HostRuntime) -> Result<(), Fail> {
    for (text, format) in &JUDGED {
        assert!(rt; format_of(text.as_bytes()) == *format, "{text}");
    }
    Ok(())
}

#[test]
fn a_workload_is_written_in_the_least_format_that_allows_it(rt: HostRuntime) -> Result<(), Fail> {
    for (counts, version) in &LEAST {
        let text = counted(rt.alloc(), 3, *counts)?;
        let written = counted(rt.alloc(), *version, *counts)?;
        assert!(rt;
            is_written(rt.alloc(), text.as_bytes(), written.as_bytes()),
            "{counts:?}"
        );
    }
    Ok(())
}

#[test]
fn the_first_line_that_is_too_many_is_refused(rt: HostRuntime) -> Result<(), Fail> {
    for (head, word, rest, most, line) in &MOST {
        let mut text = String::from_str(rt.alloc(), head)?;
        push_numbered(&mut text, word, rest, *most)?;
        let enough = refused(rt.alloc(), text.as_bytes());
        writeln!(text, "{word} {most} {rest}")?;
        let more = refused(rt.alloc(), text.as_bytes());
        assert!(rt;
            enough == Some((*line, Fault::NoEnd)) && more == Some((*line, Fault::Limit)),
            "{most} {word}"
        );
    }
    Ok(())
}
