//! Files and outputs that fail at each of their calls in turn, and a text that is cut or spoilt at each of its bytes in turn.

use crate::calls::{check, check_all};
use crate::rows::{Failing, NONE, RUN, Row};
use std::alloc::{AllocError, Global};
use std::process::Abort;
use std::sync::Wait;
use std::test::Fail;
use std::thread::Threads;

// One unit says a word.
const HI: &[u8] =
    b"abt 1\nstreams 1\npool 0 fifo mpmc\nsched 0 prio 0\nstream 0 main 0\nunits 1\nunit 0 ult at 0\nsay hi\nend\n";

const REPORT: &str =
    "unit 0 done: hi\ntally units 1 unborn 0 pool 0 stream 0 blocked 0 done 1 asked 0 access 0 steps 1\nfinished\n";

const JOURNAL: &str = "1 0 take 0 0\n2 0 look 0\n3 0 step 0 0 ok\n4 0 end 0 done\n5 0 miss 0\n";

// Its run, whose report is written one byte at a time.
const HI_RUN: Row<'static> = Row {
    head: "",
    lines: HI,
    most: 1,
    out: REPORT,
    ..RUN
};

// The bytes of the report, and so its writes.
const WRITES: usize = 106;

// A call of the files fails.
const NOT_READ: Row<'static> = Row {
    status: 5,
    out: "",
    err: "abtrun: cannot read\nf: cannot be read\n",
    journal: Some(""),
    ..HI_RUN
};

// Each call of the files fails in turn: one begins, one reads the text, and one finds its end. There is no
// fourth one, and no write after those of the report. In the last row the first write of a message fails.
static ROWS: [Row<'static>; 6] = [
    Row {
        failing: Failing { files: 0, ..NONE },
        ..NOT_READ
    },
    Row {
        failing: Failing { files: 1, ..NONE },
        ..NOT_READ
    },
    Row {
        failing: Failing { files: 2, ..NONE },
        ..NOT_READ
    },
    Row {
        failing: Failing { files: 3, ..NONE },
        ..HI_RUN
    },
    Row {
        failing: Failing {
            out: WRITES as u64,
            ..NONE
        },
        ..HI_RUN
    },
    Row {
        words: "walk",
        failing: Failing { err: 0, ..NONE },
        status: 2,
        out: "",
        ..HI_RUN
    },
];

#[test]
fn a_read_and_a_message_may_fail(rt: HostRuntime) -> Result<(), Fail> {
    check_all(&rt, rt.alloc(), &ROWS)
}

// Each write to the output fails in turn.
#[test]
fn each_write_may_fail(rt: HostRuntime) -> Result<(), Fail> {
    for number in 0..WRITES {
        let row = Row {
            failing: Failing {
                out: number as u64,
                ..NONE
            },
            status: 6,
            out: REPORT.get(..number).unwrap_or("no such byte"),
            err: "abtrun: cannot write\n",
            journal: Some(JOURNAL),
            ..HI_RUN
        };
        check(&rt, rt.alloc(), &row)?;
    }
    Ok(())
}

// The text is cut at each byte in turn. It may lack its last line feed, and no more.
#[test]
fn a_text_may_be_cut_at_each_byte(rt: HostRuntime) -> Result<(), Fail> {
    let enough = HI.len().saturating_sub(1);
    for length in 0..HI.len() {
        let (status, out) = if length < enough {
            (3, "")
        } else {
            (0, REPORT)
        };
        let row = Row {
            lines: &HI[..length],
            status,
            out,
            has_err: false,
            ..HI_RUN
        };
        check(&rt, rt.alloc(), &row)?;
    }
    Ok(())
}

// The text with one byte that begins no character, in the place of the byte there.
fn spoilt(alloc: Global, place: usize) -> Result<Vec<u8>, AllocError> {
    let mut text = Vec::from_slice(alloc, HI)?;
    if let Some(byte) = text.get_mut(place) {
        *byte = 255;
    }
    Ok(text)
}

// A text with such a byte is refused.
static NOT_UTF8: Row<'static> = Row {
    status: 3,
    out: "",
    ..HI_RUN
};

// It is, with the byte in this place and this line.
fn check_spoilt<R: Threads + Wait + Sync + Abort>(
    rt: &R,
    alloc: Global,
    place: usize,
    line: u32,
    row: &Row,
) -> Result<(), Fail> {
    let text = spoilt(alloc, place)?;
    let message = format!(in alloc; "abtrun: line {line}: utf8\n")?;
    let row = Row {
        lines: text.as_slice(),
        err: message.as_str(),
        ..*row
    };
    check(rt, alloc, &row)
}

// Each byte is spoilt in turn: the line that it is in is not UTF-8. A line feed is in the line that it ends.
#[test]
fn each_byte_may_be_spoilt(rt: HostRuntime) -> Result<(), Fail> {
    let mut line: u32 = 1;
    for (at, byte) in HI.iter().enumerate() {
        check_spoilt(&rt, rt.alloc(), at, line, &NOT_UTF8)?;
        if *byte == b'\n' {
            line = line.saturating_add(1);
        }
    }
    Ok(())
}
