//! The calls of the worked rows.

use crate::calls::{check, check_all, check_keeping};
use crate::checks::CHECKS;
use crate::formats::{FINISHED, ONE_POOL_OF_TWO, REFUSED};
use crate::refusals::{REFUSALS, SHORT_WRITE, refused_row};
use crate::rows::{ENDS, FLOWS, OBJECTS, REQUESTS, RUN, Row, SCHEDULERS, STREAMS, UNITS};
use abt_run::Keep;
use std::test::Fail;

// One byte more than a text of format 1 may have.
const TOO_LONG_LENGTH: usize = 4_194_305;

// How many times each row of several streams is called.
const TIMES: u32 = 10;

#[test]
fn calls_leave_what_their_rows_say(rt: HostRuntime) -> Result<(), Fail> {
    let alloc = rt.alloc();
    check_all(&rt, alloc, &UNITS)?;
    check_all(&rt, alloc, &SCHEDULERS)?;
    check_all(&rt, alloc, &REQUESTS)?;
    check_all(&rt, alloc, &OBJECTS)?;
    check_all(&rt, alloc, &FLOWS)?;
    check_all(&rt, alloc, &ENDS)?;
    check_all(&rt, alloc, &CHECKS)?;
    for _ in 0..TIMES {
        check_all(&rt, alloc, &STREAMS)?;
    }
    Ok(())
}

// A run that keeps its journal if it prints it, and prints none.
const UNPRINTED: Row<'static> = Row {
    lines: b"units 0\nend\n",
    out: "tally units 0 unborn 0 pool 0 stream 0 blocked 0 done 0 asked 0 access 0 steps 0\nfinished\n",
    journal: Some(""),
    ..RUN
};

// The same, printed.
const PRINTED: Row<'static> = Row {
    words: "run f --journal",
    out: "1 0 miss 0\ntally units 0 unborn 0 pool 0 stream 0 blocked 0 done 0 asked 0 access 0 steps 0\nfinished\n",
    journal: Some("1 0 miss 0\n"),
    ..UNPRINTED
};

#[test]
fn a_journal_is_kept_if_it_is_printed(rt: HostRuntime) -> Result<(), Fail> {
    check_keeping(&rt, rt.alloc(), &UNPRINTED, Keep::IfPrinted)?;
    check_keeping(&rt, rt.alloc(), &PRINTED, Keep::IfPrinted)
}

#[test]
fn refused_calls_leave_what_their_rows_say(rt: HostRuntime) -> Result<(), Fail> {
    for refusal in &REFUSALS {
        let row = refused_row(refusal);
        check(&rt, rt.alloc(), &row)?;
    }
    check(&rt, rt.alloc(), &SHORT_WRITE)
}

#[test]
fn a_text_that_is_too_long_is_refused(rt: HostRuntime) -> Result<(), Fail> {
    let long = vec![in rt.alloc(); b'#'; TOO_LONG_LENGTH]?;
    let row = Row {
        head: "",
        lines: long.as_slice(),
        status: 3,
        err: "abtrun: line 0: limit\n",
        journal: Some(""),
        ..RUN
    };
    check(&rt, rt.alloc(), &row)
}

#[test]
fn texts_of_format_2_leave_what_their_rows_say(rt: HostRuntime) -> Result<(), Fail> {
    for (lines, out) in &FINISHED {
        let row = Row {
            head: ONE_POOL_OF_TWO,
            lines,
            out,
            ..RUN
        };
        check(&rt, rt.alloc(), &row)?;
    }
    for (head, lines, err) in &REFUSED {
        let row = Row {
            head,
            lines,
            status: 3,
            err,
            ..RUN
        };
        check(&rt, rt.alloc(), &row)?;
    }
    Ok(())
}
