//! Journals, written and read back.

use abt_machine::{Cause, Code, Event, Journal, PoolNo, Returned, StreamNo, UnitNo, What};
use abt_report::{TextFault, journal_text, read_journal};
use std::alloc::{AllocError, Global};
use std::test::Fail;

// Texts of journals on stream 0, whose stamps are 1, 2, 3 and so on, each with what happened.

const HI_TEXT: &str = "1 0 take 0 0\n2 0 look 0\n3 0 step 0 0 ok\n4 0 end 0 done\n5 0 miss 0\n";

fn hi() -> [What; 5] {
    [
        What::Take(PoolNo(0), UnitNo(0)),
        What::Look(UnitNo(0)),
        What::Step(UnitNo(0), 0, Code::Ok),
        What::End(UnitNo(0), Cause::Done),
        What::Miss(PoolNo(0)),
    ]
}

const OTHERS_TEXT: &str =
    "1 0 take 3 7\n2 0 put 7 3\n3 0 end 7 asked\n4 0 end 7 access\n5 0 end 7 own\n6 0 enter 7\n7 0 leave 7\n8 0 step 4294967295 4294967295 future-full\n9 0 call 7 1 4294967296\n10 0 call 4294967295 4294967295 18446744073709551615\n";

fn others() -> [What; 10] {
    [
        What::Take(PoolNo(3), UnitNo(7)),
        What::Put(UnitNo(7), PoolNo(3)),
        What::End(UnitNo(7), Cause::Asked),
        What::End(UnitNo(7), Cause::Access),
        What::End(UnitNo(7), Cause::Own),
        What::Enter(UnitNo(7)),
        What::Leave(UnitNo(7)),
        What::Step(UnitNo(u32::MAX), u32::MAX, Code::FutureFull),
        What::Call(UnitNo(7), 1, Returned::new(4_294_967_296)),
        What::Call(UnitNo(u32::MAX), u32::MAX, Returned::new(u64::MAX)),
    ]
}

const CODES_TEXT: &str =
    "1 0 step 0 0 ok\n2 0 step 0 0 pool-access\n3 0 step 0 0 exists\n4 0 step 0 0 unit-state\n5 0 step 0 0 not-migratable\n6 0 step 0 0 absent\n7 0 step 0 0 mutex-locked\n8 0 step 0 0 not-owner\n9 0 step 0 0 eventual-set\n10 0 step 0 0 future-full\n11 0 step 0 0 rw-held\n12 0 step 0 0 rw-full\n13 0 step 0 0 not-holder\n";

fn codes() -> [What; 13] {
    [
        What::Step(UnitNo(0), 0, Code::Ok),
        What::Step(UnitNo(0), 0, Code::PoolAccess),
        What::Step(UnitNo(0), 0, Code::Exists),
        What::Step(UnitNo(0), 0, Code::UnitState),
        What::Step(UnitNo(0), 0, Code::NotMigratable),
        What::Step(UnitNo(0), 0, Code::Absent),
        What::Step(UnitNo(0), 0, Code::MutexLocked),
        What::Step(UnitNo(0), 0, Code::NotOwner),
        What::Step(UnitNo(0), 0, Code::EventualSet),
        What::Step(UnitNo(0), 0, Code::FutureFull),
        What::Step(UnitNo(0), 0, Code::RwHeld),
        What::Step(UnitNo(0), 0, Code::RwFull),
        What::Step(UnitNo(0), 0, Code::NotHolder),
    ]
}

// The journal of stream 0 in which this happened.
fn journal_of(alloc: Global, happened: &[What]) -> Result<Journal, AllocError> {
    let mut events = Vec::new(alloc);
    for (earlier, what) in happened.iter().enumerate() {
        events.push(Event {
            stamp: earlier as u64 + 1,
            stream: StreamNo(0),
            what: *what,
        })?;
    }
    Ok(Journal::new(events))
}

// More bytes than any text here has.
const ROOM: usize = 1_000_000;

// Whether this is the text of the journal.
fn is_text_of(alloc: Global, journal: &Journal, text: &str) -> bool {
    match journal_text(alloc, journal) {
        Ok(written) => written.as_slice() == text.as_bytes(),
        Err(_) => false,
    }
}

// Whether the text is read as the journal.
fn is_read_as(alloc: Global, text: &str, journal: &Journal) -> bool {
    if text.len() >= ROOM {
        return false;
    }
    match read_journal(alloc, text.as_bytes()) {
        Ok(read) => read.items() == journal.items(),
        Err(_) => false,
    }
}

// Whether the journal in which this happened is written so and read back.
fn is_written(alloc: Global, text: &str, happened: &[What]) -> Result<bool, AllocError> {
    let journal = journal_of(alloc, happened)?;
    Ok(is_text_of(alloc, &journal, text) && is_read_as(alloc, text, &journal))
}

#[test]
fn journals_are_written_and_read_back(rt: HostRuntime) -> Result<(), Fail> {
    let alloc = rt.alloc();
    assert!(rt; is_written(alloc, "", &[])?);
    assert!(rt; is_written(alloc, HI_TEXT, &hi())?);
    assert!(rt; is_written(alloc, OTHERS_TEXT, &others())?);
    assert!(rt; is_written(alloc, CODES_TEXT, &codes())?);
    Ok(())
}

// How many lines a long journal has.
const LINES: u64 = 1200;

// A long journal: each line is as long as there may be, and has a stamp far beyond 32 bits.
fn long_journal(alloc: Global) -> Result<Journal, AllocError> {
    let mut events = Vec::new(alloc);
    for later in 0..LINES {
        events.push(Event {
            stamp: u64::MAX - later,
            stream: StreamNo(u32::MAX),
            what: What::Step(UnitNo(u32::MAX), u32::MAX, Code::NotMigratable),
        })?;
    }
    Ok(Journal::new(events))
}

// Its text.
fn long_text(alloc: Global) -> Result<String, AllocError> {
    let mut text = String::new(alloc);
    for later in 0..LINES {
        let stamp = u64::MAX - later;
        writeln!(
            text,
            "{stamp} 4294967295 step 4294967295 4294967295 not-migratable"
        )?;
    }
    Ok(text)
}

// Whether it is written so and read back.
fn is_long_written(alloc: Global) -> Result<bool, AllocError> {
    let journal = long_journal(alloc)?;
    let text = long_text(alloc)?;
    Ok(is_text_of(alloc, &journal, &text) && is_read_as(alloc, &text, &journal))
}

#[test]
fn long_journals_are_written_and_read_back(rt: HostRuntime) -> Result<(), Fail> {
    let is = is_long_written(rt.alloc())?;
    assert!(rt; is);
    Ok(())
}

// Texts that are no journal's, and the first line at which none agrees.
static BAD: [(&str, u32); 33] = [
    // row hi's, each line spoilt
    ("1 0 take 0 x\n2 0 look 0\n", 1),
    ("1 0 take 0 0\n2 0 lock 0\n3 0 step 0 0 ok\n", 2),
    (
        "1 0 take 0 0\n2 0 look 0\n3 0 step 0 ok\n4 0 end 0 done\n",
        3,
    ),
    (
        "1 0 take 0 0\n2 0 look 0\n3 0 step 0 0 ok\n4 0 end 0 finished\n5 0 miss 0\n",
        4,
    ),
    (
        "1 0 take 0 0\n2 0 look 0\n3 0 step 0 0 ok\n4 0 end 0 done\n5 0 miss\n",
        5,
    ),
    (
        "1 0 take 0 0\n2 0 look 0\n3 0 step 0 0 ok\n4 0 end 0 done\n5 0 miss 0",
        5,
    ),
    (
        "1 0 take 0 0\n2 0 look 0\n3 0 step 0 0 ok\n4 0 end 0 done\n5 0 miss 0\n\n",
        6,
    ),
    // line feeds
    ("\n", 1),
    ("1 0 miss 0\r\n", 1),
    ("1 0 miss 0\n\n2 0 miss 0\n", 2),
    // blanks
    (" 1 0 miss 0\n", 1),
    ("1 0 miss 0 \n", 1),
    ("1  0 miss 0\n", 1),
    ("1\t0 miss 0\n", 1),
    ("1 0 step 0 0 ok \n", 1),
    ("1 0 step 0 0 ok 0 0\n", 1),
    ("1 0 miss 0\n          \n", 2),
    // numbers
    ("01 0 miss 0\n", 1),
    ("1 00 miss 0\n", 1),
    ("1 0 miss 00\n", 1),
    ("+1 0 miss 0\n", 1),
    ("18446744073709551616 0 miss 0\n", 1),
    ("1 4294967296 miss 0\n", 1),
    ("1 0 miss 4294967296\n", 1),
    ("1 0 step 0 4294967296 ok\n", 1),
    ("1 0 call 0 0 18446744073709551616\n", 1),
    ("1 0 call 0 0 00\n", 1),
    // words
    ("1 0 Miss 0\n", 1),
    ("1 0 miss 0 0\n", 1),
    ("1 0 step 0 0 refused\n", 1),
    ("1 0 call 0 0\n", 1),
    ("1 0 call 0 0 0 ok\n", 1),
    ("1 0\n", 1),
];

// The first line at which no journal's text agrees with this one, if there is one.
fn bad_line(alloc: Global, text: &str) -> Option<u32> {
    if text.len() >= ROOM {
        return None;
    }
    match read_journal(alloc, text.as_bytes()) {
        Err(TextFault::Bad { line }) => Some(line),
        _ => None,
    }
}

#[test]
fn other_texts_are_refused_at_their_first_bad_line(rt: HostRuntime) {
    for (text, line) in &BAD {
        assert!(rt; bad_line(rt.alloc(), text) == Some(*line), "{text}");
    }
}

// A journal of one event, and then a line of 50,000 blanks.
fn blank_text(alloc: Global) -> Result<String, AllocError> {
    let mut text = String::from_str(alloc, "1 0 miss 0\n")?;
    for _ in 0..5_000 {
        text.push_str("          ")?;
    }
    text.push_str("\n")?;
    Ok(text)
}

#[test]
fn a_long_line_of_blanks_is_refused(rt: HostRuntime) -> Result<(), Fail> {
    let text = blank_text(rt.alloc())?;
    assert!(rt; bad_line(rt.alloc(), &text) == Some(2));
    Ok(())
}

#[test]
fn a_long_text_is_refused_at_its_last_line(rt: HostRuntime) -> Result<(), Fail> {
    let mut text = long_text(rt.alloc())?;
    text.push_str("finished\n")?;
    assert!(rt; bad_line(rt.alloc(), &text) == Some(1201));
    Ok(())
}
