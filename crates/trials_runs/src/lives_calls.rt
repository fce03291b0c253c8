//! Calls of `abtwaves` over memory.

use abt_lives::abtwaves;
use abt_order::StoredOrder;
use abt_source::{MemoryFiles, MemorySink, NamedBytes};
use abt_work::AnyWork;
use std::alloc::{AllocError, Global};
use std::sync::Wait;
use std::test::Fail;
use std::thread::Threads;

// The most bytes that a sink takes.
const ROOM: usize = 4096;

// The number of a write that no call makes.
const NONE: u64 = 1_000_000;

// Two streams, the second of which a unit starts.
const MADE: &str =
    "abt 1\nstreams 2\npool 0 fifo mpmc\npool 1 fifo mpmc\nsched 0 prio 0\nsched 1 prio 1\nstream 0 main 0\nstream 1 main 1\nobject 0 eventual\nobject 1 eventual\nunits 2\nunit 0 ult at 0\ncreate 1 1\neset 0\nunit 1 ult later\nsay made\nend\n";

// The same, except that nothing starts it.
const STUCK: &str =
    "abt 1\nstreams 2\npool 0 fifo mpmc\npool 1 fifo mpmc\nsched 0 prio 0\nsched 1 prio 1\nstream 0 main 0\nstream 1 main 1\nobject 0 eventual\nobject 1 eventual\nunits 2\nunit 0 ult at 0\ncreate 1 1\nunit 1 ult later\nsay made\nend\n";

const MADE_OUTPUT: &str =
    "unit 0 done:\nunit 1 done: made\ntally units 2 unborn 0 pool 0 stream 0 blocked 0 done 2 asked 0 access 0 steps 3\nfinished\nwave 0 from 0 streams 0\nwave 1 from 7 streams 0 1\n";

const STUCK_OUTPUT: &str =
    "unit 0 done:\nunit 1 pool 1:\ntally units 2 unborn 0 pool 1 stream 0 blocked 0 done 1 asked 0 access 0 steps 1\nstuck\nwave 0 from 0 streams 0\n";

// Two units that revive each other for ever.
const REVIVING: &str =
    "abt 1\nstreams 1\npool 0 fifo mpmc\nsched 0 prio 0\nstream 0 main 0\nunits 2\nunit 0 ult at 0\nrevive 1 0\nunit 1 ult at 0\nrevive 0 0\nend\n";

const REVIVING_OUTPUT: &str =
    "unit 0 stream 0: !unit-state\nunit 1 done:\ntally units 2 unborn 0 pool 0 stream 1 blocked 0 done 1 asked 0 access 0 steps 10000\nbudget 0\nwave 0 from 0 streams 0\n";

// A unit on the only stream.
const SAYING: &str =
    "abt 1\nstreams 1\npool 0 fifo mpmc\nsched 0 prio 0\nstream 0 main 0\nunits 1\nunit 0 ult at 0\nsay hi\nend\n";

const SAYING_OUTPUT: &str =
    "1 0 take 0 0\n2 0 look 0\n3 0 step 0 0 ok\n4 0 end 0 done\n5 0 miss 0\nunit 0 done: hi\ntally units 1 unborn 0 pool 0 stream 0 blocked 0 done 1 asked 0 access 0 steps 1\nfinished\nwave 0 from 0 streams 0\n";

const HELP: &str =
    "abtwaves WORKLOAD LIVES [--steps V] [--journal]\nabtwaves --help\nabtwaves --version\n";

const BAD_WORDS: &str =
    "abtwaves: bad command line\nusage: abtwaves WORKLOAD LIVES [--steps V] [--journal]\n";

// The words, the bytes of the files `w` and `l`, the write that fails, the status, the output and the message.
type Row<'a> = (&'a [&'a str], &'a str, &'a [u8], u64, u8, &'a str, &'a str);

static ROWS: [Row<'static>; 22] = [
    (&["w", "l"], MADE, b"life 1 0 1\n", NONE, 0, MADE_OUTPUT, ""),
    (
        &["w", "l"],
        STUCK,
        b"life 1 0 1\n",
        NONE,
        1,
        STUCK_OUTPUT,
        "",
    ),
    (&["w", "l"], REVIVING, b"", NONE, 4, REVIVING_OUTPUT, ""),
    (
        &["w", "l"],
        MADE,
        b"life 1 0 0\n",
        NONE,
        3,
        "",
        "abtwaves: line 1: life\n",
    ),
    (
        &["w", "l"],
        MADE,
        b"life 0 0 1\nlife 1 0 1",
        NONE,
        3,
        "",
        "abtwaves: line 2: life\n",
    ),
    (
        &["w", "l"],
        "abt 4\n",
        b"life",
        NONE,
        3,
        "",
        "abtwaves: line 1: version\n",
    ),
    (
        &["w", "l"],
        MADE,
        b"life 1 0 1\n",
        0,
        6,
        "",
        "abtwaves: cannot write\n",
    ),
    (
        &["w", "x"],
        MADE,
        b"life 1 0 1\n",
        NONE,
        5,
        "",
        "abtwaves: cannot read\nx: absent\n",
    ),
    (
        &["x", "l"],
        MADE,
        b"life 1 0 0\n",
        NONE,
        5,
        "",
        "abtwaves: cannot read\nx: absent\n",
    ),
    (
        &["w", "l"],
        MADE,
        b"\n# one stream\nlife 1 0 1\n\t",
        NONE,
        0,
        MADE_OUTPUT,
        "",
    ),
    (
        &["--steps=2", "w", "l"],
        MADE,
        b"life 1 0 1\n",
        NONE,
        0,
        MADE_OUTPUT,
        "",
    ),
    (
        &["w", "--journal", "l"],
        SAYING,
        b"",
        NONE,
        0,
        SAYING_OUTPUT,
        "",
    ),
    (&["--help"], MADE, b"", NONE, 0, HELP, ""),
    (
        &["--version"],
        MADE,
        b"",
        NONE,
        0,
        "abtwaves 1, proved by the logic dac8208d650f15bf\n",
        "",
    ),
    (
        &["--version"],
        MADE,
        b"",
        0,
        6,
        "",
        "abtwaves: cannot write\n",
    ),
    (
        &["w", "l", "--steps", "100001"],
        MADE,
        b"life",
        NONE,
        2,
        "",
        BAD_WORDS,
    ),
    (
        &["w", "l", "--steps", "2", "--steps", "2"],
        MADE,
        b"",
        NONE,
        2,
        "",
        BAD_WORDS,
    ),
    (&["w"], MADE, b"", NONE, 2, "", BAD_WORDS),
    (&["w", "l", "l"], MADE, b"", NONE, 2, "", BAD_WORDS),
    (&["-", "-"], MADE, b"", NONE, 2, "", BAD_WORDS),
    (&["w", ""], MADE, b"", NONE, 2, "", BAD_WORDS),
    (&["w", "-l"], MADE, b"", NONE, 2, "", BAD_WORDS),
];

// The words of a call.
fn list_of(alloc: Global, words: &[&str]) -> Result<Vec<String>, AllocError> {
    let mut list = Vec::new(alloc);
    for word in words {
        list.push(String::from_str(alloc, word)?)?;
    }
    Ok(list)
}

// The file of that name.
fn file(alloc: Global, name: &str, bytes: &[u8]) -> Result<NamedBytes, AllocError> {
    let name = String::from_str(alloc, name)?;
    let bytes = Vec::from_slice(alloc, bytes)?;
    Ok(NamedBytes { name, bytes })
}

// The files of a call.
fn files_of(alloc: Global, workload: &str, lives: &[u8]) -> Result<MemoryFiles, AllocError> {
    let w = file(alloc, "w", workload.as_bytes())?;
    let l = file(alloc, "l", lives)?;
    Ok(MemoryFiles::new(vec![in alloc; w, l]?, Vec::new(alloc)))
}

// Whether a call with these words over these files leaves what the row says. No write of the output takes more than 9 bytes.
fn leaves<R: Threads + Wait + Sync>(
    rt: &R,
    alloc: Global,
    words: &[String],
    files: &mut MemoryFiles,
    row: Row,
) -> Result<bool, Fail> {
    let (_, _, _, failing, status, wanted, message) = row;
    let mut out = MemorySink::new(alloc, ROOM, 9, vec![in alloc; failing]?)?;
    let mut err = MemorySink::new(alloc, ROOM, ROOM, Vec::new(alloc))?;
    let orders = [StoredOrder::rotating(), StoredOrder::mirroring()];
    let ended = abtwaves(
        rt, alloc, words, files, &mut out, &mut err, &AnyWork, &orders,
    );
    Ok(
        ended.status == status
            && out.bytes() == wanted.as_bytes()
            && err.bytes() == message.as_bytes(),
    )
}

// Whether a row's call leaves what the row says.
fn is_left<R: Threads + Wait + Sync>(rt: &R, alloc: Global, row: Row) -> Result<bool, Fail> {
    let (words, workload, lives, _, _, _, _) = row;
    let words = list_of(alloc, words)?;
    let mut files = files_of(alloc, workload, lives)?;
    leaves(rt, alloc, &words, &mut files, row)
}

#[test]
fn calls_on_lives_leave_what_their_rows_say(rt: HostRuntime) -> Result<(), Fail> {
    for row in &ROWS {
        let is = is_left(&rt, rt.alloc(), *row)?;
        assert!(rt; is, "{}{}", row.1, row.6);
    }
    Ok(())
}

// Whether a text of this many bytes, none of which is skipped, is refused with this message.
fn is_refused<R: Threads + Wait + Sync>(
    rt: &R,
    alloc: Global,
    length: usize,
    message: &str,
) -> Result<bool, Fail> {
    let lives = vec![in alloc; b'l'; length]?;
    let row = (
        ["w", "l"].as_slice(),
        MADE,
        lives.as_slice(),
        NONE,
        3,
        "",
        message,
    );
    is_left(rt, alloc, row)
}

#[test]
fn a_text_of_lives_has_65_536_bytes_at_most(rt: HostRuntime) -> Result<(), Fail> {
    let most = is_refused(&rt, rt.alloc(), 65_536, "abtwaves: line 1: life\n")?;
    let more = is_refused(&rt, rt.alloc(), 65_537, "abtwaves: line 0: life\n")?;
    assert!(rt; most && more);
    Ok(())
}
