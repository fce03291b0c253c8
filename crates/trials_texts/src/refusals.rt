//! Texts that are refused, each at its line.

use abt_machine::Fault;
use abt_workload::{NotRead, read};
use std::alloc::{AllocError, Global};
use std::test::Fail;

// One stream, one pool and one scheduler.
static BASE: &str = "abt 1\nstreams 1\npool 0 fifo mpmc\nsched 0 prio 0\nstream 0 main 0\n";

// The same in format 2.
static BASE_TWO: &str = "abt 2\nstreams 1\npool 0 fifo mpmc\nsched 0 prio 0\nstream 0 main 0\n";

// The same in format 3, with a key.
static BASE_THREE: &str =
    "abt 3\nstreams 1\nkeys 1\npool 0 fifo mpmc\nsched 0 prio 0\nstream 0 main 0\n";

// A text that is refused, the line and the fault.
type Row = (&'static str, u32, Fault);

// Whole texts.
static ALONE: [Row; 36] = [
    ("abt 4\n", 1, Fault::Version),
    ("# a\n\nstreams 1\n", 3, Fault::Version),
    ("abt 01\n", 1, Fault::Version),
    ("walk\n", 1, Fault::Version),
    ("abt 1\nabt1\n", 2, Fault::Unknown),
    ("abt 1\nstreams 1\r\n", 2, Fault::Shape),
    ("abt 1\nabt 1\n", 2, Fault::Shape),
    (
        "abt 1\nstreams 1\npool x fifo priv of 9\n",
        3,
        Fault::Number,
    ),
    (
        "abt 1\nstreams 1\npool 0 fifo mpmc\nsched 0 prio 0 0 x\n",
        4,
        Fault::Number,
    ),
    (
        "abt 1\nstreams 1\npool 0 fifo mpmc\npool 0 fifo mpmc\n",
        4,
        Fault::Twice,
    ),
    (
        "abt 1\nstreams 1\npool 0 fifo mpmc\nsched 0 prio 9 9\n",
        4,
        Fault::Twice,
    ),
    ("abt 1\npool 1 fifo mpmc\n", 2, Fault::Undeclared),
    ("abt 1\npool 0 fifo priv of 0\n", 2, Fault::Undeclared),
    ("abt 1\nstreams 9\n", 2, Fault::Limit),
    ("abt 1\nstreams 0\n", 2, Fault::Limit),
    ("abt 1\nkeys 17\n", 2, Fault::Limit),
    (
        "abt 1\nstreams 1\npool 0 fifo mpmc\nsched 0 user 2 0\n",
        4,
        Fault::Limit,
    ),
    (
        "abt 1\nstreams 2\npool 0 fifo priv of 0\nsched 0 prio 0\nstream 1 main 0\n",
        5,
        Fault::Access,
    ),
    (
        "abt 1\nstreams 2\npool 0 fifo spsc from 1 to 0\nsched 0 prio 0\nstream 1 main 0\n",
        5,
        Fault::Access,
    ),
    (
        "abt 1\nstreams 2\npool 0 fifo mpsc to 1\nsched 0 prio 0\nstream 0 main 0\n",
        5,
        Fault::Access,
    ),
    (
        "abt 1\nstreams 2\npool 0 fifo spmc from 0\npool 1 fifo mpsc to 0\nsched 0 prio 0 1\nstream 1 main 0\n",
        6,
        Fault::Access,
    ),
    ("", 1, Fault::NoEnd),
    ("# a\n\n", 3, Fault::NoEnd),
    ("abt 1\nkeys 1\n", 2, Fault::Missing),
    ("abt 1\nstreams 1\nunits 0\n", 3, Fault::Missing),
    (
        "abt 1\nstreams 2\npool 0 fifo mpmc\nsched 0 prio 0\nstream 0 main 0\nunits 0\n",
        6,
        Fault::Missing,
    ),
    ("abt 1\nabt 2\n", 2, Fault::Shape),
    ("abt 2\nabt 2\n", 2, Fault::Shape),
    ("abt 2 2\n", 1, Fault::Version),
    (
        "abt 2\nstreams 1\npool 0 fifo mpmc\nsched 0 prio 0\nsched 1 prio 0\nstream 0 main 0\nunits 1\nmany 0 1 sched 1 later\nrepeat 2 print\n",
        9,
        Fault::Shape,
    ),
    ("abt 2\nstreams 17\n", 2, Fault::Limit),
    ("abt 2\nstreams 16\npool 0 fifo mpmc\n", 4, Fault::NoEnd),
    ("abt 3\nabt 3\n", 2, Fault::Shape),
    ("abt 3 3\n", 1, Fault::Version),
    ("abt 3\nstreams 65\n", 2, Fault::Limit),
    ("abt 3\nstreams 64\npool 0 fifo mpmc\n", 4, Fault::NoEnd),
];

// Texts below the base.
static BELOW_BASE: [Row; 47] = [
    ("units 1\nunit 0 ult at 0\nwalk\n", 8, Fault::Unknown),
    ("units 0\nend\nwalk\n", 8, Fault::Unknown),
    ("end\r\n", 6, Fault::Unknown),
    ("leave\n", 6, Fault::Unknown),
    ("rwlock 0\n", 6, Fault::Unknown),
    ("units 1 1\n", 6, Fault::Shape),
    ("streams 1\n", 6, Fault::Shape),
    ("print\n", 6, Fault::Shape),
    ("units 0\nend\nend\n", 8, Fault::Shape),
    ("object 0 spinlock\n", 6, Fault::Shape),
    ("object 0 rwlock 4\n", 6, Fault::Shape),
    ("object 0 future x many\n", 6, Fault::Shape),
    ("units \u{7f}\n", 6, Fault::Shape),
    ("units x\n", 6, Fault::Number),
    ("units +1\n", 6, Fault::Number),
    (
        "units 1\nunit 0 ult at 0\nset 18446744073709551616\n",
        8,
        Fault::Number,
    ),
    ("stream 0 main 0\n", 6, Fault::Twice),
    ("units 1\nunit 0 sched 0 at 9\n", 7, Fault::Twice),
    ("object 0 mutex\nobject 0 cond 5\n", 7, Fault::Twice),
    ("unit 0 ult later\n", 6, Fault::Undeclared),
    ("object 0 cond 0\n", 6, Fault::Undeclared),
    (
        "object 0 eventual\nunits 1\nunit 0 task at 0\nlock 0\n",
        9,
        Fault::Undeclared,
    ),
    ("object 0 rwlock\nobject 1 cond 0\n", 7, Fault::Undeclared),
    (
        "object 0 rwlock\nunits 1\nunit 0 ult at 0\nrwload 0\nload 0\n",
        10,
        Fault::Undeclared,
    ),
    (
        "object 0 mutex\nunits 1\nunit 0 task at 0\nwrlock 0\n",
        9,
        Fault::Undeclared,
    ),
    ("units 1\nunit 0 ult at 0\nkset 0\n", 8, Fault::Undeclared),
    (
        "units 1\nunit 0 ult at 0\nunit 1 ult at 0\n",
        8,
        Fault::Undeclared,
    ),
    ("object 0 barrier 0\n", 6, Fault::Limit),
    ("object 0 future 4097 sum\n", 6, Fault::Limit),
    ("units 257\n", 6, Fault::Limit),
    (
        "units 1\nunit 0 task at 0\nmigratable 0 2\n",
        8,
        Fault::Limit,
    ),
    (
        "units 1\nunit 0 ult at 0\nsay aaaaaaaaaaaaaaaaaaaaaaaaaaaaaaaaaaaaaaaaaaaaaaaaaaaaaaaaaaaaaaaaa\n",
        8,
        Fault::Limit,
    ),
    (
        "units 1\nunit 0 task at 0\nyield\nend\n",
        8,
        Fault::TaskBlocks,
    ),
    ("units 1\nunit 0 task at 0\nsuspend\n", 8, Fault::TaskBlocks),
    ("units 1\nunit 0 task at 0\nexit\n", 8, Fault::TaskBlocks),
    (
        "units 1\nunit 0 task at 0\nprint\njoin 0\n",
        9,
        Fault::TaskBlocks,
    ),
    (
        "object 0 mutex\nunits 1\nunit 0 task at 0\ntrylock 0\nlock 0\n",
        10,
        Fault::TaskBlocks,
    ),
    (
        "object 0 rwlock\nunits 1\nunit 0 task at 0\nrwunlock 0\nrwload 0\nrwstore 0\nrdlock 0\n",
        12,
        Fault::TaskBlocks,
    ),
    (
        "object 0 rwlock\nunits 1\nunit 0 task at 0\nwrlock 0\n",
        9,
        Fault::TaskBlocks,
    ),
    ("units 0", 7, Fault::NoEnd),
    ("units 1\nunit 0 ult at 0\nsay hi\n", 9, Fault::NoEnd),
    ("end\n", 6, Fault::Missing),
    ("units 1\nend\n", 7, Fault::Missing),
    ("units 1\nmany 0 1 ult at 0\n", 7, Fault::Unknown),
    (
        "units 1\nunit 0 ult at 0\nrepeat 3 print\n",
        8,
        Fault::Unknown,
    ),
    ("units 1\nunit 0 ult at 0\ncall 0\n", 8, Fault::Unknown),
    ("units 1\nunit 0 ult at 0\ncalc foo\n", 8, Fault::Unknown),
];

// Texts below the base in format 2.
static BELOW_BASE_TWO: [Row; 37] = [
    ("walk\n", 6, Fault::Unknown),
    ("units 1\nmany 0 1 ult\n", 7, Fault::Shape),
    ("units 1\nmany 0 ult at 0\n", 7, Fault::Shape),
    ("many 0 1 ult at 0\n", 6, Fault::Shape),
    ("units 0\nend\nmany 0 1 ult at 0\n", 8, Fault::Shape),
    ("units 1\nrepeat 3 print\n", 7, Fault::Shape),
    ("units 1\nunit 0 ult at 0\nrepeat 3\n", 8, Fault::Shape),
    ("units 1\nunit 0 ult at 0\nrepeat 3 walk\n", 8, Fault::Shape),
    (
        "units 1\nunit 0 ult at 0\nrepeat 3 repeat 2 print\n",
        8,
        Fault::Shape,
    ),
    (
        "units 1\nunit 0 ult at 0\nrepeat 3 print 1\n",
        8,
        Fault::Shape,
    ),
    ("units 1\nmany 0 x ult at 0\n", 7, Fault::Number),
    (
        "units 1\nunit 0 ult at 0\nrepeat x print\n",
        8,
        Fault::Number,
    ),
    (
        "units 3\nunit 0 ult at 0\nmany 0 9 ult at 0\n",
        8,
        Fault::Twice,
    ),
    (
        "units 3\nmany 0 2 ult at 0\nunit 1 ult at 0\n",
        8,
        Fault::Twice,
    ),
    ("units 1\nmany 0 1 sched 0 later\n", 7, Fault::Twice),
    ("units 1\nmany 0 2 sched 1 later\n", 7, Fault::Twice),
    ("units 3\nmany 1 2 ult at 0\n", 7, Fault::Undeclared),
    ("units 3\nmany 0 4 ult at 0\n", 7, Fault::Undeclared),
    (
        "units 3\nmany 0 2 ult at 0\nmany 2 2 ult at 0\n",
        8,
        Fault::Undeclared,
    ),
    (
        "units 3\nmany 0 3 ult at 0\nunit 3 ult at 0\n",
        8,
        Fault::Undeclared,
    ),
    ("units 1\nmany 0 1 ult at 1\n", 7, Fault::Undeclared),
    (
        "units 1\nunit 0 ult at 0\nrepeat 0 lock 0\n",
        8,
        Fault::Undeclared,
    ),
    ("units 4097\n", 6, Fault::Limit),
    ("units 0\nmany 0 0 ult at 0\n", 7, Fault::Limit),
    (
        "units 1\nunit 0 task at 0\nrepeat 0 yield\n",
        8,
        Fault::Limit,
    ),
    (
        "units 1\nunit 0 ult at 0\nrepeat 257 print\n",
        8,
        Fault::Limit,
    ),
    (
        "units 1\nunit 0 ult at 0\nrepeat 256 print\nprint\n",
        9,
        Fault::Limit,
    ),
    (
        "units 1\nunit 0 ult at 0\nprint\nrepeat 18446744073709551615 print\n",
        9,
        Fault::Limit,
    ),
    (
        "units 257\nmany 0 257 ult later\nrepeat 255 print\nprint\n",
        9,
        Fault::Limit,
    ),
    (
        "units 257\nmany 0 256 ult later\nrepeat 256 print\nunit 256 ult later\nprint\n",
        10,
        Fault::Limit,
    ),
    (
        "units 1\nunit 0 ult at 0\nrepeat 2 say aaaaaaaaaaaaaaaaaaaaaaaaaaaaaaaaaaaaaaaaaaaaaaaaaaaaaaaaaaaaaaaaa\n",
        8,
        Fault::Limit,
    ),
    (
        "units 2\nmany 0 2 task at 0\nrepeat 2 yield\n",
        8,
        Fault::TaskBlocks,
    ),
    (
        "object 0 rwlock\nunits 1\nunit 0 task at 0\nrepeat 2 rwload 0\nrepeat 2 rdlock 0\n",
        10,
        Fault::TaskBlocks,
    ),
    ("units 3\nmany 0 2 ult at 0\nend\n", 8, Fault::Missing),
    ("units 1\nunit 0 ult at 0\ncall 0\n", 8, Fault::Unknown),
    ("units 1\nunit 0 ult at 0\ncalc foo\n", 8, Fault::Unknown),
    (
        "units 1\nunit 0 ult at 0\nrepeat 2 call 0\n",
        8,
        Fault::Shape,
    ),
];

// Texts below the base in format 3.
static BELOW_BASE_THREE: [Row; 20] = [
    ("call 0\n", 7, Fault::Shape),
    ("units 1\nunit 0 ult at 0\ncall\n", 9, Fault::Shape),
    ("units 1\nunit 0 ult at 0\ncalc foo 0\n", 9, Fault::Shape),
    ("units 1\nunit 0 ult at 0\ncalc add\n", 9, Fault::Shape),
    ("units 1\nunit 0 ult at 0\ncall x\n", 9, Fault::Number),
    ("units 1\nunit 0 ult at 0\ncalc add x\n", 9, Fault::Number),
    (
        "units 1\nunit 0 ult at 0\ncalc add 1\n",
        9,
        Fault::Undeclared,
    ),
    ("units 1\nunit 0 ult at 0\ncall 8\n", 9, Fault::Limit),
    (
        "units 1\nunit 0 ult at 0\nrepeat 2 call 8\n",
        9,
        Fault::Limit,
    ),
    ("units 65537\n", 7, Fault::Limit),
    ("units 0\nmany 0 0 ult at 0\n", 8, Fault::Limit),
    (
        "units 1\nunit 0 ult at 0\nrepeat 0 print\n",
        9,
        Fault::Limit,
    ),
    (
        "units 1\nunit 0 ult at 0\nrepeat 4097 print\n",
        9,
        Fault::Limit,
    ),
    (
        "units 1\nunit 0 ult at 0\nrepeat 4096 print\nprint\n",
        10,
        Fault::Limit,
    ),
    (
        "units 257\nmany 0 257 ult later\nrepeat 4080 print\nprint\n",
        10,
        Fault::Limit,
    ),
    (
        "units 257\nmany 0 256 ult later\nrepeat 4096 print\nunit 256 ult later\nprint\n",
        11,
        Fault::Limit,
    ),
    (
        "units 1\nunit 0 task at 0\ncall 7\nrepeat 2 calc gcd 0\nyield\n",
        11,
        Fault::TaskBlocks,
    ),
    ("units 1\nunit 0 ult at 0\ncall 0\n", 10, Fault::NoEnd),
    (
        "units 65536\nmany 0 65536 ult later\nrepeat 16 print\n",
        10,
        Fault::NoEnd,
    ),
    (
        "units 65536\nmany 0 65535 ult later\nend\n",
        9,
        Fault::Missing,
    ),
];

// Bytes that are no text.
static NO_TEXTS: [(&[u8], u32); 4] = [
    (b"# \xff\n", 1),
    (b"\xff", 1),
    (b"abt 1\nwalk \xc3\n", 2),
    (b"abt 1\n\nsay \xc3\xa9\xff\n", 3),
];

// The first bytes of texts, how long each is, and the line and the fault.
static LENGTHS: [(&[u8], usize, u32, Fault); 8] = [
    (b"", 4_194_305, 0, Fault::Limit),
    (b"", 4_194_304, 2, Fault::NoEnd),
    (b"abt 1\n", 4_194_305, 0, Fault::Limit),
    (b"#\xff\nabt 2\n", 4_194_305, 1, Fault::Utf8),
    (b"# two\nabt 2\n", 8_388_609, 0, Fault::Limit),
    (b"# two\nabt 2\n", 8_388_608, 4, Fault::NoEnd),
    (b"# three\nabt 3\n", 134_217_729, 0, Fault::Limit),
    (b"# three\nabt 3\n", 134_217_728, 4, Fault::NoEnd),
];

/// The line and the fault at which a text is refused, if it is.
pub(crate) fn refused(alloc: Global, text: &[u8]) -> Option<(u32, Fault)> {
    match read(alloc, text) {
        Err(NotRead::Refused { line, fault }) => Some((line, fault)),
        _ => None,
    }
}

// The first text below this head that is not refused as its row says, if there is one.
fn other_than_refused(
    alloc: Global,
    head: &str,
    rows: &[Row],
) -> Result<Option<&'static str>, AllocError> {
    for (rest, line, fault) in rows {
        let text = format!(in alloc; "{head}{rest}")?;
        if refused(alloc, text.as_bytes()) != Some((*line, *fault)) {
            return Ok(Some(rest));
        }
    }
    Ok(None)
}

#[test]
fn each_fault_is_found_at_its_line(rt: HostRuntime) -> Result<(), Fail> {
    let others = [
        other_than_refused(rt.alloc(), "", &ALONE)?,
        other_than_refused(rt.alloc(), BASE, &BELOW_BASE)?,
        other_than_refused(rt.alloc(), BASE_TWO, &BELOW_BASE_TWO)?,
        other_than_refused(rt.alloc(), BASE_THREE, &BELOW_BASE_THREE)?,
    ];
    for other in others {
        assert!(rt; other.is_none(), "{other:?}");
    }
    Ok(())
}

#[test]
fn bytes_that_are_no_text_are_refused(rt: HostRuntime) {
    for (bytes, line) in &NO_TEXTS {
        assert!(rt; refused(rt.alloc(), bytes) == Some((*line, Fault::Utf8)));
    }
}

// A text that begins so, and has so many bytes.
fn of_length(alloc: Global, head: &[u8], bytes: usize) -> Result<Vec<u8>, AllocError> {
    let mut text = Vec::from_slice(alloc, head)?;
    text.resize(bytes, b'#')?;
    Ok(text)
}

#[test]
fn a_text_that_is_too_long_is_refused(rt: HostRuntime) -> Result<(), Fail> {
    for (head, bytes, line, fault) in &LENGTHS {
        let text = of_length(rt.alloc(), head, *bytes)?;
        let found = refused(rt.alloc(), &text);
        assert!(rt; found == Some((*line, *fault)), "{bytes}");
    }
    Ok(())
}
