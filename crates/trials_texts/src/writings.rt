//! Workloads, written and read again.

use abt_workload::{each_text_has_one_answer, read, write};
use std::alloc::{AllocError, Global};
use std::test::Fail;

// A scheduler that is stacked on another, revived and stacked again.
const STACKED: &str =
    "abt 1\nstreams 1\npool 0 fifo mpmc\npool 1 fifo mpmc\nsched 0 prio 0\nsched 1 prio 1\nstream 0 main 0\nunits 4\nunit 0 sched 1 at 0\nunit 1 ult at 1\nsay in\nunit 2 ult at 0\njoin 0\ncreate 3 1\nrevive 0 0\nunit 3 ult later\nsay again\nend\n";

// The same workload, in unusual spelling and without its last line feed.
const STACKED_OTHERWISE: &str =
    "# stacked\n\tabt  1\n\nstreams 01\nkeys 0\npool 0 fifo  mpmc\npool 1 fifo mpmc \nsched 0 prio 00\nsched 1\tprio 1\nstream 0 main 0\n# units\nunits 004\nunit 0 sched 1 at 0\nunit 1 ult at 01\n  say in\nunit 2 ult at 0\njoin 0\ncreate 3 1\nrevive 0 0\nunit 3 ult later\nsay again\nend";

// A text with each kind of part.
const PARTS: &str =
    "abt 1\nstreams 2\nkeys 16\npool 0 fifo priv of 0\npool 1 deque spsc from 1 to 0\npool 2 fifo mpsc to 1\npool 3 deque spmc from 0\npool 4 fifo mpmc\nsched 0 basic 0 1\nsched 1 prio 4 2\nsched 2 randws 18446744073709551615 4\nsched 3 user 1 4 3\nstream 0 main 0\nstream 1 main 1\nobject 0 mutex\nobject 1 cond 0\nobject 2 eventual\nobject 3 future 4096 sum\nobject 4 future 1 max\nobject 5 future 2 count\nobject 6 barrier 4096\nobject 7 rwlock\nunits 4\nunit 0 ult at 4\nunit 1 task later\nunit 2 sched 2 at 0\nunit 3 sched 3 later\nend\n";

// A text with each operation.
const OPERATIONS: &str =
    "abt 1\nstreams 1\nkeys 1\npool 0 fifo mpmc\nsched 0 prio 0\nstream 0 main 0\nobject 0 mutex\nobject 1 cond 0\nobject 2 eventual\nobject 3 future 1 sum\nobject 4 barrier 1\nobject 5 rwlock\nunits 1\nunit 0 ult at 0\nset 18446744073709551615\nadd 10\nsay \u{e9}\nprint\nkset 0\nkget 0\nyield\nyieldto 0 0\nsuspend\nexit\nresume 0\ncreate 0 0\njoin 0\ncancel 0\nmigrate 0 0\nmigrateto 0 0\nmigratable 0 0\nmigratable 0 1\nrevive 0 0\nlock 0\ntrylock 0\nunlock 0\nload 0\nstore 0\ncwait 1\nsignal 1\nbroadcast 1\newait 2\neset 2\nereset 2\netest 2\nfwait 3\nfset 3\nfreset 3\nftest 3\nbwait 4\nrdlock 5\nwrlock 5\nrwunlock 5\nrwload 5\nrwstore 5\nend\n";

// Operations that are declared many at once.
const MANY: &str =
    "abt 2\nstreams 1\npool 0 fifo mpmc\nsched 0 prio 0\nstream 0 main 0\nobject 0 rwlock\nunits 3\nmany 0 2 ult at 0\nrepeat 2 say a\nrepeat 2 rdlock 0\nmany 2 1 task later\nend\n";

// The same workload, each unit and each operation on a line of its own.
const EACH: &str =
    "abt 1\nstreams 1\npool 0 fifo mpmc\nsched 0 prio 0\nstream 0 main 0\nobject 0 rwlock\nunits 3\nunit 0 ult at 0\nsay a\nsay a\nrdlock 0\nrdlock 0\nunit 1 ult at 0\nsay a\nsay a\nrdlock 0\nrdlock 0\nunit 2 task later\nend\n";

// A text with each operation that format 3 alone has.
const CALLS: &str =
    "abt 3\nstreams 1\nkeys 1\npool 0 fifo mpmc\nsched 0 prio 0\nstream 0 main 0\nunits 1\nunit 0 ult at 0\ncalc add 0\ncalc sub 0\ncalc mul 0\ncalc div 0\ncalc rem 0\ncalc min 0\ncalc max 0\ncalc and 0\ncalc or 0\ncalc xor 0\ncalc eq 0\ncalc lt 0\ncalc gcd 0\ncall 0\ncall 7\nend\n";

// Calls that are declared many at once.
const CALLS_MANY: &str =
    "abt 3\nstreams 1\npool 0 fifo mpmc\nsched 0 prio 0\nstream 0 main 0\nunits 2\nmany 0 2 task at 0\nrepeat 2 call 1\nend\n";

// The same workload, each unit and each operation on a line of its own.
const CALLS_EACH: &str =
    "abt 3\nstreams 1\npool 0 fifo mpmc\nsched 0 prio 0\nstream 0 main 0\nunits 2\nunit 0 task at 0\ncall 1\ncall 1\nunit 1 task at 0\ncall 1\ncall 1\nend\n";

// A text with lines in unusual order and spelling, and without its last line feed.
const UNUSUAL: &str =
    "#\n \tabt\t1 \n\nstreams 02\nkeys 2\npool 0 fifo priv of 0\npool 1 deque mpmc\nsched 0 prio 0 1\nsched 1 randws 18446744073709551615 1\nsched 2 user 1 1\nstream 1 main 1\nstream 0 main 0\nobject 0 mutex\nobject 1 cond 0\nobject 2 eventual\nobject 3 future 2 max\nobject 4 barrier 4096\nunits 3\nunit 0 ult at 0\nset 18446744073709551615\nsay aaaaaaaaaaaaaaaaaaaaaaaaaaaaaaaaaaaaaaaaaaaaaaaaaaaaaaaaaaaaaaaa\ncreate 2 1\nkset 1\nmigratable 1 1\nlock 0\ncwait 1\newait 2\nfset 3\nbwait 4\nyieldto 2 1\nmigrateto 1 0\nunit 1 task later\nsay #x\ntrylock 0\nunit 2 sched 2 at 1\nend";

// The same workload in usual order and spelling.
const USUAL: &str =
    "abt 1\nstreams 2\nkeys 2\npool 0 fifo priv of 0\npool 1 deque mpmc\nsched 0 prio 0 1\nsched 1 randws 18446744073709551615 1\nsched 2 user 1 1\nstream 0 main 0\nstream 1 main 1\nobject 0 mutex\nobject 1 cond 0\nobject 2 eventual\nobject 3 future 2 max\nobject 4 barrier 4096\nunits 3\nunit 0 ult at 0\nset 18446744073709551615\nsay aaaaaaaaaaaaaaaaaaaaaaaaaaaaaaaaaaaaaaaaaaaaaaaaaaaaaaaaaaaaaaaa\ncreate 2 1\nkset 1\nmigratable 1 1\nlock 0\ncwait 1\newait 2\nfset 3\nbwait 4\nyieldto 2 1\nmigrateto 1 0\nunit 1 task later\nsay #x\ntrylock 0\nunit 2 sched 2 at 1\nend\n";

// Units of each kind that are declared many at once.
const COPIES: &str =
    "abt 2\nstreams 1\npool 0 fifo mpmc\nsched 0 prio 0\nsched 1 prio 0\nstream 0 main 0\nunits 7\nunit 0 ult at 0\nsay a\nmany 1 3 task later\nrepeat 2 say b\nprint\nsay c\nmany 4 1 sched 1 at 0\nmany 5 2 ult later\nend\n";

// The same workload, each unit and each operation on a line of its own.
const COPIES_EACH: &str =
    "abt 1\nstreams 1\npool 0 fifo mpmc\nsched 0 prio 0\nsched 1 prio 0\nstream 0 main 0\nunits 7\nunit 0 ult at 0\nsay a\nunit 1 task later\nsay b\nsay b\nprint\nsay c\nunit 2 task later\nsay b\nsay b\nprint\nsay c\nunit 3 task later\nsay b\nsay b\nprint\nsay c\nunit 4 sched 1 at 0\nunit 5 ult later\nunit 6 ult later\nend\n";

// Texts, each with the text in which its workload is written.
static TEXTS: [(&str, &str); 10] = [
    (UNUSUAL, USUAL),
    (COPIES, COPIES_EACH),
    (MANY, EACH),
    (EACH, EACH),
    (CALLS, CALLS),
    (CALLS_MANY, CALLS_EACH),
    (STACKED_OTHERWISE, STACKED),
    (STACKED, STACKED),
    (PARTS, PARTS),
    (OPERATIONS, OPERATIONS),
];

// One stream, one pool and one scheduler.
static FRAME: &str = "streams 1\npool 0 fifo mpmc\nsched 0 prio 0\nstream 0 main 0\n";

// Formats, numbers of units, and lines that declare them with as many operations as there may be.
static MOST: [(u32, u32, &str); 4] = [
    (2, 4096, "many 0 4096 ult later\nrepeat 15 print\nprint\n"),
    (
        2,
        257,
        "many 0 256 ult later\nrepeat 256 say a\nunit 256 ult later\n",
    ),
    (3, 65536, "many 0 65536 ult later\nrepeat 15 print\nprint\n"),
    (
        3,
        257,
        "many 0 256 ult later\nrepeat 4096 say a\nunit 256 ult later\n",
    ),
];

/// Whether the workload of a text is written so.
pub(crate) fn is_written(alloc: Global, text: &[u8], written: &[u8]) -> bool {
    match read(alloc, text) {
        Ok(w) => match write(alloc, &w) {
            Ok(bytes) => bytes.as_slice() == written,
            Err(_) => false,
        },
        Err(_) => false,
    }
}

#[test]
fn workloads_are_written_and_read_again(rt: HostRuntime) {
    each_text_has_one_answer();
    for (text, written) in &TEXTS {
        assert!(rt;
            is_written(rt.alloc(), text.as_bytes(), written.as_bytes()),
            "{text}"
        );
    }
}

// How many units the workload of a text has, if it is one's.
fn count_units(alloc: Global, text: &str) -> Option<u32> {
    match read(alloc, text.as_bytes()) {
        Ok(w) => Some(w.units()),
        Err(_) => None,
    }
}

#[test]
fn so_many_operations_are_read(rt: HostRuntime) -> Result<(), Fail> {
    let alloc = rt.alloc();
    for (version, units, lines) in &MOST {
        let text = format!(in alloc; "abt {version}\n{FRAME}units {units}\n{lines}end\n")?;
        assert!(rt; count_units(alloc, &text) == Some(*units), "{units} units");
    }
    Ok(())
}

// Appends operations that say words of 1 to 64 bytes.
fn push_words(alloc: Global, text: &mut String) -> Result<(), AllocError> {
    let mut word = String::new(alloc);
    for _ in 0..64 {
        word.push('w')?;
        let word = word.as_str();
        writeln!(text, "say {word}")?;
    }
    Ok(())
}

// Appends operations that set and add numbers of each length.
fn push_numbers(text: &mut String) -> Result<(), AllocError> {
    let mut number: u64 = 0;
    for _ in 0..20 {
        writeln!(text, "set {number}\nadd {number}")?;
        number = number.saturating_mul(10).saturating_add(9);
    }
    Ok(())
}

// The text of a unit with words and numbers of each length.
fn lengths(alloc: Global) -> Result<String, AllocError> {
    let mut text = format!(in alloc; "abt 1\n{FRAME}units 1\nunit 0 ult at 0\n")?;
    push_words(alloc, &mut text)?;
    push_numbers(&mut text)?;
    text.push_str("end\n")?;
    Ok(text)
}

#[test]
fn words_and_numbers_are_read_again(rt: HostRuntime) -> Result<(), Fail> {
    let text = lengths(rt.alloc())?;
    assert!(rt; is_written(rt.alloc(), text.as_bytes(), text.as_bytes()));
    Ok(())
}
