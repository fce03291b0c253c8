//! Worked rows of what is refused: words, files, texts and an output.

use crate::rows::{Failing, NONE, ONE_POOL, RUN, Row};

/// The words of a call that is refused, the head and the lines of its file, its status and its message.
pub(crate) type Refusal = (&'static str, &'static str, &'static [u8], u8, &'static str);

// What is said of words whose first is the name of no command.
const BAD_WORDS: &str =
    "abtrun: bad command line\nusage: abtrun run FILE [--steps V] [--journal] [--why] [--in-turn | --seed N]\nabtrun run FILE --schedule JOURNAL [--why]\nabtrun self N\nabtrun check WORKLOAD JOURNAL [--end]\nabtrun check WORKLOAD OUTPUT --report [--why]\nabtrun flow FILE\nabtrun explore FILE [--states M] [--end K [--journal]]\nabtrun --help\nabtrun --version\n";

// And of those whose first is `run`, or `self`.
const BAD_RUN: &str =
    "abtrun: bad command line\nusage: abtrun run FILE [--steps V] [--journal] [--why] [--in-turn | --seed N]\nabtrun run FILE --schedule JOURNAL [--why]\n";

const BAD_SELF: &str = "abtrun: bad command line\nusage: abtrun self N\n";

/// Words, files and texts that are refused.
pub(crate) static REFUSALS: [Refusal; 25] = [
    // task yields
    (
        "run f",
        ONE_POOL,
        b"units 1\nunit 0 task at 0\nyield\nend\n",
        3,
        "abtrun: line 8: task-blocks\n",
    ),
    // task exits
    (
        "run f",
        ONE_POOL,
        b"units 1\nunit 0 task at 0\nexit\nend\n",
        3,
        "abtrun: line 8: task-blocks\n",
    ),
    // too great
    (
        "run f",
        ONE_POOL,
        b"units 1\nunit 0 ult at 0\nset 18446744073709551616\nadd 1\nprint\nend\n",
        3,
        "abtrun: line 8: number\n",
    ),
    // no end
    (
        "run f",
        ONE_POOL,
        b"units 1\nunit 0 ult at 0\nsay hi\n",
        3,
        "abtrun: line 9: no-end\n",
    ),
    // carriage return
    (
        "run f",
        "",
        b"abt 1\nstreams 1\r\npool 0 fifo mpmc\nsched 0 prio 0\nstream 0 main 0\nunits 1\nunit 0 ult at 0\nsay hi\nend\n",
        3,
        "abtrun: line 2: shape\nthe line ends with a carriage return\n",
    ),
    // not utf8
    (
        "run f",
        ONE_POOL,
        b"units 1\nunit 0 ult at 0\nsay \xff\nend\n",
        3,
        "abtrun: line 8: utf8\n",
    ),
    // bad words
    ("walk", "", b"", 2, BAD_WORDS),
    // bad words
    ("run", "", b"", 2, BAD_RUN),
    // bad words
    ("run f --steps 0", "", b"", 2, BAD_RUN),
    // bad words
    ("run f --steps 100001", "", b"", 2, BAD_RUN),
    // more steps than formats 1 and 2 allow, also of a text that would be refused
    ("run f --steps 100001", "abt 2\n", b"walk\n", 2, BAD_RUN),
    // as many as format 3 allows
    (
        "run f --steps 16777216",
        "abt 3\n",
        b"walk\n",
        3,
        "abtrun: line 2: unknown\n",
    ),
    // more than it allows
    ("run f --steps 16777217", "abt 3\n", b"", 2, BAD_RUN),
    // more steps than formats 1 and 2 allow, and no such file
    (
        "run none --steps 100001",
        "",
        b"",
        5,
        "abtrun: cannot read\nnone: absent\n",
    ),
    // and more than any format allows
    ("run none --steps 16777217", "", b"", 2, BAD_RUN),
    // bad words
    ("run f g", "", b"", 2, BAD_RUN),
    // bad words
    ("self 127", "", b"", 2, BAD_SELF),
    // bad words
    ("self", "", b"", 2, BAD_SELF),
    // no such file
    (
        "run none",
        "",
        b"",
        5,
        "abtrun: cannot read\nnone: absent\n",
    ),
    // nine streams
    (
        "run f",
        "",
        b"abt 1\nstreams 9\nend\n",
        3,
        "abtrun: line 2: limit\n",
    ),
    // ten pools
    (
        "run f",
        "",
        b"abt 1\nstreams 1\npool 0 deque mpmc\npool 1 deque mpmc\npool 2 deque mpmc\npool 3 deque mpmc\npool 4 deque mpmc\npool 5 deque mpmc\npool 6 deque mpmc\npool 7 deque mpmc\npool 8 deque mpmc\npool 9 deque mpmc\nsched 0 prio 0 1 2 3 4 5 6 7 8 9\nstream 0 main 0\nunits 0\nend\n",
        3,
        "abtrun: line 13: limit\n",
    ),
    // a great numeral of 31 digits
    (
        "run f",
        ONE_POOL,
        b"units 1\nunit 0 ult at 0\nset 1000000000000000000000000000000\nend\n",
        3,
        "abtrun: line 8: number\n",
    ),
    // a word of 65 bytes
    (
        "run f",
        ONE_POOL,
        b"units 1\nunit 0 ult at 0\nsay wwwwwwwwwwwwwwwwwwwwwwwwwwwwwwwwwwwwwwwwwwwwwwwwwwwwwwwwwwwwwwwww\nend\n",
        3,
        "abtrun: line 8: limit\n",
    ),
    // bad words of 31 digits
    (
        "run f --steps 1000000000000000000000000000000",
        "",
        b"",
        2,
        BAD_RUN,
    ),
    // bad words of 31 digits
    ("self 1000000000000000000000000000000", "", b"", 2, BAD_SELF),
];

/// The row of a call that is refused: it puts nothing out, and answers no journal.
pub(crate) fn refused_row(refusal: &Refusal) -> Row<'static> {
    let (words, head, lines, status, err) = *refusal;
    Row {
        words,
        head,
        lines,
        status,
        err,
        journal: Some(""),
        ..RUN
    }
}

/// A call whose second write of the output fails.
pub(crate) static SHORT_WRITE: Row<'static> = Row {
    lines: b"units 1\nunit 0 ult at 0\nsay hi\nend\n",
    failing: Failing { out: 1, ..NONE },
    status: 6,
    out: "unit 0 don",
    err: "abtrun: cannot write\n",
    journal: Some("1 0 take 0 0\n2 0 look 0\n3 0 step 0 0 ok\n4 0 end 0 done\n5 0 miss 0\n"),
    ..RUN
};
