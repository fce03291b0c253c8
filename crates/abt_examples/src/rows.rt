//! Worked rows: a call over the files `f` and `j`, and what it leaves.

// More calls of a file or a sink than any call of the program makes.
const NEVER: u64 = 1_000_000;

/// Which call of the files, which write to the output and which write of the message fails, counted from 0.
#[derive(Clone, Copy)]
pub(crate) struct Failing {
    pub(crate) files: u64,
    pub(crate) out: u64,
    pub(crate) err: u64,
}

/// None fails.
pub(crate) const NONE: Failing = Failing {
    files: NEVER,
    out: NEVER,
    err: NEVER,
};

/// The words of a call, with a blank between each two, the text of the file `f` in two parts, that of the file `j`, if it is not
/// empty, and what the call leaves.
#[derive(Clone, Copy)]
pub(crate) struct Row<'a> {
    pub(crate) words: &'a str,
    pub(crate) head: &'a str,
    pub(crate) lines: &'a [u8],
    pub(crate) other: Option<&'a str>,
    /// The most bytes of the output that a write takes; 0 stands for 1.
    pub(crate) most: usize,
    pub(crate) failing: Failing,
    pub(crate) status: u8,
    pub(crate) out: &'a str,
    pub(crate) err: &'a str,
    /// Whether the message is stated.
    pub(crate) has_err: bool,
    /// The text of the answered journal, which is empty if none is answered, if the row states it.
    pub(crate) journal: Option<&'a str>,
}

impl Row<'_> {
    /// Whether the row says that this is left.
    pub(crate) fn says(&self, status: u8, out: &[u8], err: &[u8], journal: &[u8]) -> bool {
        self.status == status
            && out == self.out.as_bytes()
            && (err == self.err.as_bytes() || !self.has_err)
            && match self.journal {
                Some(text) => journal == text.as_bytes(),
                None => true,
            }
    }
}

// The heads of texts.
pub(crate) const ONE_POOL: &str =
    "abt 1\nstreams 1\npool 0 fifo mpmc\nsched 0 prio 0\nstream 0 main 0\n";

const TWO_POOLS: &str =
    "abt 1\nstreams 1\npool 0 fifo mpmc\npool 1 fifo mpmc\nsched 0 prio 0 1\nstream 0 main 0\n";

const STACKED: &str =
    "abt 1\nstreams 1\npool 0 fifo mpmc\npool 1 fifo mpmc\nsched 0 prio 0\nsched 1 prio 1\nstream 0 main 0\n";

const TWO_STREAMS: &str =
    "abt 1\nstreams 2\npool 0 fifo priv of 0\npool 1 fifo priv of 1\npool 2 fifo spsc from 0 to 1\nsched 0 prio 0\nsched 1 prio 1 2\nstream 0 main 0\nstream 1 main 1\n";

/// A run that finishes, over one pool. A row gives the lines, the report and what else it has of its own.
pub(crate) const RUN: Row<'static> = Row {
    words: "run f",
    head: ONE_POOL,
    lines: b"",
    other: None,
    most: 10,
    failing: NONE,
    status: 0,
    out: "",
    err: "",
    has_err: true,
    journal: None,
};

/// Units that run, yield, join and end.
pub(crate) static UNITS: [Row<'static>; 13] = [
    // empty
    Row {
        lines: b"units 0\nend\n",
        out: "tally units 0 unborn 0 pool 0 stream 0 blocked 0 done 0 asked 0 access 0 steps 0\nfinished\n",
        journal: Some("1 0 miss 0\n"),
        ..RUN
    },
    // hi
    Row {
        words: "run f --journal",
        lines: b"units 1\nunit 0 ult at 0\nsay hi\nend\n",
        out: "1 0 take 0 0\n2 0 look 0\n3 0 step 0 0 ok\n4 0 end 0 done\n5 0 miss 0\nunit 0 done: hi\ntally units 1 unborn 0 pool 0 stream 0 blocked 0 done 1 asked 0 access 0 steps 1\nfinished\n",
        journal: Some("1 0 take 0 0\n2 0 look 0\n3 0 step 0 0 ok\n4 0 end 0 done\n5 0 miss 0\n"),
        ..RUN
    },
    // two yields
    Row {
        lines: b"units 2\nunit 0 ult at 0\nsay a\nyield\nsay b\nunit 1 ult at 0\nsay a\nyield\nsay b\nend\n",
        out: "unit 0 done: a b\nunit 1 done: a b\ntally units 2 unborn 0 pool 0 stream 0 blocked 0 done 2 asked 0 access 0 steps 6\nfinished\n",
        journal: Some(
            "1 0 take 0 0\n2 0 look 0\n3 0 step 0 0 ok\n4 0 step 0 1 ok\n5 0 put 0 0\n6 0 take 0 1\n7 0 look 1\n8 0 step 1 0 ok\n9 0 step 1 1 ok\n10 0 put 1 0\n11 0 take 0 0\n12 0 look 0\n13 0 step 0 2 ok\n14 0 end 0 done\n15 0 take 0 1\n16 0 look 1\n17 0 step 1 2 ok\n18 0 end 1 done\n19 0 miss 0\n",
        ),
        ..RUN
    },
    // wrap
    Row {
        lines: b"units 1\nunit 0 ult at 0\nset 18446744073709551615\nadd 1\nprint\nend\n",
        out: "unit 0 done: 0\ntally units 1 unborn 0 pool 0 stream 0 blocked 0 done 1 asked 0 access 0 steps 3\nfinished\n",
        ..RUN
    },
    // yieldto absent
    Row {
        lines: b"units 2\nunit 0 ult at 0\nyieldto 1 0\nsay on\nunit 1 ult later\nend\n",
        out: "unit 0 done: !absent on\nunit 1 unborn:\ntally units 2 unborn 1 pool 0 stream 0 blocked 0 done 1 asked 0 access 0 steps 2\nfinished\n",
        ..RUN
    },
    // yieldto
    Row {
        lines: b"units 3\nunit 0 ult at 0\nyieldto 2 0\nsay zero\nunit 1 ult at 0\nsay one\nunit 2 ult at 0\nsay two\nend\n",
        out: "unit 0 done: zero\nunit 1 done: one\nunit 2 done: two\ntally units 3 unborn 0 pool 0 stream 0 blocked 0 done 3 asked 0 access 0 steps 4\nfinished\n",
        journal: Some(
            "1 0 take 0 0\n2 0 look 0\n3 0 step 0 0 ok\n4 0 put 0 0\n5 0 look 2\n6 0 step 2 0 ok\n7 0 end 2 done\n8 0 take 0 1\n9 0 look 1\n10 0 step 1 0 ok\n11 0 end 1 done\n12 0 take 0 0\n13 0 look 0\n14 0 step 0 1 ok\n15 0 end 0 done\n16 0 miss 0\n",
        ),
        ..RUN
    },
    // deque
    Row {
        head: "",
        lines: b"abt 1\nstreams 1\npool 0 deque mpmc\nsched 0 prio 0\nstream 0 main 0\nunits 2\nunit 0 ult at 0\nunit 1 ult at 0\nend\n",
        out: "unit 0 done:\nunit 1 done:\ntally units 2 unborn 0 pool 0 stream 0 blocked 0 done 2 asked 0 access 0 steps 0\nfinished\n",
        journal: Some(
            "1 0 take 0 1\n2 0 look 1\n3 0 end 1 done\n4 0 take 0 0\n5 0 look 0\n6 0 end 0 done\n7 0 miss 0\n",
        ),
        ..RUN
    },
    // join
    Row {
        lines: b"units 2\nunit 0 ult at 0\njoin 1\nsay after\nunit 1 ult at 0\nsay first\nend\n",
        out: "unit 0 done: after\nunit 1 done: first\ntally units 2 unborn 0 pool 0 stream 0 blocked 0 done 2 asked 0 access 0 steps 3\nfinished\n",
        ..RUN
    },
    // a comment of 41 words
    Row {
        lines: b"# a a a a a a a a a a a a a a a a a a a a a a a a a a a a a a a a a a a a a a a a a\nunits 1\nunit 0 ult at 0\nsay hi\nend\n",
        out: "unit 0 done: hi\ntally units 1 unborn 0 pool 0 stream 0 blocked 0 done 1 asked 0 access 0 steps 1\nfinished\n",
        ..RUN
    },
    // a numeral of 31 digits
    Row {
        lines: b"units 1\nunit 0 ult at 0\nset 0000000000000000000000000000007\nprint\nend\n",
        out: "unit 0 done: 7\ntally units 1 unborn 0 pool 0 stream 0 blocked 0 done 1 asked 0 access 0 steps 2\nfinished\n",
        ..RUN
    },
    // joins unit 0
    Row {
        lines: b"units 2\nunit 0 ult at 0\nsuspend\nunit 1 ult at 0\njoin 0\nend\n",
        status: 1,
        out: "unit 0 suspended:\nunit 1 join 0:\ntally units 2 unborn 0 pool 0 stream 0 blocked 2 done 0 asked 0 access 0 steps 2\nstuck\n",
        ..RUN
    },
    // exit
    Row {
        lines: b"units 1\nunit 0 ult at 0\nsay a\nexit\nsay b\nend\n",
        out: "unit 0 exited: a\ntally units 1 unborn 0 pool 0 stream 0 blocked 0 done 1 asked 0 access 0 steps 2\nfinished\n",
        journal: Some(
            "1 0 take 0 0\n2 0 look 0\n3 0 step 0 0 ok\n4 0 step 0 1 ok\n5 0 end 0 own\n6 0 miss 0\n",
        ),
        ..RUN
    },
    // exit, join, revive
    Row {
        lines: b"units 2\nunit 0 ult at 0\nexit\nsay never\nunit 1 ult at 0\njoin 0\nrevive 0 0\nend\n",
        out: "unit 0 exited:\nunit 1 done:\ntally units 2 unborn 0 pool 0 stream 0 blocked 0 done 2 asked 0 access 0 steps 4\nfinished\n",
        ..RUN
    },
];

/// Orders of pools, and schedulers that are units.
pub(crate) static SCHEDULERS: [Row<'static>; 10] = [
    // prio
    Row {
        head: "",
        lines: b"abt 1\nstreams 1\npool 0 fifo mpmc\npool 1 fifo priv of 0\nsched 0 prio 0 1\nstream 0 main 0\nunits 2\nunit 0 ult at 0\nunit 1 ult at 1\nend\n",
        out: "unit 0 done:\nunit 1 done:\ntally units 2 unborn 0 pool 0 stream 0 blocked 0 done 2 asked 0 access 0 steps 0\nfinished\n",
        journal: Some(
            "1 0 take 0 0\n2 0 look 0\n3 0 end 0 done\n4 0 miss 0\n5 0 take 1 1\n6 0 look 1\n7 0 end 1 done\n8 0 miss 0\n9 0 miss 1\n",
        ),
        ..RUN
    },
    // basic
    Row {
        head: "",
        lines: b"abt 1\nstreams 1\npool 0 fifo mpmc\npool 1 fifo priv of 0\nsched 0 basic 0 1\nstream 0 main 0\nunits 2\nunit 0 ult at 0\nunit 1 ult at 1\nend\n",
        out: "unit 0 done:\nunit 1 done:\ntally units 2 unborn 0 pool 0 stream 0 blocked 0 done 2 asked 0 access 0 steps 0\nfinished\n",
        journal: Some(
            "1 0 take 1 1\n2 0 look 1\n3 0 end 1 done\n4 0 miss 1\n5 0 take 0 0\n6 0 look 0\n7 0 end 0 done\n8 0 miss 1\n9 0 miss 0\n",
        ),
        ..RUN
    },
    // random stealing over two pools
    Row {
        head: "",
        lines: b"abt 1\nstreams 1\npool 0 fifo mpmc\npool 1 fifo priv of 0\nsched 0 randws 9 0 1\nstream 0 main 0\nunits 2\nunit 0 ult at 0\nunit 1 ult at 1\nend\n",
        out: "unit 0 done:\nunit 1 done:\ntally units 2 unborn 0 pool 0 stream 0 blocked 0 done 2 asked 0 access 0 steps 0\nfinished\n",
        journal: Some(
            "1 0 take 0 0\n2 0 look 0\n3 0 end 0 done\n4 0 miss 0\n5 0 take 1 1\n6 0 look 1\n7 0 end 1 done\n8 0 miss 0\n9 0 miss 1\n",
        ),
        ..RUN
    },
    // stacked
    Row {
        head: STACKED,
        lines: b"units 4\nunit 0 sched 1 at 0\nunit 1 ult at 1\nsay in\nunit 2 ult at 0\njoin 0\ncreate 3 1\nrevive 0 0\nunit 3 ult later\nsay again\nend\n",
        out: "unit 0 done:\nunit 1 done: in\nunit 2 done:\nunit 3 done: again\ntally units 4 unborn 0 pool 0 stream 0 blocked 0 done 4 asked 0 access 0 steps 5\nfinished\n",
        journal: Some(
            "1 0 take 0 0\n2 0 look 0\n3 0 enter 0\n4 0 take 1 1\n5 0 look 1\n6 0 step 1 0 ok\n7 0 end 1 done\n8 0 miss 1\n9 0 leave 0\n10 0 end 0 done\n11 0 take 0 2\n12 0 look 2\n13 0 step 2 0 ok\n14 0 step 2 1 ok\n15 0 put 3 1\n16 0 step 2 2 ok\n17 0 put 0 0\n18 0 end 2 done\n19 0 take 0 0\n20 0 look 0\n21 0 enter 0\n22 0 take 1 3\n23 0 look 3\n24 0 step 3 0 ok\n25 0 end 3 done\n26 0 miss 1\n27 0 leave 0\n28 0 end 0 done\n29 0 miss 0\n",
        ),
        ..RUN
    },
    // woken too late
    Row {
        head: STACKED,
        lines: b"units 3\nunit 0 sched 1 at 0\nunit 1 ult at 1\nsuspend\nsay late\nunit 2 ult at 0\nresume 1\nend\n",
        status: 1,
        out: "unit 0 done:\nunit 1 pool 1:\nunit 2 done:\ntally units 3 unborn 0 pool 1 stream 0 blocked 0 done 2 asked 0 access 0 steps 2\nstuck\n",
        ..RUN
    },
    // user order
    Row {
        head: "",
        lines: b"abt 1\nstreams 1\npool 0 fifo mpmc\npool 1 fifo mpmc\nsched 0 user 0 0 1\nstream 0 main 0\nunits 2\nunit 0 ult at 0\nunit 1 ult at 0\nend\n",
        out: "unit 0 done:\nunit 1 done:\ntally units 2 unborn 0 pool 0 stream 0 blocked 0 done 2 asked 0 access 0 steps 0\nfinished\n",
        journal: Some(
            "1 0 take 0 0\n2 0 look 0\n3 0 end 0 done\n4 0 miss 1\n5 0 take 0 1\n6 0 look 1\n7 0 end 1 done\n8 0 miss 0\n9 0 miss 1\n",
        ),
        ..RUN
    },
    // mirror order
    Row {
        head: "",
        lines: b"abt 1\nstreams 1\npool 0 fifo mpmc\npool 1 fifo mpmc\nsched 0 user 1 0 1\nstream 0 main 0\nunits 2\nunit 0 ult at 0\nunit 1 ult at 0\nend\n",
        out: "unit 0 done:\nunit 1 done:\ntally units 2 unborn 0 pool 0 stream 0 blocked 0 done 2 asked 0 access 0 steps 0\nfinished\n",
        journal: Some(
            "1 0 miss 1\n2 0 take 0 0\n3 0 look 0\n4 0 end 0 done\n5 0 miss 1\n6 0 take 0 1\n7 0 look 1\n8 0 end 1 done\n9 0 miss 1\n10 0 miss 0\n",
        ),
        ..RUN
    },
    // five pools
    Row {
        head: "",
        lines: b"abt 1\nstreams 1\npool 0 fifo mpmc\npool 1 fifo mpmc\npool 2 fifo mpmc\npool 3 fifo mpmc\npool 4 fifo mpmc\nsched 0 prio 0 1 2 3 4\nstream 0 main 0\nunits 1\nunit 0 ult at 4\nsay hi\nend\n",
        out: "unit 0 done: hi\ntally units 1 unborn 0 pool 0 stream 0 blocked 0 done 1 asked 0 access 0 steps 1\nfinished\n",
        journal: Some(
            "1 0 miss 0\n2 0 miss 1\n3 0 miss 2\n4 0 miss 3\n5 0 take 4 0\n6 0 look 0\n7 0 step 0 0 ok\n8 0 end 0 done\n9 0 miss 0\n10 0 miss 1\n11 0 miss 2\n12 0 miss 3\n13 0 miss 4\n",
        ),
        ..RUN
    },
    // a deque of number 9
    Row {
        head: "",
        lines: b"abt 1\nstreams 1\npool 0 deque mpmc\npool 1 deque mpmc\npool 2 deque mpmc\npool 3 deque mpmc\npool 4 deque mpmc\npool 5 deque mpmc\npool 6 deque mpmc\npool 7 deque mpmc\npool 8 deque mpmc\npool 9 deque mpmc\nsched 0 prio 9\nstream 0 main 0\nunits 2\nunit 0 ult at 9\nsay last\nunit 1 ult at 9\nsay first\nend\n",
        out: "unit 0 done: last\nunit 1 done: first\ntally units 2 unborn 0 pool 0 stream 0 blocked 0 done 2 asked 0 access 0 steps 2\nfinished\n",
        journal: Some(
            "1 0 take 9 1\n2 0 look 1\n3 0 step 1 0 ok\n4 0 end 1 done\n5 0 take 9 0\n6 0 look 0\n7 0 step 0 0 ok\n8 0 end 0 done\n9 0 miss 9\n",
        ),
        ..RUN
    },
    // a pool that no scheduler lists
    Row {
        head: "",
        lines: b"abt 1\nstreams 1\npool 0 fifo mpmc\npool 1 fifo mpmc\nsched 0 prio 0\nstream 0 main 0\nunits 1\nunit 0 ult at 1\nend\n",
        status: 1,
        out: "unit 0 pool 1:\ntally units 1 unborn 0 pool 1 stream 0 blocked 0 done 0 asked 0 access 0 steps 0\nstuck\n",
        journal: Some("1 0 miss 0\n"),
        ..RUN
    },
];

// A run of two units that revive one another, of 50 steps.
const REVIVING: Row<'static> = Row {
    words: "run f --steps 50",
    lines: b"units 2\nunit 0 ult at 0\nrevive 1 0\nunit 1 ult at 0\nrevive 0 0\nend\n",
    status: 4,
    out: "unit 0 stream 0: !unit-state\nunit 1 done:\ntally units 2 unborn 0 pool 0 stream 1 blocked 0 done 1 asked 0 access 0 steps 50\nbudget 0\n",
    ..RUN
};

/// Requests, resumption and revival.
pub(crate) static REQUESTS: [Row<'static>; 11] = [
    // cancel suspended
    Row {
        lines: b"units 2\nunit 0 ult at 0\nsuspend\nsay never\nunit 1 ult at 0\ncancel 0\nresume 0\nend\n",
        out: "unit 0 asked:\nunit 1 done:\ntally units 2 unborn 0 pool 0 stream 0 blocked 0 done 1 asked 1 access 0 steps 3\nfinished\n",
        ..RUN
    },
    // cancel before migrate
    Row {
        head: TWO_POOLS,
        lines: b"units 2\nunit 0 ult at 0\ncancel 1\nmigrate 1 1\nunit 1 ult at 0\nsay never\nend\n",
        out: "unit 0 done:\nunit 1 asked:\ntally units 2 unborn 0 pool 0 stream 0 blocked 0 done 1 asked 1 access 0 steps 2\nfinished\n",
        ..RUN
    },
    // migrate
    Row {
        head: TWO_POOLS,
        lines: b"units 2\nunit 0 ult at 0\nmigrate 1 1\nunit 1 ult at 0\nsay moved\nend\n",
        out: "unit 0 done:\nunit 1 done: moved\ntally units 2 unborn 0 pool 0 stream 0 blocked 0 done 2 asked 0 access 0 steps 2\nfinished\n",
        journal: Some(
            "1 0 take 0 0\n2 0 look 0\n3 0 step 0 0 ok\n4 0 end 0 done\n5 0 take 0 1\n6 0 look 1\n7 0 put 1 1\n8 0 miss 0\n9 0 take 1 1\n10 0 look 1\n11 0 step 1 0 ok\n12 0 end 1 done\n13 0 miss 0\n14 0 miss 1\n",
        ),
        ..RUN
    },
    // migrateto
    Row {
        head: TWO_POOLS,
        lines: b"units 2\nunit 0 ult at 0\nmigrateto 1 0\nunit 1 ult at 0\nsay moved\nend\n",
        out: "unit 0 done:\nunit 1 done: moved\ntally units 2 unborn 0 pool 0 stream 0 blocked 0 done 2 asked 0 access 0 steps 2\nfinished\n",
        journal: Some(
            "1 0 take 0 0\n2 0 look 0\n3 0 step 0 0 ok\n4 0 end 0 done\n5 0 take 0 1\n6 0 look 1\n7 0 put 1 0\n8 0 take 0 1\n9 0 look 1\n10 0 step 1 0 ok\n11 0 end 1 done\n12 0 miss 0\n13 0 miss 1\n",
        ),
        ..RUN
    },
    // resume too early
    Row {
        lines: b"units 2\nunit 0 ult at 0\nresume 1\nunit 1 ult at 0\nsuspend\nend\n",
        status: 1,
        out: "unit 0 done: !unit-state\nunit 1 suspended:\ntally units 2 unborn 0 pool 0 stream 0 blocked 1 done 1 asked 0 access 0 steps 2\nstuck\n",
        ..RUN
    },
    // budget
    REVIVING,
    // budget of one step
    Row {
        words: "run f --steps 1",
        out: "unit 0 done: !unit-state\nunit 1 stream 0:\ntally units 2 unborn 0 pool 0 stream 1 blocked 0 done 1 asked 0 access 0 steps 1\nbudget 0\n",
        journal: Some(
            "1 0 take 0 0\n2 0 look 0\n3 0 step 0 0 unit-state\n4 0 end 0 done\n5 0 take 0 1\n6 0 look 1\n",
        ),
        ..REVIVING
    },
    // exists
    Row {
        lines: b"units 2\nunit 0 ult at 0\ncreate 1 0\nmigratable 1 0\nmigrate 1 0\nunit 1 ult at 0\nend\n",
        out: "unit 0 done: !exists !not-migratable\nunit 1 done:\ntally units 2 unborn 0 pool 0 stream 0 blocked 0 done 2 asked 0 access 0 steps 3\nfinished\n",
        ..RUN
    },
    // budget of 31 digits
    Row {
        words: "run f --steps 0000000000000000000000000000050",
        ..REVIVING
    },
    // exits while it is asked
    Row {
        lines: b"units 1\nunit 0 ult at 0\ncancel 0\nexit\nsay never\nend\n",
        out: "unit 0 exited:\ntally units 1 unborn 0 pool 0 stream 0 blocked 0 done 1 asked 0 access 0 steps 2\nfinished\n",
        journal: Some(
            "1 0 take 0 0\n2 0 look 0\n3 0 step 0 0 ok\n4 0 step 0 1 ok\n5 0 end 0 own\n6 0 miss 0\n",
        ),
        ..RUN
    },
    // asked before it exits
    Row {
        lines: b"units 2\nunit 0 ult at 0\ncancel 1\nunit 1 ult at 0\nexit\nend\n",
        out: "unit 0 done:\nunit 1 asked:\ntally units 2 unborn 0 pool 0 stream 0 blocked 0 done 1 asked 1 access 0 steps 1\nfinished\n",
        journal: Some(
            "1 0 take 0 0\n2 0 look 0\n3 0 step 0 0 ok\n4 0 end 0 done\n5 0 take 0 1\n6 0 look 1\n7 0 end 1 asked\n8 0 miss 0\n",
        ),
        ..RUN
    },
];

/// Objects and keys.
pub(crate) static OBJECTS: [Row<'static>; 8] = [
    // self lock
    Row {
        lines: b"object 0 mutex\nunits 1\nunit 0 ult at 0\nlock 0\nlock 0\nend\n",
        status: 1,
        out: "unit 0 object 0:\ntally units 1 unborn 0 pool 0 stream 0 blocked 1 done 0 asked 0 access 0 steps 2\nstuck\n",
        ..RUN
    },
    // eventual
    Row {
        lines: b"object 0 eventual\nunits 3\nunit 0 ult at 0\newait 0\nprint\nunit 1 ult at 0\newait 0\nprint\nunit 2 ult at 0\nset 7\neset 0\nset 8\neset 0\nereset 0\netest 0\nprint\nend\n",
        out: "unit 0 done: 7\nunit 1 done: 7\nunit 2 done: !eventual-set 0\ntally units 3 unborn 0 pool 0 stream 0 blocked 0 done 3 asked 0 access 0 steps 11\nfinished\n",
        ..RUN
    },
    // condition
    Row {
        lines: b"object 0 mutex\nobject 1 cond 0\nunits 2\nunit 0 ult at 0\nlock 0\ncwait 1\nload 0\nprint\nunlock 0\nunit 1 ult at 0\nlock 0\nset 5\nstore 0\nsignal 1\nunlock 0\nend\n",
        out: "unit 0 done: 5\nunit 1 done:\ntally units 2 unborn 0 pool 0 stream 0 blocked 0 done 2 asked 0 access 0 steps 10\nfinished\n",
        ..RUN
    },
    // trylock
    Row {
        lines: b"object 0 mutex\nunits 2\nunit 0 ult at 0\nlock 0\nyield\nunlock 0\nunit 1 ult at 0\ntrylock 0\nunlock 0\nend\n",
        out: "unit 0 done:\nunit 1 done: !mutex-locked !not-owner\ntally units 2 unborn 0 pool 0 stream 0 blocked 0 done 2 asked 0 access 0 steps 5\nfinished\n",
        ..RUN
    },
    // a writer, then two readers
    Row {
        lines: b"object 0 rwlock\nunits 3\nunit 0 ult at 0\nwrlock 0\nset 5\nrwstore 0\nyield\nrwunlock 0\nunit 1 ult at 0\nrdlock 0\nrwload 0\nprint\nrwunlock 0\nunit 2 ult at 0\nrdlock 0\nrwload 0\nprint\nrwunlock 0\nend\n",
        out: "unit 0 done:\nunit 1 done: 5\nunit 2 done: 5\ntally units 3 unborn 0 pool 0 stream 0 blocked 0 done 3 asked 0 access 0 steps 13\nfinished\n",
        ..RUN
    },
    // what a reader-writer lock refuses
    Row {
        lines: b"object 0 rwlock\nunits 1\nunit 0 ult at 0\nrdlock 0\nrdlock 0\nwrlock 0\nrwstore 0\nrwunlock 0\nrwunlock 0\nrwunlock 0\nend\n",
        out: "unit 0 done: !rw-held !not-holder !not-holder\ntally units 1 unborn 0 pool 0 stream 0 blocked 0 done 1 asked 0 access 0 steps 7\nfinished\n",
        ..RUN
    },
    // future and barrier
    Row {
        lines: b"object 0 future 2 sum\nobject 1 barrier 2\nunits 2\nunit 0 ult at 0\nset 3\nfset 0\nfwait 0\nprint\nbwait 1\nunit 1 ult at 0\nset 4\nfset 0\nfset 0\nbwait 1\nsay end\nend\n",
        out: "unit 0 done: 7\nunit 1 done: !future-full end\ntally units 2 unborn 0 pool 0 stream 0 blocked 0 done 2 asked 0 access 0 steps 10\nfinished\n",
        ..RUN
    },
    // keys
    Row {
        head: "",
        lines: b"abt 1\nstreams 1\nkeys 1\npool 0 fifo mpmc\nsched 0 prio 0\nstream 0 main 0\nunits 2\nunit 0 ult at 0\nset 9\nkset 0\nset 0\nkget 0\nprint\nunit 1 ult at 0\nkget 0\nprint\nend\n",
        out: "unit 0 done: 9\nunit 1 done: 0\ntally units 2 unborn 0 pool 0 stream 0 blocked 0 done 2 asked 0 access 0 steps 7\nfinished\n",
        ..RUN
    },
];

/// Several streams.
pub(crate) static STREAMS: [Row<'static>; 9] = [
    // foreign create
    Row {
        head: TWO_STREAMS,
        lines: b"units 2\nunit 0 ult at 1\ncreate 1 2\nunit 1 ult later\nsay never\nend\n",
        out: "unit 0 done: !pool-access\nunit 1 unborn:\ntally units 2 unborn 1 pool 0 stream 0 blocked 0 done 1 asked 0 access 0 steps 1\nfinished\n",
        ..RUN
    },
    // home return
    Row {
        head: TWO_STREAMS,
        lines: b"units 1\nunit 0 ult at 2\nyield\nsay back\nend\n",
        out: "unit 0 done: back\ntally units 1 unborn 0 pool 0 stream 0 blocked 0 done 1 asked 0 access 0 steps 2\nfinished\n",
        ..RUN
    },
    // exits on both
    Row {
        head: TWO_STREAMS,
        lines: b"units 2\nunit 0 ult at 0\njoin 1\nsay joined\nexit\nsay never\nunit 1 ult at 1\nsay one\nexit\nsay never\nend\n",
        out: "unit 0 exited: joined\nunit 1 exited: one\ntally units 2 unborn 0 pool 0 stream 0 blocked 0 done 2 asked 0 access 0 steps 5\nfinished\n",
        ..RUN
    },
    // a reader on each
    Row {
        head: TWO_STREAMS,
        lines: b"object 0 rwlock\nobject 1 eventual\nunits 3\nunit 0 ult at 0\nwrlock 0\nset 5\nrwstore 0\nrwunlock 0\neset 1\nunit 1 ult at 0\newait 1\nrdlock 0\nrwload 0\nprint\nrwunlock 0\nunit 2 ult at 1\newait 1\nrdlock 0\nrwload 0\nprint\nrwunlock 0\nend\n",
        out: "unit 0 done:\nunit 1 done: 5\nunit 2 done: 5\ntally units 3 unborn 0 pool 0 stream 0 blocked 0 done 3 asked 0 access 0 steps 15\nfinished\n",
        ..RUN
    },
    // foreign yieldto
    Row {
        head: TWO_STREAMS,
        lines: b"units 2\nunit 0 ult at 0\nyieldto 1 1\nsay on\nunit 1 ult at 1\nsay one\nend\n",
        out: "unit 0 done: !pool-access on\nunit 1 done: one\ntally units 2 unborn 0 pool 0 stream 0 blocked 0 done 2 asked 0 access 0 steps 3\nfinished\n",
        ..RUN
    },
    // access
    Row {
        head: "",
        lines: b"abt 1\nstreams 2\npool 0 fifo priv of 0\npool 1 fifo priv of 1\nsched 0 prio 0\nsched 1 prio 1\nsched 2 prio 1\nstream 0 main 0\nstream 1 main 1\nunits 1\nunit 0 sched 2 at 0\nend\n",
        out: "unit 0 access:\ntally units 1 unborn 0 pool 0 stream 0 blocked 0 done 0 asked 0 access 1 steps 0\nfinished\n",
        ..RUN
    },
    // self 100
    Row {
        words: "self 100",
        head: "",
        out: "unit 0 done: 5050\ntally units 101 unborn 0 pool 0 stream 0 blocked 0 done 101 asked 0 access 0 steps 804\nfinished\n",
        ..RUN
    },
    // self 126
    Row {
        words: "self 126",
        head: "",
        out: "unit 0 done: 8001\ntally units 127 unborn 0 pool 0 stream 0 blocked 0 done 127 asked 0 access 0 steps 1012\nfinished\n",
        ..RUN
    },
    // self of 31 digits
    Row {
        words: "self 0000000000000000000000000000003",
        head: "",
        out: "unit 0 done: 6\ntally units 4 unborn 0 pool 0 stream 0 blocked 0 done 4 asked 0 access 0 steps 28\nfinished\n",
        ..RUN
    },
];

// A flow, over one pool. It answers no journal.
const FLOW: Row<'static> = Row {
    words: "flow f",
    journal: Some(""),
    ..RUN
};

/// Flows, and runs beside them.
pub(crate) static FLOWS: [Row<'static>; 7] = [
    // by an eventual
    Row {
        lines: b"object 0 eventual\nunits 2\nunit 0 ult at 0\newait 0\nprint\nunit 1 ult at 0\nset 4\nadd 1\neset 0\nsay x\nend\n",
        out: "unit 0: 5\nunit 1: x\nfinishes\n",
        ..FLOW
    },
    // its run
    Row {
        lines: b"object 0 eventual\nunits 2\nunit 0 ult at 0\newait 0\nprint\nunit 1 ult at 0\nset 4\nadd 1\neset 0\nsay x\nend\n",
        out: "unit 0 done: 5\nunit 1 done: x\ntally units 2 unborn 0 pool 0 stream 0 blocked 0 done 2 asked 0 access 0 steps 6\nfinished\n",
        ..RUN
    },
    // undefined
    Row {
        lines: b"object 0 eventual\nunits 1\nunit 0 ult at 0\newait 0\neset 0\nend\n",
        status: 1,
        out: "undefined\n",
        ..FLOW
    },
    // its run
    Row {
        lines: b"object 0 eventual\nunits 1\nunit 0 ult at 0\newait 0\neset 0\nend\n",
        status: 1,
        out: "unit 0 object 0:\ntally units 1 unborn 0 pool 0 stream 0 blocked 1 done 0 asked 0 access 0 steps 1\nstuck\n",
        ..RUN
    },
    // not confluent
    Row {
        lines: b"object 0 mutex\nunits 2\nunit 0 ult at 0\nlock 0\nyield\nunlock 0\nunit 1 ult at 0\ntrylock 0\nunlock 0\nend\n",
        status: 1,
        out: "not confluent\nunit 0 operation 0: lock 0\n",
        ..FLOW
    },
    // exits
    Row {
        lines: b"units 1\nunit 0 ult at 0\nsay a\nexit\nend\n",
        status: 1,
        out: "not confluent\nunit 0 operation 1: exit\n",
        ..FLOW
    },
    // refused
    Row {
        lines: b"units 1\nend\n",
        status: 3,
        err: "abtrun: line 7: missing\n",
        ..FLOW
    },
];

// The ends of a workload, over one pool.
const EXPLORE: Row<'static> = Row {
    words: "explore f",
    lines: b"units 1\nunit 0 ult at 0\nprint\nend\n",
    journal: Some(""),
    ..RUN
};

/// Ends. A stream that takes, looks at, steps and ends one unit has been in four states before its end, and is in one more once it has
/// missed.
pub(crate) static ENDS: [Row<'static>; 7] = [
    // all ends
    Row {
        out: "states 6\nend 1 finished events 4\nunit 0 done: 0\ntally units 1 unborn 0 pool 0 stream 0 blocked 0 done 1 asked 0 access 0 steps 1\nfinished\n",
        ..EXPLORE
    },
    // one of them
    Row {
        words: "explore f --end 1 --journal",
        out: "1 0 take 0 0\n2 0 look 0\n3 0 step 0 0 ok\n4 0 end 0 done\nunit 0 done: 0\ntally units 1 unborn 0 pool 0 stream 0 blocked 0 done 1 asked 0 access 0 steps 1\nfinished\n",
        ..EXPLORE
    },
    // its report alone
    Row {
        words: "explore f --end 1",
        out: "unit 0 done: 0\ntally units 1 unborn 0 pool 0 stream 0 blocked 0 done 1 asked 0 access 0 steps 1\nfinished\n",
        ..EXPLORE
    },
    // one that is not there
    Row {
        words: "explore f --end 2",
        status: 8,
        out: "ends 1\n",
        ..EXPLORE
    },
    // a stuck one
    Row {
        lines: b"units 1\nunit 0 ult at 0\nsuspend\nend\n",
        status: 1,
        out: "states 5\nend 1 stuck events 3\nunit 0 suspended:\ntally units 1 unborn 0 pool 0 stream 0 blocked 1 done 0 asked 0 access 0 steps 1\nstuck\n",
        ..EXPLORE
    },
    // an order that changes
    Row {
        head: "abt 1\nstreams 1\npool 0 fifo mpmc\npool 1 fifo mpmc\nsched 0 randws 7 0 1\nstream 0 main 0\n",
        status: 8,
        out: "scheduler 0 changes its order\n",
        ..EXPLORE
    },
    // refused
    Row {
        lines: b"units 1\nend\n",
        status: 3,
        err: "abtrun: line 7: missing\n",
        ..EXPLORE
    },
];
