//! Worked rows of journals that are checked against workloads.

use crate::rows::{RUN, Row};

const HI: &str =
    "abt 1\nstreams 1\npool 0 fifo mpmc\nsched 0 prio 0\nstream 0 main 0\nunits 1\nunit 0 ult at 0\nsay hi\nend\n";

const DEQUE: &str =
    "abt 1\nstreams 1\npool 0 deque mpmc\nsched 0 prio 0\nstream 0 main 0\nunits 2\nunit 0 ult at 0\nunit 1 ult at 0\nend\n";

// A journal `j` that is judged to be a run of the workload `f`. It answers no journal.
const CHECK: Row<'static> = Row {
    words: "check f j",
    head: HI,
    out: "run\n",
    journal: Some(""),
    ..RUN
};

/// Journals of runs, others, and texts that are refused.
pub(crate) static CHECKS: [Row<'static>; 14] = [
    // a whole run
    Row {
        other: Some("1 0 take 0 0\n2 0 look 0\n3 0 step 0 0 ok\n4 0 end 0 done\n5 0 miss 0\n"),
        ..CHECK
    },
    // no event
    Row {
        other: Some(""),
        ..CHECK
    },
    // its first events
    Row {
        other: Some("1 0 take 0 0\n2 0 look 0\n3 0 step 0 0 ok\n"),
        ..CHECK
    },
    // a round more
    Row {
        other: Some(
            "1 0 take 0 0\n2 0 look 0\n3 0 step 0 0 ok\n4 0 end 0 done\n5 0 miss 0\n6 0 miss 0\n",
        ),
        ..CHECK
    },
    // another step
    Row {
        other: Some("1 0 take 0 0\n2 0 look 0\n3 0 step 0 1 ok\n4 0 end 0 done\n5 0 miss 0\n"),
        status: 1,
        out: "bad 3\n",
        ..CHECK
    },
    // a stamp too high
    Row {
        other: Some("1 0 take 0 0\n3 0 look 0\n3 0 step 0 0 ok\n4 0 end 0 done\n5 0 miss 0\n"),
        status: 1,
        out: "bad 2\n",
        ..CHECK
    },
    // an event twice
    Row {
        other: Some("1 0 take 0 0\n2 0 look 0\n3 0 look 0\n"),
        status: 1,
        out: "bad 3\n",
        ..CHECK
    },
    // a code that does not come
    Row {
        other: Some("1 0 take 0 0\n2 0 look 0\n3 0 step 0 0 not-owner\n"),
        status: 1,
        out: "bad 3\n",
        ..CHECK
    },
    // a stream that is not declared
    Row {
        other: Some("1 1 take 0 0\n"),
        status: 1,
        out: "bad 1\n",
        ..CHECK
    },
    // the wrong end of a deque
    Row {
        head: DEQUE,
        other: Some("1 0 take 0 0\n"),
        status: 1,
        out: "bad 1\n",
        ..CHECK
    },
    // its right end
    Row {
        head: DEQUE,
        other: Some("1 0 take 0 1\n2 0 look 1\n3 0 end 1 done\n"),
        ..CHECK
    },
    // a number with a zero before it
    Row {
        other: Some("01 0 take 0 0\n2 0 look 0\n"),
        status: 3,
        out: "",
        err: "abtrun: line 1: journal\n",
        ..CHECK
    },
    // a last line without its line feed
    Row {
        other: Some("1 0 take 0 0\n2 0 look 0"),
        status: 3,
        out: "",
        err: "abtrun: line 2: journal\n",
        ..CHECK
    },
    // both are wrong: the workload is read first
    Row {
        head: "abt 4\n",
        other: Some("take\n"),
        status: 3,
        out: "",
        err: "abtrun: line 1: version\n",
        ..CHECK
    },
];
