//! What worked journals are judged to be after each change of one line.

ghost use Rattle.std.specs.Prelude.{◌≡◌, ◌<◌, ◌≤◌, length};
ghost use Rattle.abt_machine.specs.Stored.{CallsStored};

use crate::changes::{Change, changes, parts};
use crate::checks::{
    self, CALLS, CALLS_RUN, EXIT, EXIT_RUN, HI, HI_RUN, RW_REFUSALS, RW_REFUSALS_RUN, RW_WAITERS,
    RW_WAITERS_RUN, STACKED, STACKED_RUN, Sums, WRITE_THEN_READ, WRITE_THEN_READ_RUN, verdict,
};
use abt_check::Verdict;
use abt_machine::{OrderShape, Want, Workload};
use abt_order::StoredOrder;
use abt_work::Work;
use abt_workload::read;
use std::alloc::Global;
use std::process::Abort;
use std::test::Fail;

// A workload, the lines of a run of it, how many changes of one line there are, and the exceptions. After a change the
// journal is bad at the first line that differs, since the lines before are those of the run, but for these names:
// - `runs`: it is a run. A stream's last event is missing, the last event is a miss of the other stream, or a call of a function of
//   which nothing is known returned another word.
// - `next`: it is bad at the line after, since the first line that differs may stand there. Of two lines of equal stamp
//   the second came first, a stamp rose by one, the other stream may take the unit too, or an order is free.
// - `later`: it is bad at the line of that number, counted from 0, for the same reasons.
struct Case {
    workload: &'static str,
    lines: &'static str,
    count: usize,
    runs: &'static str,
    next: &'static str,
    later: &'static [(&'static str, u64)],
}

// The third unit of a workload wakes the two that wait for it.
const WOKEN_RUN: &str =
    "1 0 take 0 0, 2 0 look 0, 3 0 step 0 0 ok, 4 0 take 0 1, 5 0 look 1, 6 0 step 1 0 ok, 7 0 take 0 2, 8 0 look 2, 9 0 step 2 0 ok, 10 0 put 0 0, 11 0 put 1 0, 12 0 end 2 done, 13 0 take 0 0, 14 0 look 0, 15 0 end 0 done, 16 0 take 0 1, 17 0 look 1, 18 0 end 1 done, 19 0 miss 0";

// The cases over the orders Rotate and Mirror, and those of reader-writer locks.
static CASES: [Case; 12] = [
    // A unit says a word.
    Case {
        workload: HI,
        lines: HI_RUN,
        count: 103,
        runs: "drop 5",
        next: "",
        later: &[],
    },
    // A unit ends itself, and another by its steps.
    Case {
        workload: EXIT,
        lines: EXIT_RUN,
        count: 221,
        runs: "drop 10",
        next: "",
        later: &[],
    },
    // A deque, whose owner takes at the back and another stream at the front.
    Case {
        workload: "abt 1\nstreams 2\npool 0 deque mpmc\npool 1 fifo mpmc\nsched 0 prio 0 1\nsched 1 prio 1 0\nstream 0 main 1\nstream 1 main 0\nunits 3\nunit 0 ult at 0\nunit 1 ult at 0\nunit 2 ult at 0\nend\n",
        lines: "1 0 miss 1, 1 1 take 0 2, 2 0 take 0 0, 2 1 look 2, 3 0 look 0, 3 1 end 2 done, 4 0 end 0 done, 4 1 take 0 1, 5 0 miss 1, 5 1 look 1, 6 0 miss 0, 6 1 end 1 done, 7 1 miss 0, 8 1 miss 1",
        count: 252,
        runs: "drop 11, drop 14, 14: 8 0 miss 1",
        next: "drop 1, swap 1, drop 2, swap 2, 2: 2 1 take 0 2, drop 3, swap 3, drop 4, swap 4, 4: 3 1 look 2, drop 5, swap 5, drop 6, swap 6, 6: 4 1 end 2 done, drop 7, swap 7, drop 8, swap 8, 8: 5 1 take 0 1, drop 9, swap 9, drop 10, swap 10, 10: 6 1 look 1, swap 11, 12: 7 1 end 1 done",
        later: &[],
    },
    // A mutex is handed over.
    Case {
        workload: "abt 1\nstreams 1\npool 0 fifo mpmc\nsched 0 prio 0\nstream 0 main 0\nobject 0 mutex\nunits 2\nunit 0 ult at 0\nlock 0\nyield\nunlock 0\ntrylock 0\nunit 1 ult at 0\nlock 0\nunlock 0\nend\n",
        lines: "1 0 take 0 0, 2 0 look 0, 3 0 step 0 0 ok, 4 0 step 0 1 ok, 5 0 put 0 0, 6 0 take 0 1, 7 0 look 1, 8 0 step 1 0 ok, 9 0 take 0 0, 10 0 look 0, 11 0 step 0 2 ok, 12 0 put 1 0, 13 0 step 0 3 mutex-locked, 14 0 end 0 done, 15 0 take 0 1, 16 0 look 1, 17 0 step 1 1 ok, 18 0 end 1 done, 19 0 miss 0",
        count: 424,
        runs: "drop 19",
        next: "",
        later: &[],
    },
    // A signalled unit queues behind those that wait for the mutex.
    Case {
        workload: "abt 1\nstreams 1\npool 0 fifo mpmc\nsched 0 prio 0\nstream 0 main 0\nobject 0 mutex\nobject 1 cond 0\nunits 3\nunit 0 ult at 0\nlock 0\ncwait 1\nsay zero\nunlock 0\nunit 1 ult at 0\nlock 0\nyield\nsignal 1\nunlock 0\nunit 2 ult at 0\nlock 0\nsay two\nunlock 0\nend\n",
        lines: "1 0 take 0 0, 2 0 look 0, 3 0 step 0 0 ok, 4 0 step 0 1 ok, 5 0 take 0 1, 6 0 look 1, 7 0 step 1 0 ok, 8 0 step 1 1 ok, 9 0 put 1 0, 10 0 take 0 2, 11 0 look 2, 12 0 step 2 0 ok, 13 0 take 0 1, 14 0 look 1, 15 0 step 1 2 ok, 16 0 step 1 3 ok, 17 0 put 2 0, 18 0 end 1 done, 19 0 take 0 2, 20 0 look 2, 21 0 step 2 1 ok, 22 0 step 2 2 ok, 23 0 put 0 0, 24 0 end 2 done, 25 0 take 0 0, 26 0 look 0, 27 0 step 0 2 ok, 28 0 step 0 3 ok, 29 0 end 0 done, 30 0 miss 0",
        count: 690,
        runs: "drop 30",
        next: "",
        later: &[],
    },
    // An eventual wakes two units.
    Case {
        workload: "abt 1\nstreams 1\npool 0 fifo mpmc\nsched 0 prio 0\nstream 0 main 0\nobject 0 eventual\nunits 3\nunit 0 ult at 0\newait 0\nunit 1 ult at 0\newait 0\nunit 2 ult at 0\neset 0\nend\n",
        lines: WOKEN_RUN,
        count: 387,
        runs: "drop 19",
        next: "",
        later: &[],
    },
    // A future wakes two units.
    Case {
        workload: "abt 1\nstreams 1\npool 0 fifo mpmc\nsched 0 prio 0\nstream 0 main 0\nobject 0 future 1 count\nunits 3\nunit 0 ult at 0\nfwait 0\nunit 1 ult at 0\nfwait 0\nunit 2 ult at 0\nfset 0\nend\n",
        lines: WOKEN_RUN,
        count: 387,
        runs: "drop 19",
        next: "",
        later: &[],
    },
    // A barrier of three parties.
    Case {
        workload: "abt 1\nstreams 1\npool 0 fifo mpmc\nsched 0 prio 0\nstream 0 main 0\nobject 0 barrier 3\nunits 3\nunit 0 ult at 0\nbwait 0\nsay zero\nunit 1 ult at 0\nbwait 0\nsay one\nunit 2 ult at 0\nbwait 0\nsay two\nend\n",
        lines: "1 0 take 0 0, 2 0 look 0, 3 0 step 0 0 ok, 4 0 take 0 1, 5 0 look 1, 6 0 step 1 0 ok, 7 0 take 0 2, 8 0 look 2, 9 0 step 2 0 ok, 10 0 put 0 0, 11 0 put 1 0, 12 0 step 2 1 ok, 13 0 end 2 done, 14 0 take 0 0, 15 0 look 0, 16 0 step 0 1 ok, 17 0 end 0 done, 18 0 take 0 1, 19 0 look 1, 20 0 step 1 1 ok, 21 0 end 1 done, 22 0 miss 0",
        count: 480,
        runs: "drop 22",
        next: "",
        later: &[],
    },
    // A cancelled scheduler unit is taken by a stream that must not take from its pools.
    Case {
        workload: "abt 1\nstreams 2\npool 0 fifo mpmc\npool 1 fifo priv of 1\nsched 0 prio 0\nsched 1 prio 1\nsched 2 prio 0 1\nstream 0 main 0\nstream 1 main 1\nunits 2\nunit 0 ult at 0\ncancel 1\nunit 1 sched 2 at 0\nend\n",
        lines: "1 0 take 0 0, 1 1 miss 1, 2 0 look 0, 3 0 step 0 0 ok, 4 0 end 0 done, 5 0 take 0 1, 6 0 look 1, 7 0 end 1 asked, 8 0 miss 0",
        count: 176,
        runs: "drop 2, drop 9",
        next: "drop 1, swap 1, swap 2, 2: 2 1 miss 1",
        later: &[],
    },
    // Units of two streams migrate.
    Case {
        workload: "abt 1\nstreams 2\npool 0 deque mpmc\npool 1 fifo mpmc\nsched 0 prio 0 1\nsched 1 prio 1 0\nstream 0 main 1\nstream 1 main 0\nunits 3\nunit 0 ult at 1\nmigrateto 1 0\nmigrateto 2 1\nunit 1 ult at 0\nunit 2 ult at 1\nend\n",
        lines: "1 0 take 1 0, 1 1 take 0 1, 2 0 look 0, 3 0 step 0 0 ok, 4 0 step 0 1 ok, 4 1 look 1, 5 0 end 0 done, 5 1 put 1 1, 6 0 take 1 2, 6 1 miss 0, 7 0 look 2, 7 1 take 1 1, 8 0 put 2 0, 8 1 look 1, 9 0 miss 1, 9 1 end 1 done, 10 0 take 0 2, 11 0 look 2, 11 1 miss 0, 12 0 end 2 done, 12 1 miss 1, 13 0 miss 1, 14 0 miss 0",
        count: 441,
        runs: "drop 21, drop 23, 23: 14 1 miss 0",
        next: "drop 1, swap 1, swap 2, 2: 2 1 take 0 1, drop 5, swap 5, drop 6, swap 6, 6: 5 1 look 1, drop 7, swap 7, drop 8, swap 8, 8: 6 1 put 1 1, drop 9, swap 9, drop 10, swap 10, 10: 7 1 miss 0, drop 11, swap 11, drop 12, swap 12, 12: 8 1 take 1 1, drop 13, swap 13, drop 14, swap 14, 14: 9 1 look 1, drop 15, swap 15, swap 16, 16: 10 1 end 1 done, 17: 10 1 take 0 2, drop 18, swap 18, drop 19, swap 19, 19: 12 1 miss 0, drop 20, swap 20, swap 21, 21: 13 1 miss 1",
        later: &[("drop 2", 4), ("drop 16", 17)],
    },
    // A stacked scheduler, and its second life.
    Case {
        workload: STACKED,
        lines: STACKED_RUN,
        count: 591,
        runs: "drop 29",
        next: "",
        later: &[],
    },
    // Units call a function that returns one word, and one that returns any.
    Case {
        workload: CALLS,
        lines: CALLS_RUN,
        count: 315,
        runs: "drop 14, 7: 7 0 call 0 4 6, 7: 7 0 call 0 4 8",
        next: "",
        later: &[],
    },
];

static LOCK_CASES: [Case; 3] = [
    // A unit writes, and two read.
    Case {
        workload: WRITE_THEN_READ,
        lines: WRITE_THEN_READ_RUN,
        count: 752,
        runs: "drop 32",
        next: "",
        later: &[],
    },
    // Refusals of a reader-writer lock.
    Case {
        workload: RW_REFUSALS,
        lines: RW_REFUSALS_RUN,
        count: 289,
        runs: "drop 11",
        next: "",
        later: &[],
    },
    // A writer waits between readers.
    Case {
        workload: RW_WAITERS,
        lines: RW_WAITERS_RUN,
        count: 1060,
        runs: "drop 48",
        next: "",
        later: &[],
    },
];

// The case over free orders: rounds in any order.
static FREE: Case = Case {
    workload: "abt 1\nstreams 1\npool 0 fifo mpmc\npool 1 fifo mpmc\npool 2 fifo mpmc\nsched 0 user 0 0 1 2\nstream 0 main 0\nunits 1\nunit 0 ult at 0\nend\n",
    lines: "1 0 miss 1, 2 0 miss 2, 3 0 take 0 0, 4 0 look 0, 5 0 end 0 done, 6 0 miss 2, 7 0 miss 0, 8 0 miss 1",
    count: 140,
    runs: "drop 8",
    next: "1: 1 0 miss 2, 7: 7 0 miss 1",
    later: &[("6: 6 0 miss 1", 7)],
};

// The line at which the change of that name shows, if it is not the one expected.
fn later_in(later: &[(&str, u64)], name: &str) -> Option<u64> {
    for (other, at) in later {
        if *other == name {
            return Some(*at);
        }
    }
    None
}

// Whether a list has this name.
fn names(list: &str, name: &str) -> bool {
    for other in list.split(", ") {
        if other == name {
            return true;
        }
    }
    false
}

// What the table says of the change, if its text is a journal's.
fn wanted(case: &Case, change: &Change) -> Option<Verdict> {
    let name = change.name.as_str();
    let kept = change.kept as u64;
    if !change.is_journal {
        return None;
    }
    if names(case.runs, name) {
        return Some(Verdict::Run);
    }
    if names(case.next, name) {
        return Some(Verdict::Bad {
            at: kept.saturating_add(1),
        });
    }
    Some(Verdict::Bad {
        at: later_in(case.later, name).unwrap_or(kept),
    })
}

// Each of these changes is judged as the case says.
fn check_changes<P: Work>(
    rt: &impl Abort,
    alloc: Global,
    w: &Workload,
    orders: &[StoredOrder],
    work: &P,
    case: &Case,
    changes: &[Change],
) -> Result<(), Want>
    requires orders { 2 ≤ length orders.now }
    requires calls { CallsStored w.now (P.count work.now) }
{
    assert!(rt; changes.len() == case.count);
    for change in changes {
        let verdict = verdict(rt, alloc, w, orders, work, &change.text)?;
        assert!(rt; verdict == wanted(case, change), "{}", change.name);
    }
    Ok(())
}

// Each change of a case's run is judged as the case says.
fn check_case<P: Work>(
    rt: &impl Abort,
    alloc: Global,
    orders: &[StoredOrder],
    work: &P,
    case: &Case,
) -> Result<(), Fail>
    requires orders { 2 ≤ length orders.now }
    requires functions { 8 ≤ P.count work.now }
{
    let w = read(alloc, case.workload.as_bytes())?;
    w.known();
    let lines = parts(alloc, case.lines, ", ")?;
    let changes = changes(alloc, &lines)?;
    check_changes(rt, alloc, &w, orders, work, case, &changes)?;
    Ok(())
}

// The same holds of all cases, over the orders Rotate and Mirror.
fn check_cases(rt: &impl Abort, alloc: Global, cases: &[Case]) -> Result<(), Fail> {
    let orders = [StoredOrder::rotating(), StoredOrder::mirroring()];
    for case in cases {
        check_case(rt, alloc, &orders, &Sums, case)?;
    }
    Ok(())
}

#[test]
fn changed_journals_are_judged(rt: HostRuntime) -> Result<(), Fail> {
    check_cases(&rt, rt.alloc(), &CASES)
}

#[test]
fn changed_journals_of_locks_are_judged(rt: HostRuntime) -> Result<(), Fail> {
    check_cases(&rt, rt.alloc(), &LOCK_CASES)
}

// The first place, whatever place is asked for. A value may be made of a function of this crate alone.
fn first(_round: u64, n: u32, _i: u32) -> u32
    requires { 0 < n }
    ensures { result ≡ 0 }
{
    0
}

#[test]
fn free_orders_are_not_called(rt: HostRuntime) -> Result<(), Fail> {
    let alloc = rt.alloc();
    let orders = [
        StoredOrder::new(OrderShape::Free, Box::new(alloc, first)?),
        StoredOrder::new(OrderShape::Free, Box::new(alloc, first)?),
    ];
    checks::check_case(&rt, alloc, &orders, &Sums, &checks::FREE)?;
    check_case(&rt, alloc, &orders, &Sums, &FREE)
}
