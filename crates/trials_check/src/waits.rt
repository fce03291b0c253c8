//! What units wait for after journals, by the rules, worked out by hand.

ghost use Rattle.std.specs.Prelude.{◌≤◌, length};
ghost use Rattle.abt_machine.specs.Stored.{CallsStored};

use crate::checks::text_of;
use abt_check::{Verdict, check};
use abt_machine::{Journal, Want, Workload};
use abt_order::StoredOrder;
use abt_report::read_journal;
use abt_why::append_why;
use abt_work::{AnyWork, Work};
use abt_workload::read;
use std::alloc::Global;
use std::process::Abort;
use std::test::Fail;

// A workload, the events of a run of it, and what is said of its units after them.
struct Row {
    workload: &'static str,
    run: &'static str,
    why: &'static str,
}

const TWO_LOCKS: &str =
    "abt 1\nstreams 1\npool 0 fifo mpmc\nsched 0 prio 0\nstream 0 main 0\nobject 0 mutex\nobject 1 mutex\nunits 2\nunit 0 ult at 0\nlock 0\nyield\nlock 1\nunit 1 ult at 0\nlock 1\nyield\nlock 0\nend\n";

const OWN_LOCK: &str =
    "abt 1\nstreams 1\npool 0 fifo mpmc\nsched 0 prio 0\nstream 0 main 0\nobject 0 mutex\nunits 1\nunit 0 ult at 0\nlock 0\nlock 0\nend\n";

const ENDED_OWNER: &str =
    "abt 1\nstreams 1\npool 0 fifo mpmc\nsched 0 prio 0\nstream 0 main 0\nobject 0 mutex\nunits 2\nunit 0 ult at 0\nlock 0\nunit 1 ult at 0\nlock 0\nend\n";

const CONDITION: &str =
    "abt 1\nstreams 1\npool 0 fifo mpmc\nsched 0 prio 0\nstream 0 main 0\nobject 0 mutex\nobject 1 cond 0\nunits 1\nunit 0 ult at 0\nlock 0\ncwait 1\nend\n";

const BARRIER: &str =
    "abt 1\nstreams 1\npool 0 fifo mpmc\nsched 0 prio 0\nstream 0 main 0\nobject 0 barrier 3\nunits 2\nunit 0 ult at 0\nbwait 0\nunit 1 ult at 0\nbwait 0\nend\n";

const VALUES: &str =
    "abt 1\nstreams 1\npool 0 fifo mpmc\nsched 0 prio 0\nstream 0 main 0\nobject 0 eventual\nobject 1 future 2 sum\nunits 2\nunit 0 ult at 0\newait 0\nunit 1 ult at 0\nfset 1\nfwait 1\nend\n";

const JOINS: &str =
    "abt 1\nstreams 1\npool 0 fifo mpmc\npool 1 fifo mpmc\nsched 0 prio 0\nstream 0 main 0\nobject 0 eventual\nunits 8\nunit 0 ult at 0\njoin 1\nunit 1 ult at 0\newait 0\nunit 2 ult at 0\njoin 3\nunit 3 ult at 0\nsuspend\nunit 4 ult at 0\njoin 5\nunit 5 ult later\nunit 6 ult at 0\njoin 7\nunit 7 ult at 1\nend\n";

const THREE: &str =
    "abt 1\nstreams 1\npool 0 fifo mpmc\nsched 0 prio 0\nstream 0 main 0\nunits 4\nunit 0 ult at 0\njoin 2\nunit 1 ult at 0\njoin 0\nunit 2 ult at 0\njoin 3\nunit 3 ult at 0\njoin 0\nend\n";

const READERS: &str =
    "abt 1\nstreams 1\npool 0 fifo mpmc\nsched 0 prio 0\nstream 0 main 0\nobject 0 rwlock\nunits 4\nunit 0 ult at 0\nrdlock 0\nunit 1 ult at 0\nrdlock 0\nunit 2 ult at 0\nwrlock 0\nunit 3 ult at 0\nrdlock 0\nend\n";

const READER: &str =
    "abt 1\nstreams 1\npool 0 fifo mpmc\nsched 0 prio 0\nstream 0 main 0\nobject 0 rwlock\nunits 2\nunit 0 ult at 0\nrdlock 0\nyield\njoin 1\nunit 1 ult at 0\nwrlock 0\nend\n";

const WRITER: &str =
    "abt 1\nstreams 1\npool 0 fifo mpmc\nsched 0 prio 0\nstream 0 main 0\nobject 0 rwlock\nunits 2\nunit 0 ult at 0\nwrlock 0\nyield\nsuspend\nunit 1 ult at 0\nrdlock 0\nend\n";

const FINISHED: &str =
    "abt 1\nstreams 1\npool 0 fifo mpmc\nsched 0 prio 0\nstream 0 main 0\nunits 1\nunit 0 ult at 0\nend\n";

static ROWS: [Row; 13] = [
    Row {
        workload: TWO_LOCKS,
        run: "1 0 take 0 0, 2 0 look 0, 3 0 step 0 0 ok, 4 0 step 0 1 ok, 5 0 put 0 0, 6 0 take 0 1, 7 0 look 1, 8 0 step 1 0 ok, 9 0 step 1 1 ok, 10 0 put 1 0, 11 0 take 0 0, 12 0 look 0, 13 0 step 0 2 ok, 14 0 take 0 1, 15 0 look 1, 16 0 step 1 2 ok, 17 0 miss 0",
        why: "unit 0 at mutex 1, owned by unit 1, which is blocked\nunit 1 at mutex 0, owned by unit 0, which is blocked\ncycle 0 1\n",
    },
    Row {
        workload: TWO_LOCKS,
        run: "1 0 take 0 0, 2 0 look 0, 3 0 step 0 0 ok, 4 0 step 0 1 ok, 5 0 put 0 0, 6 0 take 0 1, 7 0 look 1",
        why: "unit 0 in pool 0\nunit 1 on stream 0\n",
    },
    Row {
        workload: OWN_LOCK,
        run: "1 0 take 0 0, 2 0 look 0, 3 0 step 0 0 ok, 4 0 step 0 1 ok, 5 0 miss 0",
        why: "unit 0 at mutex 0, owned by unit 0, which is blocked\ncycle 0\n",
    },
    Row {
        workload: ENDED_OWNER,
        run: "1 0 take 0 0, 2 0 look 0, 3 0 step 0 0 ok, 4 0 end 0 done, 5 0 take 0 1, 6 0 look 1, 7 0 step 1 0 ok, 8 0 miss 0",
        why: "unit 1 at mutex 0, owned by unit 0, which has ended\n",
    },
    Row {
        workload: CONDITION,
        run: "1 0 take 0 0, 2 0 look 0, 3 0 step 0 0 ok, 4 0 step 0 1 ok, 5 0 miss 0",
        why: "unit 0 at condition 1 of mutex 0\n",
    },
    Row {
        workload: BARRIER,
        run: "1 0 take 0 0, 2 0 look 0, 3 0 step 0 0 ok, 4 0 take 0 1, 5 0 look 1, 6 0 step 1 0 ok, 7 0 miss 0",
        why: "unit 0 at barrier 0, 2 of 3 parties\nunit 1 at barrier 0, 2 of 3 parties\n",
    },
    Row {
        workload: VALUES,
        run: "1 0 take 0 0, 2 0 look 0, 3 0 step 0 0 ok, 4 0 take 0 1, 5 0 look 1, 6 0 step 1 0 ok, 7 0 step 1 1 ok, 8 0 miss 0",
        why: "unit 0 at eventual 0, which is not ready\nunit 1 at future 1, 1 of 2 values\n",
    },
    Row {
        workload: JOINS,
        run: "1 0 take 0 0, 2 0 look 0, 3 0 step 0 0 ok, 4 0 take 0 1, 5 0 look 1, 6 0 step 1 0 ok, 7 0 take 0 2, 8 0 look 2, 9 0 step 2 0 ok, 10 0 take 0 3, 11 0 look 3, 12 0 step 3 0 ok, 13 0 take 0 4, 14 0 look 4, 15 0 step 4 0 ok, 16 0 take 0 6, 17 0 look 6, 18 0 step 6 0 ok, 19 0 miss 0",
        why: "unit 0 joins unit 1, which is blocked\nunit 1 at eventual 0, which is not ready\nunit 2 joins unit 3, which is suspended\nunit 3 suspended\nunit 4 joins unit 5, which is unborn\nunit 6 joins unit 7, which is in pool 1\nunit 7 in pool 1, which no main scheduler lists\n",
    },
    Row {
        workload: THREE,
        run: "1 0 take 0 0, 2 0 look 0, 3 0 step 0 0 ok, 4 0 take 0 1, 5 0 look 1, 6 0 step 1 0 ok, 7 0 take 0 2, 8 0 look 2, 9 0 step 2 0 ok, 10 0 take 0 3, 11 0 look 3, 12 0 step 3 0 ok, 13 0 miss 0",
        why: "unit 0 joins unit 2, which is blocked\nunit 1 joins unit 0, which is blocked\nunit 2 joins unit 3, which is blocked\nunit 3 joins unit 0, which is blocked\ncycle 0 2 3\n",
    },
    Row {
        workload: READERS,
        run: "1 0 take 0 0, 2 0 look 0, 3 0 step 0 0 ok, 4 0 end 0 done, 5 0 take 0 1, 6 0 look 1, 7 0 step 1 0 ok, 8 0 end 1 done, 9 0 take 0 2, 10 0 look 2, 11 0 step 2 0 ok, 12 0 take 0 3, 13 0 look 3, 14 0 step 3 0 ok, 15 0 miss 0",
        why: "unit 2 at rwlock 0 to write, read by units 0 1\nunit 3 at rwlock 0 to read, read by units 0 1\n",
    },
    Row {
        workload: READER,
        run: "1 0 take 0 0, 2 0 look 0, 3 0 step 0 0 ok, 4 0 step 0 1 ok, 5 0 put 0 0, 6 0 take 0 1, 7 0 look 1, 8 0 step 1 0 ok, 9 0 take 0 0, 10 0 look 0, 11 0 step 0 2 ok, 12 0 miss 0",
        why: "unit 0 joins unit 1, which is blocked\nunit 1 at rwlock 0 to write, read by unit 0, which is blocked\ncycle 0 1\n",
    },
    Row {
        workload: WRITER,
        run: "1 0 take 0 0, 2 0 look 0, 3 0 step 0 0 ok, 4 0 step 0 1 ok, 5 0 put 0 0, 6 0 take 0 1, 7 0 look 1, 8 0 step 1 0 ok, 9 0 take 0 0, 10 0 look 0, 11 0 step 0 2 ok, 12 0 miss 0",
        why: "unit 0 suspended\nunit 1 at rwlock 0 to read, written by unit 0, which is suspended\n",
    },
    Row {
        workload: FINISHED,
        run: "1 0 take 0 0, 2 0 look 0, 3 0 end 0 done, 4 0 miss 0",
        why: "",
    },
];

// Appends what units wait for after the journal, if that is a run of the workload.
fn is_appended<P: Work>(
    alloc: Global,
    out: &mut Vec<u8>,
    w: &Workload,
    orders: &[StoredOrder],
    work: &P,
    journal: &Journal,
) -> Result<bool, Want>
    requires orders { 2 ≤ length orders.now }
    requires calls { CallsStored w.now (P.count work.now) }
{
    match check(alloc, w, orders, work, journal)? {
        Verdict::Bad { .. } => Ok(false),
        Verdict::Run => {
            append_why(alloc, out, w, orders, work, journal)?;
            Ok(true)
        }
    }
}

// The row's events are a run of its workload, which has been read, and what is said after them is what the row has.
fn check_run<P: Work>(
    rt: &impl Abort,
    alloc: Global,
    w: &Workload,
    orders: &[StoredOrder],
    work: &P,
    row: &Row,
) -> Result<(), Fail>
    requires orders { 2 ≤ length orders.now }
    requires calls { CallsStored w.now (P.count work.now) }
{
    let text = text_of(alloc, row.run, usize::MAX, "")?;
    assert!(rt; text.len() < 10_000);
    let journal = read_journal(alloc, text.as_bytes())?;
    let mut out = Vec::new(alloc);
    let is_run = is_appended(alloc, &mut out, w, orders, work, &journal)?;
    assert!(rt; is_run, "{}", row.run);
    assert!(rt; out.as_slice() == row.why.as_bytes(), "{}", row.why);
    Ok(())
}

// The same, of a workload that is still to be read.
#[tactic(auto, using(crate::proofs::Functions::calls_stored))]
fn check_row<P: Work>(
    rt: &impl Abort,
    alloc: Global,
    orders: &[StoredOrder],
    work: &P,
    row: &Row,
) -> Result<(), Fail>
    requires orders { 2 ≤ length orders.now }
    requires functions { 8 ≤ P.count work.now }
{
    let w = read(alloc, row.workload.as_bytes())?;
    w.known();
    check_run(rt, alloc, &w, orders, work, row)
}

#[test]
fn waits_are_said(rt: HostRuntime) -> Result<(), Fail> {
    let orders = [StoredOrder::rotating(), StoredOrder::mirroring()];
    for row in &ROWS {
        check_row(&rt, rt.alloc(), &orders, &AnyWork, row)?;
    }
    Ok(())
}
