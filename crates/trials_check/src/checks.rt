//! Journals of worked runs, and journals that differ from them.

ghost use Rattle.std.specs.Prelude.{◌≡◌, ◌≤◌, ◌^◌, length};
ghost use Rattle.abt_machine.specs.Stored.{CallsStored};
ghost use Rattle.trials_check.specs.Sums.{sum_of};

use abt_check::{Verdict, check};
use abt_machine::{StreamNo, UnitNo, Want, Workload};
use abt_order::StoredOrder;
use abt_report::read_journal;
use abt_work::{AnyWork, Work};
use abt_workload::read;
use std::alloc::{AllocError, Global};
use std::process::Abort;
use std::test::Fail;

const RUN: Verdict = Verdict::Run;

// How many lines of a run a journal begins with, the lines that follow, and what the journal is judged to be.
type Other = (usize, &'static str, Verdict);

/// A workload, the lines of a run of it, and other journals.
pub(crate) struct Case {
    workload: &'static str,
    run: &'static str,
    others: &'static [Other],
}

pub(crate) const HI: &str =
    "abt 1\nstreams 1\npool 0 fifo mpmc\nsched 0 prio 0\nstream 0 main 0\nunits 1\nunit 0 ult at 0\nsay hi\nend\n";

pub(crate) const HI_RUN: &str =
    "1 0 take 0 0, 2 0 look 0, 3 0 step 0 0 ok, 4 0 end 0 done, 5 0 miss 0";

const DEQUE: &str =
    "abt 1\nstreams 1\npool 0 deque mpmc\nsched 0 prio 0\nstream 0 main 0\nunits 2\nunit 0 ult at 0\nunit 1 ult at 0\nend\n";

const BASIC: &str =
    "abt 1\nstreams 1\npool 0 fifo mpmc\npool 1 fifo priv of 0\nsched 0 basic 0 1\nstream 0 main 0\nunits 2\nunit 0 ult at 0\nunit 1 ult at 1\nend\n";

pub(crate) const STACKED: &str =
    "abt 1\nstreams 1\npool 0 fifo mpmc\npool 1 fifo mpmc\nsched 0 prio 0\nsched 1 prio 1\nstream 0 main 0\nunits 4\nunit 0 sched 1 at 0\nunit 1 ult at 1\nsay in\nunit 2 ult at 0\njoin 0\ncreate 3 1\nrevive 0 0\nunit 3 ult later\nsay again\nend\n";

pub(crate) const STACKED_RUN: &str =
    "1 0 take 0 0, 2 0 look 0, 3 0 enter 0, 4 0 take 1 1, 5 0 look 1, 6 0 step 1 0 ok, 7 0 end 1 done, 8 0 miss 1, 9 0 leave 0, 10 0 end 0 done, 11 0 take 0 2, 12 0 look 2, 13 0 step 2 0 ok, 14 0 step 2 1 ok, 15 0 put 3 1, 16 0 step 2 2 ok, 17 0 put 0 0, 18 0 end 2 done, 19 0 take 0 0, 20 0 look 0, 21 0 enter 0, 22 0 take 1 3, 23 0 look 3, 24 0 step 3 0 ok, 25 0 end 3 done, 26 0 miss 1, 27 0 leave 0, 28 0 end 0 done, 29 0 miss 0";

const MUTEX: &str =
    "abt 1\nstreams 1\npool 0 fifo mpmc\nsched 0 prio 0\nstream 0 main 0\nobject 0 mutex\nunits 1\nunit 0 ult at 0\ntrylock 0\ntrylock 0\nend\n";

const TWO_STREAMS: &str =
    "abt 1\nstreams 2\npool 0 fifo mpmc\npool 1 fifo mpmc\nsched 0 prio 0\nsched 1 prio 1 0\nstream 0 main 0\nstream 1 main 1\nunits 0\nend\n";

const THREE_POOLS: &str =
    "abt 1\nstreams 1\npool 0 fifo mpmc\npool 1 fifo mpmc\npool 2 fifo mpmc\nsched 0 user 0 0 1 2\nstream 0 main 0\nunits 0\nend\n";

pub(crate) const EXIT: &str =
    "abt 1\nstreams 1\npool 0 fifo mpmc\nsched 0 prio 0\nstream 0 main 0\nunits 2\nunit 0 ult at 0\nsay a\nexit\nsay b\nunit 1 ult at 0\nsay c\nend\n";

pub(crate) const EXIT_RUN: &str =
    "1 0 take 0 0, 2 0 look 0, 3 0 step 0 0 ok, 4 0 step 0 1 ok, 5 0 end 0 own, 6 0 take 0 1, 7 0 look 1, 8 0 step 1 0 ok, 9 0 end 1 done, 10 0 miss 0";

pub(crate) const WRITE_THEN_READ: &str =
    "abt 1\nstreams 1\npool 0 fifo mpmc\nsched 0 basic 0\nstream 0 main 0\nobject 0 rwlock\nunits 3\nunit 0 ult at 0\nwrlock 0\nset 5\nrwstore 0\nyield\nrwunlock 0\nunit 1 ult at 0\nrdlock 0\nrwload 0\nprint\nrwunlock 0\nunit 2 ult at 0\nrdlock 0\nrwload 0\nprint\nrwunlock 0\nend\n";

pub(crate) const WRITE_THEN_READ_RUN: &str =
    "1 0 take 0 0, 2 0 look 0, 3 0 step 0 0 ok, 4 0 step 0 1 ok, 5 0 step 0 2 ok, 6 0 step 0 3 ok, 7 0 put 0 0, 8 0 take 0 1, 9 0 look 1, 10 0 step 1 0 ok, 11 0 take 0 2, 12 0 look 2, 13 0 step 2 0 ok, 14 0 take 0 0, 15 0 look 0, 16 0 step 0 4 ok, 17 0 put 1 0, 18 0 put 2 0, 19 0 end 0 done, 20 0 take 0 1, 21 0 look 1, 22 0 step 1 1 ok, 23 0 step 1 2 ok, 24 0 step 1 3 ok, 25 0 end 1 done, 26 0 take 0 2, 27 0 look 2, 28 0 step 2 1 ok, 29 0 step 2 2 ok, 30 0 step 2 3 ok, 31 0 end 2 done, 32 0 miss 0";

pub(crate) const RW_REFUSALS: &str =
    "abt 1\nstreams 1\npool 0 fifo mpmc\nsched 0 basic 0\nstream 0 main 0\nobject 0 rwlock\nunits 1\nunit 0 ult at 0\nrdlock 0\nrdlock 0\nwrlock 0\nrwstore 0\nrwunlock 0\nrwunlock 0\nrwunlock 0\nend\n";

pub(crate) const RW_REFUSALS_RUN: &str =
    "1 0 take 0 0, 2 0 look 0, 3 0 step 0 0 ok, 4 0 step 0 1 ok, 5 0 step 0 2 rw-held, 6 0 step 0 3 not-holder, 7 0 step 0 4 ok, 8 0 step 0 5 ok, 9 0 step 0 6 not-holder, 10 0 end 0 done, 11 0 miss 0";

pub(crate) const RW_WAITERS: &str =
    "abt 1\nstreams 1\npool 0 fifo mpmc\nsched 0 basic 0\nstream 0 main 0\nobject 0 rwlock\nunits 5\nunit 0 ult at 0\nwrlock 0\nyield\nrwunlock 0\nunit 1 ult at 0\nrdlock 0\nrdlock 0\nrwunlock 0\nrwunlock 0\nunit 2 ult at 0\nwrlock 0\nrwunlock 0\nunit 3 ult at 0\nrdlock 0\nrwunlock 0\nunit 4 ult at 0\nyield\nrdlock 0\nrwunlock 0\nend\n";

pub(crate) const RW_WAITERS_RUN: &str =
    "1 0 take 0 0, 2 0 look 0, 3 0 step 0 0 ok, 4 0 step 0 1 ok, 5 0 put 0 0, 6 0 take 0 1, 7 0 look 1, 8 0 step 1 0 ok, 9 0 take 0 2, 10 0 look 2, 11 0 step 2 0 ok, 12 0 take 0 3, 13 0 look 3, 14 0 step 3 0 ok, 15 0 take 0 4, 16 0 look 4, 17 0 step 4 0 ok, 18 0 put 4 0, 19 0 take 0 0, 20 0 look 0, 21 0 step 0 2 ok, 22 0 put 1 0, 23 0 end 0 done, 24 0 take 0 4, 25 0 look 4, 26 0 step 4 1 ok, 27 0 take 0 1, 28 0 look 1, 29 0 step 1 1 ok, 30 0 step 1 2 ok, 31 0 step 1 3 ok, 32 0 put 2 0, 33 0 end 1 done, 34 0 take 0 2, 35 0 look 2, 36 0 step 2 1 ok, 37 0 put 3 0, 38 0 put 4 0, 39 0 end 2 done, 40 0 take 0 3, 41 0 look 3, 42 0 step 3 1 ok, 43 0 end 3 done, 44 0 take 0 4, 45 0 look 4, 46 0 step 4 2 ok, 47 0 end 4 done, 48 0 miss 0";

pub(crate) const CALLS: &str =
    "abt 3\nstreams 1\nkeys 1\npool 0 fifo mpmc\nsched 0 prio 0\nstream 0 main 0\nunits 2\nunit 0 ult at 0\nset 5\nkset 0\ncalc mul 0\ncall 0\ncall 1\nprint\nunit 1 ult at 0\ncall 0\nend\n";

// Function 0 returns the sum of its unit's number, accumulator and key, and function 1 any word.
pub(crate) const CALLS_RUN: &str =
    "1 0 take 0 0, 2 0 look 0, 3 0 step 0 0 ok, 4 0 step 0 1 ok, 5 0 step 0 2 ok, 6 0 call 0 3 30, 7 0 call 0 4 7, 8 0 step 0 5 ok, 9 0 end 0 done, 10 0 take 0 1, 11 0 look 1, 12 0 call 1 0 1, 13 0 end 1 done, 14 0 miss 0";

static CASES: [Case; 12] = [
    Case {
        workload: HI,
        run: HI_RUN,
        others: &[
            (3, "", RUN),
            (0, "", RUN),
            (2, "3 0 step 0 1 ok", Verdict::Bad { at: 2 }),
            (1, "3 0 look 0", Verdict::Bad { at: 1 }),
            (0, "2 0 take 0 0", Verdict::Bad { at: 0 }),
            (0, "1 1 take 0 0", Verdict::Bad { at: 0 }),
        ],
    },
    Case {
        workload: DEQUE,
        run: "1 0 take 0 1, 2 0 look 1, 3 0 end 1 done, 4 0 take 0 0, 5 0 look 0, 6 0 end 0 done, 7 0 miss 0",
        others: &[(0, "1 0 take 0 0", Verdict::Bad { at: 0 })],
    },
    Case {
        workload: BASIC,
        run: "1 0 take 1 1, 2 0 look 1, 3 0 end 1 done, 4 0 miss 1, 5 0 take 0 0, 6 0 look 0, 7 0 end 0 done, 8 0 miss 1, 9 0 miss 0",
        others: &[],
    },
    Case {
        workload: STACKED,
        run: STACKED_RUN,
        others: &[],
    },
    Case {
        workload: MUTEX,
        run: "1 0 take 0 0, 2 0 look 0, 3 0 step 0 0 ok, 4 0 step 0 1 mutex-locked, 5 0 end 0 done",
        others: &[(3, "4 0 step 0 1 ok", Verdict::Bad { at: 3 })],
    },
    Case {
        workload: TWO_STREAMS,
        run: "1 0 miss 0, 1 1 miss 1, 2 0 miss 0, 3 1 miss 0",
        others: &[
            (0, "1 1 miss 1, 1 0 miss 0", Verdict::Bad { at: 1 }),
            (3, "2 1 miss 0", Verdict::Bad { at: 3 }),
        ],
    },
    Case {
        workload: THREE_POOLS,
        run: "1 0 miss 0, 2 0 miss 1, 3 0 miss 2, 4 0 miss 1",
        others: &[
            (3, "4 0 miss 0", Verdict::Bad { at: 3 }),
            (0, "1 0 miss 1", Verdict::Bad { at: 0 }),
        ],
    },
    Case {
        workload: EXIT,
        run: EXIT_RUN,
        others: &[
            (4, "5 0 end 0 done", Verdict::Bad { at: 4 }),
            (4, "5 0 step 0 2 ok", Verdict::Bad { at: 4 }),
            (3, "4 0 end 0 own", Verdict::Bad { at: 3 }),
            (7, "8 0 end 1 own", Verdict::Bad { at: 7 }),
        ],
    },
    Case {
        workload: WRITE_THEN_READ,
        run: WRITE_THEN_READ_RUN,
        others: &[
            (10, "11 0 step 1 1 ok", Verdict::Bad { at: 10 }),
            (16, "17 0 end 0 done", Verdict::Bad { at: 16 }),
            (17, "18 0 end 0 done", Verdict::Bad { at: 17 }),
        ],
    },
    Case {
        workload: RW_REFUSALS,
        run: RW_REFUSALS_RUN,
        others: &[
            (5, "6 0 step 0 3 ok", Verdict::Bad { at: 5 }),
            (4, "5 0 step 0 2 ok", Verdict::Bad { at: 4 }),
            (7, "8 0 step 0 5 not-holder", Verdict::Bad { at: 7 }),
        ],
    },
    Case {
        workload: RW_WAITERS,
        run: RW_WAITERS_RUN,
        others: &[
            (22, "23 0 put 3 0", Verdict::Bad { at: 22 }),
            (26, "27 0 step 4 2 ok", Verdict::Bad { at: 26 }),
        ],
    },
    Case {
        workload: CALLS,
        run: CALLS_RUN,
        others: &[
            (5, "6 0 call 0 3 31", Verdict::Bad { at: 5 }),
            (5, "6 0 step 0 3 ok", Verdict::Bad { at: 5 }),
            (5, "6 0 call 1 3 31", Verdict::Bad { at: 5 }),
            (6, "7 0 call 0 4 18446744073709551615", RUN),
            (6, "7 0 call 0 4 0, 8 0 step 0 5 ok", RUN),
            (7, "8 0 call 0 5 7", Verdict::Bad { at: 7 }),
            (11, "12 0 call 1 0 0", Verdict::Bad { at: 11 }),
        ],
    },
];

// The same if nothing is known of the functions.
static WITHOUT_FUNCTIONS: Case = Case {
    workload: CALLS,
    run: CALLS_RUN,
    others: &[
        (
            5,
            "6 0 call 0 3 31, 7 0 call 0 4 7, 8 0 step 0 5 ok, 9 0 end 0 done",
            RUN,
        ),
        (
            11,
            "12 0 call 1 0 18446744073709551615, 13 0 end 1 done",
            RUN,
        ),
        (5, "6 0 step 0 3 ok", Verdict::Bad { at: 5 }),
        (7, "8 0 call 0 5 7", Verdict::Bad { at: 7 }),
    ],
};

/// What the trials' units call: function 0 returns the sum of its unit's number, accumulator and first key modulo 2^64; of other
/// functions nothing is known.
pub(crate) struct Sums;

// The sum modulo 2^64.
fn sum(unit: UnitNo, acc: u64, keys: &[u64]) -> u64
    ensures { result ≡ sum_of unit.0 acc keys.now }
{
    let key = keys.first().copied().unwrap_or(0);
    acc.wrapping_add(key).wrapping_add(u64::from(unit.0))
}

impl Work for Sums {
    ghost use Rattle.trials_check.specs.Sums.{summed};

    ghost count = { λ _. 2 ^ 32 };

    ghost returns = { λ _. summed };

    fn before_step(&self, _stream: StreamNo, _unit: UnitNo, _at: u32) {}

    fn watches(&self) -> bool {
        false
    }

    fn call(&self, function: u32, unit: UnitNo, acc: u64, keys: &[u64]) -> u64 {
        match function {
            0 => sum(unit, acc, keys),
            _ => acc,
        }
    }

    fn accepts(&self, function: u32, unit: UnitNo, acc: u64, keys: &[u64], value: u64) -> bool {
        match function {
            0 => value == sum(unit, acc, keys),
            _ => true,
        }
    }
}

/// The same if both stored orders are free.
pub(crate) static FREE: Case = Case {
    workload: THREE_POOLS,
    run: "1 0 miss 2, 2 0 miss 0, 3 0 miss 1, 4 0 miss 1",
    others: &[
        (1, "2 0 miss 2", Verdict::Bad { at: 1 }),
        (2, "3 0 miss 3", Verdict::Bad { at: 2 }),
    ],
};

// The text of the run's first `kept` lines, and of those of `rest`.
pub(crate) fn text_of(
    alloc: Global,
    run: &str,
    kept: usize,
    rest: &str,
) -> Result<String, AllocError> {
    let mut text = String::new(alloc);
    for line in run.split(", ").take(kept) {
        writeln!(text, "{line}")?;
    }
    for line in rest.split(", ") {
        if !line.is_empty() {
            writeln!(text, "{line}")?;
        }
    }
    Ok(text)
}

// What a text is judged to be, if it is a journal's.
pub(crate) fn verdict<P: Work>(
    rt: &impl Abort,
    alloc: Global,
    w: &Workload,
    orders: &[StoredOrder],
    work: &P,
    text: &str,
) -> Result<Option<Verdict>, Want>
    requires orders { 2 ≤ length orders.now }
    requires calls { CallsStored w.now (P.count work.now) }
{
    assert!(rt; text.len() < 10_000);
    let Ok(journal) = read_journal(alloc, text.as_bytes()) else {
        return Ok(None);
    };
    Ok(Some(check(alloc, w, orders, work, &journal)?))
}

// Whether a journal that begins as a run does is judged as it is said.
fn is_judged<P: Work>(
    rt: &impl Abort,
    alloc: Global,
    w: &Workload,
    orders: &[StoredOrder],
    work: &P,
    run: &str,
    other: Other,
) -> Result<bool, Want>
    requires orders { 2 ≤ length orders.now }
    requires calls { CallsStored w.now (P.count work.now) }
{
    let (kept, rest, wanted) = other;
    let text = text_of(alloc, run, kept, rest)?;
    Ok(verdict(rt, alloc, w, orders, work, &text)? == Some(wanted))
}

// The run and the other journals of a case, whose workload has been read, are judged as it says.
fn check_journals<P: Work>(
    rt: &impl Abort,
    alloc: Global,
    w: &Workload,
    orders: &[StoredOrder],
    work: &P,
    case: &Case,
) -> Result<(), Want>
    requires orders { 2 ≤ length orders.now }
    requires calls { CallsStored w.now (P.count work.now) }
{
    let is = is_judged(rt, alloc, w, orders, work, case.run, (usize::MAX, "", RUN))?;
    assert!(rt; is, "{}", case.run);
    for other in case.others {
        let is = is_judged(rt, alloc, w, orders, work, case.run, *other)?;
        assert!(rt; is, "{} of {}", other.1, case.run);
    }
    Ok(())
}

/// The run and the other journals of a case are judged as it says.
#[tactic(auto, using(crate::proofs::Functions::calls_stored))]
pub(crate) fn check_case<P: Work>(
    rt: &impl Abort,
    alloc: Global,
    orders: &[StoredOrder],
    work: &P,
    case: &Case,
) -> Result<(), Fail>
    requires orders { 2 ≤ length orders.now }
    requires functions { 8 ≤ P.count work.now }
{
    let w = read(alloc, case.workload.as_bytes())?;
    w.known();
    check_journals(rt, alloc, &w, orders, work, case)?;
    Ok(())
}

#[test]
fn journals_are_judged(rt: HostRuntime) -> Result<(), Fail> {
    let orders = [StoredOrder::rotating(), StoredOrder::mirroring()];
    for case in &CASES {
        check_case(&rt, rt.alloc(), &orders, &Sums, case)?;
    }
    Ok(())
}

#[test]
fn without_functions_any_word_is_right(rt: HostRuntime) -> Result<(), Fail> {
    let orders = [StoredOrder::rotating(), StoredOrder::mirroring()];
    check_case(&rt, rt.alloc(), &orders, &AnyWork, &WITHOUT_FUNCTIONS)
}
