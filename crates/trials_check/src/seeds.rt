//! Runs by seeds, and journals that are followed, worked out by hand.

ghost use Rattle.std.specs.Prelude.{◌≤◌, length};
ghost use Rattle.abt_machine.specs.Stored.{CallsStored};

use crate::checks::{
    EXIT, EXIT_RUN, HI, HI_RUN, RW_WAITERS, RW_WAITERS_RUN, STACKED, STACKED_RUN, text_of,
};
use abt_machine::{Outcome, StreamNo, Workload};
use abt_order::StoredOrder;
use abt_report::{journal_text, read_journal};
use abt_schedule::{Followed, follow_schedule, run_seeded};
use abt_work::{AnyWork, Work};
use abt_workload::read;
use std::alloc::Global;
use std::process::Abort;
use std::test::Fail;

// A workload, a seed, and the events of its run.
struct Seeded {
    workload: &'static str,
    seed: u64,
    run: &'static str,
}

// Two streams, each with a unit that says a word.
const ABREAST: &str =
    "abt 1\nstreams 2\npool 0 fifo mpmc\npool 1 fifo mpmc\nsched 0 prio 0\nsched 1 prio 1\nstream 0 main 0\nstream 1 main 1\nunits 2\nunit 0 ult at 0\nsay a\nunit 1 ult at 1\nsay b\nend\n";

const ZERO_FIRST: &str =
    "1 0 take 0 0, 2 0 look 0, 3 0 step 0 0 ok, 4 1 take 1 1, 5 1 look 1, 6 1 step 1 0 ok, 7 0 end 0 done, 8 0 miss 0, 9 1 end 1 done, 10 1 miss 1";

// Where a workload has one stream, the seed is without effect. With two streams a rotation's first word, modulo 2, is the number
// of its first stream, and the second word is without effect. By PCG32's definition, with 2 as the number of the sequence, the
// first and the third word are even for seed 0, odd for seed 1, odd and even for seed 2, even and odd for seed 8, and both odd for
// the greatest seed.
static SEEDS: [Seeded; 10] = [
    Seeded {
        workload: HI,
        seed: 0,
        run: HI_RUN,
    },
    Seeded {
        workload: HI,
        seed: 7,
        run: HI_RUN,
    },
    Seeded {
        workload: EXIT,
        seed: 1,
        run: EXIT_RUN,
    },
    Seeded {
        workload: STACKED,
        seed: 2,
        run: STACKED_RUN,
    },
    Seeded {
        workload: RW_WAITERS,
        seed: 3,
        run: RW_WAITERS_RUN,
    },
    Seeded {
        workload: ABREAST,
        seed: 0,
        run: ZERO_FIRST,
    },
    Seeded {
        workload: ABREAST,
        seed: 1,
        run: "1 1 take 1 1, 2 1 look 1, 3 1 step 1 0 ok, 4 0 take 0 0, 5 0 look 0, 6 0 step 0 0 ok, 7 1 end 1 done, 8 1 miss 1, 9 0 end 0 done, 10 0 miss 0",
    },
    Seeded {
        workload: ABREAST,
        seed: 2,
        run: "1 1 take 1 1, 2 1 look 1, 3 1 step 1 0 ok, 4 0 take 0 0, 5 0 look 0, 6 0 step 0 0 ok, 7 0 end 0 done, 8 0 miss 0, 9 1 end 1 done, 10 1 miss 1",
    },
    Seeded {
        workload: ABREAST,
        seed: 8,
        run: "1 0 take 0 0, 2 0 look 0, 3 0 step 0 0 ok, 4 1 take 1 1, 5 1 look 1, 6 1 step 1 0 ok, 7 1 end 1 done, 8 1 miss 1, 9 0 end 0 done, 10 0 miss 0",
    },
    Seeded {
        workload: ABREAST,
        seed: u64::MAX,
        run: "1 1 take 1 1, 2 1 look 1, 3 1 step 1 0 ok, 4 0 take 0 0, 5 0 look 0, 6 0 step 0 0 ok, 7 1 end 1 done, 8 1 miss 1, 9 0 end 0 done, 10 0 miss 0",
    },
];

// What comes of following a journal.
#[derive(Clone, Copy, Debug, PartialEq, Eq)]
enum Came {
    // Only so many of its first events are a run.
    Bad(u64),
    // It could go on.
    Open,
    // It ended so.
    Ended(Outcome),
}

// A workload, a run of it, how many of its events are followed, an event that comes after these, if one does, how many steps each stream
// may make, and what comes of it.
struct Row {
    workload: &'static str,
    run: &'static str,
    kept: usize,
    rest: &'static str,
    steps: u64,
    came: Came,
}

static ROWS: [Row; 8] = [
    Row {
        workload: HI,
        run: HI_RUN,
        kept: 0,
        rest: "",
        steps: 10,
        came: Came::Open,
    },
    Row {
        workload: HI,
        run: HI_RUN,
        kept: 3,
        rest: "",
        steps: 1,
        came: Came::Open,
    },
    Row {
        workload: HI,
        run: HI_RUN,
        kept: 4,
        rest: "",
        steps: 1,
        came: Came::Ended(Outcome::Finished),
    },
    Row {
        workload: HI,
        run: HI_RUN,
        kept: 2,
        rest: "3 0 end 0 done",
        steps: 10,
        came: Came::Bad(2),
    },
    Row {
        workload: EXIT,
        run: EXIT_RUN,
        kept: 3,
        rest: "",
        steps: 1,
        came: Came::Ended(Outcome::Budget(StreamNo(0))),
    },
    Row {
        workload: EXIT,
        run: EXIT_RUN,
        kept: 3,
        rest: "",
        steps: 2,
        came: Came::Open,
    },
    Row {
        workload: ABREAST,
        run: ZERO_FIRST,
        kept: 8,
        rest: "",
        steps: 10,
        came: Came::Open,
    },
    Row {
        workload: "abt 1\nstreams 1\npool 0 fifo mpmc\nsched 0 prio 0\nstream 0 main 0\nunits 1\nunit 0 ult at 0\nsuspend\nend\n",
        run: "1 0 take 0 0, 2 0 look 0, 3 0 step 0 0 ok",
        kept: 3,
        rest: "",
        steps: 10,
        came: Came::Ended(Outcome::Stuck),
    },
];

// What came of following a journal.
fn outcome_of(followed: &Followed) -> Came {
    match followed {
        Followed::Bad { at } => Came::Bad(*at),
        Followed::Left(left) => match left.end {
            None => Came::Open,
            Some(outcome) => Came::Ended(outcome),
        },
    }
}

// The seed makes the row's run, which finishes, also if its journal is followed.
fn check_seeded<P: Work>(
    rt: &impl Abort,
    alloc: Global,
    w: &Workload,
    orders: &[StoredOrder],
    work: &P,
    row: &Seeded,
) -> Result<(), Fail>
    requires orders { 2 ≤ length orders.now }
    requires calls { CallsStored w.now (P.count work.now) }
{
    let left = run_seeded(alloc, w, orders, work, row.seed, 100)?;
    let made = journal_text(alloc, &left.journal)?;
    let wanted = text_of(alloc, row.run, usize::MAX, "")?;
    assert!(rt;
        made.as_slice() == wanted.as_bytes(),
        "{} {}",
        row.seed,
        row.workload
    );
    assert!(rt;
        left.outcome == Outcome::Finished,
        "{} {}",
        row.seed,
        row.workload
    );
    let followed = follow_schedule(alloc, w, orders, work, &left.journal, 100)?;
    assert!(rt;
        outcome_of(&followed) == Came::Ended(Outcome::Finished),
        "{} {}",
        row.seed,
        row.workload
    );
    Ok(())
}

// The row's journal leads where the row says.
fn check_followed<P: Work>(
    rt: &impl Abort,
    alloc: Global,
    w: &Workload,
    orders: &[StoredOrder],
    work: &P,
    row: &Row,
) -> Result<(), Fail>
    requires orders { 2 ≤ length orders.now }
    requires calls { CallsStored w.now (P.count work.now) }
{
    let text = text_of(alloc, row.run, row.kept, row.rest)?;
    assert!(rt; text.len() < 10_000);
    let journal = read_journal(alloc, text.as_bytes())?;
    let followed = follow_schedule(alloc, w, orders, work, &journal, row.steps)?;
    assert!(rt;
        outcome_of(&followed) == row.came,
        "{} {}",
        row.kept,
        row.workload
    );
    Ok(())
}

// The same as `check_seeded`, of a workload that is still to be read.
#[tactic(auto, using(crate::proofs::Functions::calls_stored))]
fn read_seeded<P: Work>(
    rt: &impl Abort,
    alloc: Global,
    orders: &[StoredOrder],
    work: &P,
    row: &Seeded,
) -> Result<(), Fail>
    requires orders { 2 ≤ length orders.now }
    requires functions { 8 ≤ P.count work.now }
{
    let w = read(alloc, row.workload.as_bytes())?;
    w.known();
    check_seeded(rt, alloc, &w, orders, work, row)
}

// The same as `check_followed`, of a workload that is still to be read.
#[tactic(auto, using(crate::proofs::Functions::calls_stored))]
fn read_followed<P: Work>(
    rt: &impl Abort,
    alloc: Global,
    orders: &[StoredOrder],
    work: &P,
    row: &Row,
) -> Result<(), Fail>
    requires orders { 2 ≤ length orders.now }
    requires functions { 8 ≤ P.count work.now }
{
    let w = read(alloc, row.workload.as_bytes())?;
    w.known();
    check_followed(rt, alloc, &w, orders, work, row)
}

#[test]
fn seeds_make_runs(rt: HostRuntime) -> Result<(), Fail> {
    let orders = [StoredOrder::rotating(), StoredOrder::mirroring()];
    for row in &SEEDS {
        read_seeded(&rt, rt.alloc(), &orders, &AnyWork, row)?;
    }
    Ok(())
}

#[test]
fn journals_are_followed(rt: HostRuntime) -> Result<(), Fail> {
    let orders = [StoredOrder::rotating(), StoredOrder::mirroring()];
    for row in &ROWS {
        read_followed(&rt, rt.alloc(), &orders, &AnyWork, row)?;
    }
    Ok(())
}
