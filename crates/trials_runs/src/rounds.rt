//! Rounds of one scheduler over one to eight pools, by each rule, and a run whose rounds go by a free order.

ghost use Rattle.std.specs.Prelude.{◌≡◌, ◌<◌, ◌≤◌, ◌+◌, ◌-◌, ◌%◌, ◌^◌};
ghost use Rattle.abt_machine.specs.Limits.{listed_limit};
ghost use Rattle.abt_order.specs.Schedulers.{IsSchedulerOf, IsStored};

use crate::reports::is_text_of;
use abt_drain::drain;
use abt_machine::{OrderShape, PoolNo, SchedNo, Want, Workload};
use abt_order::{Scheduler, StoredOrder, mirror, rotate};
use abt_workload::read;
use std::alloc::{AllocError, Global};
use std::process::Abort;
use std::test::Fail;

// Eight pools: for BASIC 1 and 6 are of the first class, 2, 3 and 7 of the second, and 0, 4 and 5 of the last.
static HEAD: &str = "abt 1
streams 2
pool 0 fifo mpmc
pool 1 fifo priv of 0
pool 2 deque spsc from 0 to 1
pool 3 fifo mpsc to 0
pool 4 deque spmc from 1
pool 5 fifo mpmc
pool 6 deque priv of 1
pool 7 fifo mpsc to 1
";

static END: &str = "stream 0 main 0\nstream 1 main 1\nunits 0\nend\n";

// The number of the scheduler that is tried. PCG32's published words are those of stream 54 with seed 42.
const TRIED: u32 = 54;

// The rule and the pools of the scheduler that is tried, and the pools of its rounds, from round 0 on.
type Row = (&'static str, &'static [&'static [u32]]);

// PRIO, BASIC and RANDWS. The published words are a15c02b7, 7b47f409, ba1d3330, 83d2f293, bfa4784b and cbed606e: their
// remainders by 3 are 0, 0, 2, 1, 1 and 1, and by 7 they are 4, 4, 6, 0, 3 and 2.
static PLAIN: [Row; 13] = [
    ("prio 5", &[&[5], &[5]]),
    ("prio 5 2", &[&[5, 2], &[5, 2]]),
    ("prio 4 1 7 0", &[&[4, 1, 7, 0], &[4, 1, 7, 0]]),
    (
        "prio 7 4 1 5 3 0 6 2",
        &[&[7, 4, 1, 5, 3, 0, 6, 2], &[7, 4, 1, 5, 3, 0, 6, 2]],
    ),
    ("basic 5", &[&[5], &[5]]),
    ("basic 0 1", &[&[1, 0], &[1, 0]]),
    ("basic 4 3", &[&[3, 4], &[3, 4]]),
    ("basic 0 7 2 6", &[&[6, 7, 2, 0], &[6, 7, 2, 0]]),
    (
        "basic 5 4 3 2 6 0 1 7",
        &[&[6, 1, 3, 2, 7, 5, 4, 0], &[6, 1, 3, 2, 7, 5, 4, 0]],
    ),
    ("randws 42 5", &[&[5], &[5], &[5], &[5], &[5], &[5]]),
    (
        "randws 42 5 2",
        &[&[5, 2], &[5, 2], &[5, 2], &[5, 2], &[5, 2], &[5, 2]],
    ),
    (
        "randws 42 4 1 7 0",
        &[
            &[4, 1, 7, 0],
            &[4, 1, 7, 0],
            &[4, 0, 1, 7],
            &[4, 7, 0, 1],
            &[4, 7, 0, 1],
            &[4, 7, 0, 1],
        ],
    ),
    (
        "randws 42 7 4 1 5 3 0 6 2",
        &[
            &[7, 0, 6, 2, 4, 1, 5, 3],
            &[7, 0, 6, 2, 4, 1, 5, 3],
            &[7, 2, 4, 1, 5, 3, 0, 6],
            &[7, 4, 1, 5, 3, 0, 6, 2],
            &[7, 3, 0, 6, 2, 4, 1, 5],
            &[7, 5, 3, 0, 6, 2, 4, 1],
        ],
    ),
];

// Order 0 rotates.
static ROTATED: [Row; 4] = [
    ("user 0 5", &[&[5], &[5]]),
    ("user 0 5 2", &[&[5, 2], &[2, 5], &[5, 2]]),
    (
        "user 0 4 1 7 0",
        &[
            &[4, 1, 7, 0],
            &[1, 7, 0, 4],
            &[7, 0, 4, 1],
            &[0, 4, 1, 7],
            &[4, 1, 7, 0],
        ],
    ),
    (
        "user 0 7 4 1 5 3 0 6 2",
        &[
            &[7, 4, 1, 5, 3, 0, 6, 2],
            &[4, 1, 5, 3, 0, 6, 2, 7],
            &[1, 5, 3, 0, 6, 2, 7, 4],
        ],
    ),
];

// Order 1 mirrors. So does a free order that answers the places from the last one down, as 1 and 0 for two places.
static MIRRORED: [Row; 4] = [
    ("user 1 5", &[&[5], &[5]]),
    ("user 1 5 2", &[&[2, 5], &[2, 5]]),
    ("user 1 4 1 7 0", &[&[0, 7, 1, 4], &[0, 7, 1, 4]]),
    (
        "user 1 7 4 1 5 3 0 6 2",
        &[&[2, 6, 0, 3, 5, 1, 4, 7], &[2, 6, 0, 3, 5, 1, 4, 7]],
    ),
];

// Order 0 is free and answers the last place each time, as 1 and 1 for two places: each place but the first then gets the one
// that follows cyclically.
static LAST: [Row; 4] = [
    ("user 0 5", &[&[5], &[5]]),
    ("user 0 5 2", &[&[2, 5], &[2, 5]]),
    ("user 0 4 1 7 0", &[&[0, 4, 1, 7], &[0, 4, 1, 7]]),
    (
        "user 0 7 4 1 5 3 0 6 2",
        &[&[2, 7, 4, 1, 5, 3, 0, 6], &[2, 7, 4, 1, 5, 3, 0, 6]],
    ),
];

// A free order that answers by the round, over three, five, six and seven pools.
static TURNED: [Row; 4] = [
    (
        "user 0 4 1 7",
        &[&[4, 1, 7], &[1, 7, 4], &[7, 4, 1], &[4, 1, 7]],
    ),
    (
        "user 0 4 1 7 0 2",
        &[&[4, 1, 7, 0, 2], &[1, 7, 0, 2, 4], &[7, 0, 2, 4, 1]],
    ),
    (
        "user 0 4 1 7 0 2 6",
        &[
            &[4, 1, 7, 0, 2, 6],
            &[1, 7, 0, 2, 6, 4],
            &[7, 0, 2, 6, 4, 1],
        ],
    ),
    (
        "user 0 4 1 7 0 2 6 3",
        &[
            &[4, 1, 7, 0, 2, 6, 3],
            &[1, 7, 0, 2, 6, 3, 4],
            &[7, 0, 2, 6, 3, 4, 1],
        ],
    ),
];

// Two units of the first of two pools, which a stream visits by order 0.
static BY_ORDER: &str =
    "abt 1\nstreams 1\npool 0 fifo mpmc\npool 1 fifo mpmc\nsched 0 user 0 0 1\nstream 0 main 0\nunits 2\nunit 0 ult at 0\nunit 1 ult at 0\nend\n";

// The journal of a run of theirs, in which each round begins at the other pool.
const LAST_FIRST: &str =
    "1 0 miss 1\n2 0 take 0 0\n3 0 look 0\n4 0 end 0 done\n5 0 miss 1\n6 0 take 0 1\n7 0 look 1\n8 0 end 1 done\n9 0 miss 1\n10 0 miss 0\n";

// The text of a workload whose scheduler that is tried has this rule and these pools.
fn text(alloc: Global, rule: &str) -> Result<String, AllocError> {
    let mut text = String::from_str(alloc, HEAD)?;
    for g in 0..TRIED {
        writeln!(text, "sched {g} prio 0")?;
    }
    writeln!(text, "sched {TRIED} {rule}")?;
    text.push_str(END)?;
    Ok(text)
}

// The scheduler that is tried, before its round 0. If it names a stored order, that is order 0 or 1.
fn tried(rt: &impl Abort, w: &Workload) -> Scheduler
    ensures scheduler { IsSchedulerOf w.now result }
    ensures stored { IsStored w.now result.number 2 }
    ensures round { result.round ≡ 0 }
{
    assert!(rt; TRIED < w.scheds());
    w.known();
    Scheduler::new(w, SchedNo(TRIED))
}

// The next round's list. If memory is refused the round is asked for once more: it is the same one.
fn next_round(
    alloc: Global,
    scheduler: &mut Scheduler,
    w: &Workload,
    orders: &[StoredOrder; 2],
) -> Result<Vec<PoolNo>, Want>
    requires scheduler { IsSchedulerOf w.now scheduler.old }
    requires stored { IsStored w.now scheduler.old.number 2 }
    requires counted { scheduler.old.round + 1 < 2 ^ 64 }
    ensures scheduler { IsSchedulerOf w.now scheduler.new }
    ensures number { scheduler.new.number ≡ scheduler.old.number }
    ensures round { scheduler.new.round ≤ scheduler.old.round + 1 }
{
    match scheduler.round(alloc, w, orders) {
        Ok(order) => Ok(order),
        Err(Want) => scheduler.round(alloc, w, orders),
    }
}

// As `next_round`, in the list of an earlier round, which stays as it is if the scheduler remembers it.
fn next_round_into(
    scheduler: &mut Scheduler,
    w: &Workload,
    orders: &[StoredOrder; 2],
    order: &mut Vec<PoolNo>,
) -> Result<(), Want>
    requires scheduler { IsSchedulerOf w.now scheduler.old }
    requires stored { IsStored w.now scheduler.old.number 2 }
    requires counted { scheduler.old.round + 1 < 2 ^ 64 }
    ensures scheduler { IsSchedulerOf w.now scheduler.new }
    ensures number { scheduler.new.number ≡ scheduler.old.number }
    ensures round { scheduler.new.round ≤ scheduler.old.round + 1 }
{
    if scheduler.is_fixed() {
        scheduler.round_again(w);
        return Ok(());
    }
    match scheduler.round_into(w, orders, order) {
        Ok(()) => Ok(()),
        Err(Want) => scheduler.round_into(w, orders, order),
    }
}

// Whether these are the pools of these numbers.
fn are(order: &[PoolNo], wanted: &[u32]) -> bool {
    order.len() == wanted.len() && order.iter().zip(wanted).all(|(p, number)| p.0 == *number)
}

// Whether the rounds of the scheduler that is tried are these: in a list each, and in the list of the round before.
fn are_rounds(
    rt: &impl Abort,
    alloc: Global,
    w: &Workload,
    orders: &[StoredOrder; 2],
    rounds: &[&[u32]],
) -> Result<bool, Want> {
    let mut scheduler = tried(rt, w);
    let mut other = tried(rt, w);
    let mut kept = Vec::new(alloc);
    for wanted in rounds {
        let order = next_round(alloc, &mut scheduler, w, orders)?;
        next_round_into(&mut other, w, orders, &mut kept)?;
        if !are(&order, wanted) || !are(&kept, wanted) {
            return Ok(false);
        }
    }
    Ok(true)
}

// The rounds of a row are those that it says.
fn check(
    rt: &impl Abort,
    alloc: Global,
    orders: &[StoredOrder; 2],
    (rule, rounds): Row,
) -> Result<(), Fail> {
    let text = text(alloc, rule)?;
    let w = read(alloc, text.as_bytes())?;
    let are = are_rounds(rt, alloc, &w, orders, rounds)?;
    assert!(rt; are, "{rule}");
    Ok(())
}

// The rounds of each row are those that it says.
fn check_all(
    rt: &impl Abort,
    alloc: Global,
    orders: &[StoredOrder; 2],
    rows: &[Row],
) -> Result<(), Fail> {
    for row in rows {
        check(rt, alloc, orders, *row)?;
    }
    Ok(())
}

// The answer of shape Rotate. A value may be made of a function of this crate alone.
fn turn(round: u64, n: u32, i: u32) -> u32
    requires count { (0 < n) × (n ≤ listed_limit) }
    requires place { i < n }
    ensures { result ≡ (round + i) % n }
{
    rotate(round, n, i)
}

// The answer of shape Mirror.
fn turn_round(round: u64, n: u32, i: u32) -> u32
    requires count { (0 < n) × (n ≤ listed_limit) }
    requires place { i < n }
    ensures { result ≡ n - 1 - i }
{
    mirror(round, n, i)
}

// The last place, whatever place is asked for.
fn last(_round: u64, n: u32, _i: u32) -> u32
    requires { 0 < n }
    ensures { result + 1 ≡ n }
{
    n - 1
}

#[test]
fn rounds_go_by_the_rule(rt: HostRuntime) -> Result<(), Fail> {
    let alloc = rt.alloc();
    let orders = [StoredOrder::rotating(), StoredOrder::mirroring()];
    check_all(&rt, alloc, &orders, &PLAIN)?;
    check_all(&rt, alloc, &orders, &ROTATED)?;
    check_all(&rt, alloc, &orders, &MIRRORED)
}

#[test]
fn free_orders_are_made_permutations(rt: HostRuntime) -> Result<(), Fail> {
    let alloc = rt.alloc();
    let orders = [
        StoredOrder::new(OrderShape::Free, Box::new(alloc, last)?),
        StoredOrder::new(OrderShape::Free, Box::new(alloc, turn_round)?),
    ];
    check_all(&rt, alloc, &orders, &LAST)?;
    check_all(&rt, alloc, &orders, &MIRRORED)?;
    let orders = [
        StoredOrder::new(OrderShape::Free, Box::new(alloc, turn)?),
        StoredOrder::new(OrderShape::Free, Box::new(alloc, last)?),
    ];
    check_all(&rt, alloc, &orders, &TURNED)
}

// Whether that is the journal of the run by these orders.
fn goes_last_first(alloc: Global, orders: &[StoredOrder; 2]) -> Result<bool, Fail> {
    let w = read(alloc, BY_ORDER.as_bytes())?;
    let run = drain(alloc, &w, orders, 10_000, true)?;
    match &run.journal {
        Some(journal) => Ok(is_text_of(alloc, journal, LAST_FIRST)),
        None => Ok(false),
    }
}

#[test]
fn a_run_goes_by_its_free_order(rt: HostRuntime) -> Result<(), Fail> {
    let alloc = rt.alloc();
    let orders = [
        StoredOrder::new(OrderShape::Free, Box::new(alloc, turn_round)?),
        StoredOrder::new(OrderShape::Free, Box::new(alloc, turn)?),
    ];
    let is = goes_last_first(alloc, &orders)?;
    assert!(rt; is, "the order answers 1 and 0");
    let orders = [
        StoredOrder::new(OrderShape::Free, Box::new(alloc, last)?),
        StoredOrder::new(OrderShape::Free, Box::new(alloc, turn)?),
    ];
    let is = goes_last_first(alloc, &orders)?;
    assert!(rt; is, "the order answers 1 and 1");
    Ok(())
}
