//! Turns of one stream, event by event: each operation, granted and refused, stacked frames, and rounds of a free order.

ghost use Rattle.std.specs.Prelude.{ℕ, ◌≡◌, ◌<◌, OnOk, length};
ghost use Rattle.abt_order.specs.Schedulers.{IsStored};
ghost use Rattle.abt_stream.specs.Streams.{FitsStream};
ghost use Rattle.abt_stream.specs.Turned.{IsReady};

use crate::reports::is_text_of;
use abt_commons::{Objects, Plain, PlainPass};
use abt_machine::{Event, Journal, OrderShape, StreamNo, Want, Workload};
use abt_order::StoredOrder;
use abt_stream::{Stream, StreamParts, Turn};
use abt_work::AnyWork;
use abt_workload::read;
use std::alloc::{AllocError, Global};
use std::process::Abort;
use std::test::Fail;

// Stream 0 serves the pools 0 and 1, and stream 1 alone pool 2. The schedulers from 2 on are for units: 3 is not for stream 0,
// and 6 and 7 go by stored order 0.
static HEAD: &str = "abt 1
streams 2
keys 1
pool 0 fifo mpmc
pool 1 fifo mpmc
pool 2 fifo priv of 1
pool 3 fifo mpmc
pool 4 fifo mpmc
pool 5 fifo mpmc
sched 0 prio 0 1
sched 1 prio 2
sched 2 prio 3
sched 3 prio 2
sched 4 prio 4
sched 5 prio 5
sched 6 user 0 3 4
sched 7 user 0 3 4 5
stream 0 main 0
stream 1 main 1
object 0 mutex
object 1 cond 0
object 2 eventual
object 3 future 2 sum
object 4 barrier 2
";

// How many turns a row has at most.
const MOST: u64 = 100;

// The lines of the units, how many steps stream 0 may make, and its events until it has nothing to do or has made its steps.
#[derive(Clone, Copy)]
struct Row {
    units: &'static str,
    steps: u64,
    events: &'static str,
}

// Local operations, and those by which a unit leaves the hand alone.
static OWN: [Row; 5] = [
    Row {
        units: "units 1\nunit 0 ult at 0\nset 5\nadd 1\nsay hi\nprint\nkset 0\nkget 0\n",
        steps: 9,
        events: "take 0 0, look 0, step 0 0 ok, step 0 1 ok, step 0 2 ok, step 0 3 ok, step 0 4 ok, step 0 5 ok, end 0 done, miss 0, miss 1",
    },
    Row {
        units: "units 2\nunit 0 ult at 0\nyieldto 1 0\nyieldto 1 0\nyieldto 1 2\nyield\nunit 1 ult at 0\n",
        steps: 9,
        events: "take 0 0, look 0, step 0 0 ok, put 0 0, look 1, end 1 done, take 0 0, look 0, step 0 1 absent, step 0 2 pool-access, step 0 3 ok, put 0 0, take 0 0, look 0, end 0 done, miss 0, miss 1",
    },
    Row {
        units: "units 2\nunit 0 ult at 0\nsuspend\nunit 1 ult at 0\nresume 0\nresume 0\n",
        steps: 9,
        events: "take 0 0, look 0, step 0 0 ok, take 0 1, look 1, step 1 0 ok, put 0 0, step 1 1 unit-state, end 1 done, take 0 0, look 0, end 0 done, miss 0, miss 1",
    },
    Row {
        units: "units 1\nunit 0 ult at 0\nset 1\nexit\nset 2\n",
        steps: 9,
        events: "take 0 0, look 0, step 0 0 ok, step 0 1 ok, end 0 own, miss 0, miss 1",
    },
    Row {
        units: "units 1\nunit 0 ult at 0\nset 1\nset 2\n",
        steps: 1,
        events: "take 0 0, look 0, step 0 0 ok",
    },
];

// Operations on other units.
static UNITS: [Row; 6] = [
    Row {
        units: "units 3\nunit 0 ult at 0\ncreate 1 0\ncreate 1 0\ncreate 2 2\nunit 1 ult later\nunit 2 ult later\n",
        steps: 9,
        events: "take 0 0, look 0, step 0 0 ok, put 1 0, step 0 1 exists, step 0 2 pool-access, end 0 done, take 0 1, look 1, end 1 done, miss 0, miss 1",
    },
    Row {
        units: "units 2\nunit 0 ult at 0\njoin 1\njoin 1\nunit 1 ult at 0\n",
        steps: 9,
        events: "take 0 0, look 0, step 0 0 ok, take 0 1, look 1, end 1 done, put 0 0, take 0 0, look 0, step 0 1 ok, end 0 done, miss 0, miss 1",
    },
    Row {
        units: "units 3\nunit 0 ult at 0\ncancel 1\nmigrate 1 1\ncancel 2\nunit 1 ult at 0\nset 1\nunit 2 ult later\n",
        steps: 9,
        events: "take 0 0, look 0, step 0 0 ok, step 0 1 ok, step 0 2 unit-state, end 0 done, take 0 1, look 1, end 1 asked, miss 0, miss 1",
    },
    Row {
        units: "units 4\nunit 0 ult at 0\nmigratable 1 0\nmigrate 1 1\nmigratable 1 1\nmigrate 1 1\nmigrate 2 1\nmigrate 1 2\nmigratable 3 0\nunit 1 ult at 0\nunit 2 ult later\nunit 3 sched 2 later\n",
        steps: 9,
        events: "take 0 0, look 0, step 0 0 ok, step 0 1 not-migratable, step 0 2 ok, step 0 3 ok, step 0 4 unit-state, step 0 5 pool-access, step 0 6 not-migratable, end 0 done, take 0 1, look 1, put 1 1, miss 0, take 1 1, look 1, end 1 done, miss 0, miss 1",
    },
    Row {
        units: "units 2\nunit 0 ult at 0\nmigrateto 1 0\nmigrateto 1 1\nunit 1 ult at 1\n",
        steps: 9,
        events: "take 0 0, look 0, step 0 0 ok, step 0 1 pool-access, end 0 done, miss 0, take 1 1, look 1, put 1 0, take 0 1, look 1, end 1 done, miss 0, miss 1",
    },
    Row {
        units: "units 2\nunit 0 ult at 0\njoin 1\nrevive 1 0\nrevive 1 0\nrevive 1 2\nunit 1 ult at 0\n",
        steps: 9,
        events: "take 0 0, look 0, step 0 0 ok, take 0 1, look 1, end 1 done, put 0 0, take 0 0, look 0, step 0 1 ok, put 1 0, step 0 2 unit-state, step 0 3 pool-access, end 0 done, take 0 1, look 1, end 1 done, miss 0, miss 1",
    },
];

// Operations on objects.
static OBJECTS: [Row; 5] = [
    Row {
        units: "units 2\nunit 0 ult at 0\nlock 0\ntrylock 0\nload 0\nstore 0\nyield\nunlock 0\nunlock 0\nload 0\nstore 0\nunit 1 ult at 0\nlock 0\nunlock 0\ntrylock 0\n",
        steps: 12,
        events: "take 0 0, look 0, step 0 0 ok, step 0 1 mutex-locked, step 0 2 ok, step 0 3 ok, step 0 4 ok, put 0 0, take 0 1, look 1, step 1 0 ok, take 0 0, look 0, step 0 5 ok, put 1 0, step 0 6 not-owner, step 0 7 not-owner, step 0 8 not-owner, end 0 done, take 0 1, look 1, step 1 1 ok, step 1 2 ok, end 1 done, miss 0, miss 1",
    },
    Row {
        units: "units 2\nunit 0 ult at 0\ncwait 1\nlock 0\ncwait 1\nunlock 0\nunit 1 ult at 0\nlock 0\nsignal 1\nbroadcast 1\nunlock 0\n",
        steps: 9,
        events: "take 0 0, look 0, step 0 0 not-owner, step 0 1 ok, step 0 2 ok, take 0 1, look 1, step 1 0 ok, step 1 1 ok, step 1 2 ok, step 1 3 ok, put 0 0, end 1 done, take 0 0, look 0, step 0 3 ok, end 0 done, miss 0, miss 1",
    },
    Row {
        units: "units 2\nunit 0 ult at 0\newait 2\netest 2\nunit 1 ult at 0\netest 2\neset 2\neset 2\newait 2\nereset 2\n",
        steps: 9,
        events: "take 0 0, look 0, step 0 0 ok, take 0 1, look 1, step 1 0 ok, step 1 1 ok, put 0 0, step 1 2 eventual-set, step 1 3 ok, step 1 4 ok, end 1 done, take 0 0, look 0, step 0 1 ok, end 0 done, miss 0, miss 1",
    },
    Row {
        units: "units 2\nunit 0 ult at 0\nfwait 3\nunit 1 ult at 0\nfset 3\nftest 3\nfset 3\nfset 3\nfwait 3\nfreset 3\n",
        steps: 9,
        events: "take 0 0, look 0, step 0 0 ok, take 0 1, look 1, step 1 0 ok, step 1 1 ok, step 1 2 ok, put 0 0, step 1 3 future-full, step 1 4 ok, step 1 5 ok, end 1 done, take 0 0, look 0, end 0 done, miss 0, miss 1",
    },
    Row {
        units: "units 2\nunit 0 ult at 0\nbwait 4\nunit 1 ult at 0\nbwait 4\n",
        steps: 9,
        events: "take 0 0, look 0, step 0 0 ok, take 0 1, look 1, step 1 0 ok, put 0 0, end 1 done, take 0 0, look 0, end 0 done, miss 0, miss 1",
    },
];

// Frames three deep, a scheduler whose pool the stream must not reach, and a free order over two and three pools. In the rounds
// 0 and 2 it answers the last place each time, so the others follow cyclically; in round 1 the first.
static FRAMES: [Row; 4] = [
    Row {
        units: "units 4\nunit 0 sched 2 at 0\nunit 1 sched 4 at 3\nunit 2 sched 5 at 4\nunit 3 ult at 5\n",
        steps: 9,
        events: "take 0 0, look 0, enter 0, take 3 1, look 1, enter 1, take 4 2, look 2, enter 2, take 5 3, look 3, end 3 done, miss 5, leave 2, end 2 done, miss 4, leave 1, end 1 done, miss 3, leave 0, end 0 done, miss 0, miss 1",
    },
    Row {
        units: "units 1\nunit 0 sched 3 at 0\n",
        steps: 9,
        events: "take 0 0, look 0, end 0 access, miss 0, miss 1",
    },
    Row {
        units: "units 3\nunit 0 sched 6 at 0\nunit 1 ult at 3\nunit 2 ult at 3\n",
        steps: 9,
        events: "take 0 0, look 0, enter 0, miss 4, take 3 1, look 1, end 1 done, take 3 2, look 2, end 2 done, miss 4, miss 3, leave 0, end 0 done, miss 0, miss 1",
    },
    Row {
        units: "units 3\nunit 0 sched 7 at 0\nunit 1 ult at 3\nunit 2 ult at 3\n",
        steps: 9,
        events: "take 0 0, look 0, enter 0, miss 5, take 3 1, look 1, end 1 done, take 3 2, look 2, end 2 done, miss 5, miss 3, miss 4, leave 0, end 0 done, miss 0, miss 1",
    },
];

// The text of the workload with these units.
fn text(alloc: Global, units: &str) -> Result<String, AllocError> {
    let mut text = String::from_str(alloc, HEAD)?;
    text.push_str(units)?;
    text.push_str("end\n")?;
    Ok(text)
}

// The text of a journal of stream 0 with these events, whose stamps are 1, 2, 3 and so on.
fn journal(alloc: Global, events: &str) -> Result<String, AllocError> {
    let mut text = String::new(alloc);
    let mut stamp: u64 = 0;
    for event in events.split(", ") {
        stamp = stamp.saturating_add(1);
        writeln!(text, "{stamp} 0 {event}")?;
    }
    Ok(text)
}

// In round 1 the first place, and else the last one, whatever place is asked for.
fn first_once(round: u64, n: u32, _i: u32) -> u32
    requires { 0 < n }
    ensures { result < n }
{
    if round == 1 { 0 } else { n - 1 }
}

// If a workload names a stored order, that is one of the two.
fn check_orders(w: &Workload)
    ensures { (g : ℕ) → IsStored w.now g 2 }
{
    w.known();
}

// What is seen of a stream: how many events it made, the last of them, and whether it is idle and spent.
fn seen(stream: &Stream, w: &Workload) -> (u64, Option<Event>, bool, bool)
    requires { FitsStream w.now stream.now }
{
    let last = match stream.kept() {
        Some(log) => log.last().copied(),
        None => None,
    };
    (stream.written(), last, stream.is_idle(), stream.is_spent(w))
}

// What the next turn needs. If memory is refused, the same is seen of the stream as before, and it is asked for once more. That
// the stream also holds what it held, and has the same next round, shows in the events that follow, which the row says.
fn prepare(
    rt: &impl Abort,
    stream: &mut Stream,
    w: &Workload,
    orders: &[StoredOrder],
) -> Result<(), Want>
    requires stored { (g : ℕ) → IsStored w.now g (length orders.now) }
    requires fits { FitsStream w.now stream.old }
    ensures ready { OnOk result (IsReady w.now stream.new) }
    ensures fits { FitsStream w.now stream.new }
{
    let before = seen(stream, w);
    match stream.prepare(w, orders) {
        Ok(()) => Ok(()),
        Err(Want) => {
            assert!(rt; seen(stream, w) == before);
            stream.prepare(w, orders)
        }
    }
}

// Whether this was the stream's last turn: it has made its steps, or its round was empty and it is idle.
fn ends(turn: Turn, idle: bool) -> bool {
    match turn {
        Turn::Spent | Turn::Worn => true,
        Turn::EmptyRound => idle,
        Turn::Stepped | Turn::Moved => false,
    }
}

// The stream's turns until it ends.
#[tactic(auto, using(crate::proofs::Storing::stores_calls))]
fn drive<'w>(
    rt: &impl Abort,
    stream: &mut Stream,
    plain: &Plain<'w>,
    pass: &mut PlainPass<'w>,
    w: &Workload,
    orders: &[StoredOrder],
) -> Result<(), Want>
    requires plain { plain.now ≡ w.now }
    requires pass { pass.old.workload ≡ w.now }
    requires stored { (g : ℕ) → IsStored w.now g (length orders.now) }
    requires fits { FitsStream w.now stream.old }
{
    w.known();
    'turns: for _ in 0..MOST {
        prepare(rt, stream, w, orders)?;
        let turn = stream.turn(plain, pass, w, &AnyWork);
        if ends(turn, stream.is_idle()) {
            return Ok(());
        }
    }
    Ok(())
}

// What stream 0 does over all objects.
fn events(
    rt: &impl Abort,
    alloc: Global,
    w: &Workload,
    orders: &[StoredOrder; 2],
    steps: u64,
) -> Result<Journal, Want> {
    assert!(rt; 0 < w.streams());
    check_orders(w);
    let mut stream = Stream::new(alloc, w, StreamNo(0), steps, true)?;
    let (plain, mut pass) = Plain::make(Objects::place(alloc, w)?);
    drive(rt, &mut stream, &plain, &mut pass, w, orders)?;
    let StreamParts { kept, .. } = stream.into_parts();
    kept.ok_or(Want)
}

// Whether the events of a row, whose workload has been read, are those that it says.
fn is_done(
    rt: &impl Abort,
    alloc: Global,
    orders: &[StoredOrder; 2],
    w: &Workload,
    row: Row,
) -> Result<bool, Want> {
    let wanted = journal(alloc, row.events)?;
    let done = events(rt, alloc, w, orders, row.steps)?;
    Ok(is_text_of(alloc, &done, &wanted))
}

// The events of a row are those that it says.
fn check(rt: &impl Abort, alloc: Global, orders: &[StoredOrder; 2], row: Row) -> Result<(), Fail> {
    let text = text(alloc, row.units)?;
    let w = read(alloc, text.as_bytes())?;
    let is = is_done(rt, alloc, orders, &w, row)?;
    assert!(rt; is, "{}", row.units);
    Ok(())
}

// The events of each row are those that it says.
fn check_all(rt: &impl Abort, alloc: Global, rows: &[Row]) -> Result<(), Fail> {
    let orders = [
        StoredOrder::new(OrderShape::Free, Box::new(alloc, first_once)?),
        StoredOrder::new(OrderShape::Free, Box::new(alloc, first_once)?),
    ];
    for row in rows {
        check(rt, alloc, &orders, *row)?;
    }
    Ok(())
}

#[test]
fn turns_are_the_next_events(rt: HostRuntime) -> Result<(), Fail> {
    check_all(&rt, rt.alloc(), &OWN)?;
    check_all(&rt, rt.alloc(), &UNITS)?;
    check_all(&rt, rt.alloc(), &OBJECTS)?;
    check_all(&rt, rt.alloc(), &FRAMES)
}
