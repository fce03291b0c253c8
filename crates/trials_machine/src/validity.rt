//! A small workload, and parts that one change of it makes invalid.

use crate::parts::{Role, scheds, texts, unit};
use abt_machine::{
    Access, Calc, Combine, Kind, Mains, ObjectNo, Op, Parts, PoolNo, PoolPart, PoolParts, Rule,
    SchedNo, StreamNo, Thing, Things, UnitNo, UnitParts,
};
use std::alloc::{AllocError, Global};
use std::test::Fail;

// What may be changed in a small workload.
#[derive(Clone, Copy)]
struct Small {
    streams: u32,
    keys: u32,
    access: Access,
    rule: Rule,
    listed: &'static [PoolNo],
    mains: &'static [SchedNo],
    thing: Thing,
    op: Op,
    task_op: Op,
    sched: SchedNo,
    start: Option<PoolNo>,
    words: &'static [&'static str],
}

// Two streams, ten pools, three schedulers, four objects and three units.
const SMALL: Small = Small {
    streams: 2,
    keys: 1,
    access: Access::Priv(StreamNo(1)),
    rule: Rule::User(1),
    listed: &[PoolNo(0)],
    mains: &[SchedNo(0), SchedNo(1)],
    thing: Thing::Barrier(4096),
    op: Op::Yield,
    task_op: Op::Print,
    sched: SchedNo(2),
    start: None,
    words: &["hi", "on"],
};

// One thing that is different.
#[derive(Clone, Copy)]
enum Change {
    Streams(u32),
    Keys(u32),
    Access(Access),
    Sched(Rule, &'static [PoolNo]),
    Mains(&'static [SchedNo]),
    Thing(Thing),
    Op(Op),
    TaskOp(Op),
    Unit(SchedNo, Option<PoolNo>),
    Words(&'static [&'static str]),
}

// What makes it invalid.
static REFUSED: [Change; 58] = [
    Change::Streams(0),
    Change::Streams(1),
    Change::Streams(65),
    Change::Keys(17),
    // streams that are not declared
    Change::Access(Access::Priv(StreamNo(2))),
    Change::Access(Access::Spsc(StreamNo(2), StreamNo(1))),
    Change::Access(Access::Spsc(StreamNo(1), StreamNo(2))),
    Change::Access(Access::Mpsc(StreamNo(2))),
    Change::Access(Access::Spmc(StreamNo(2))),
    // an order, and lists of pools
    Change::Sched(Rule::User(2), &[PoolNo(0)]),
    Change::Sched(Rule::Basic, &[]),
    Change::Sched(
        Rule::Basic,
        &[
            PoolNo(0),
            PoolNo(1),
            PoolNo(2),
            PoolNo(3),
            PoolNo(4),
            PoolNo(5),
            PoolNo(6),
            PoolNo(7),
            PoolNo(8),
        ],
    ),
    Change::Sched(Rule::Basic, &[PoolNo(0), PoolNo(1), PoolNo(0)]),
    Change::Sched(Rule::Basic, &[PoolNo(10)]),
    Change::Sched(Rule::Basic, &[PoolNo(9)]),
    // main schedulers
    Change::Mains(&[SchedNo(0)]),
    Change::Mains(&[SchedNo(0), SchedNo(3)]),
    Change::Mains(&[SchedNo(0), SchedNo(0)]),
    Change::Mains(&[SchedNo(0), SchedNo(2)]),
    // objects
    Change::Thing(Thing::Cond(ObjectNo(1))),
    Change::Thing(Thing::Cond(ObjectNo(2))),
    Change::Thing(Thing::Cond(ObjectNo(3))),
    Change::Thing(Thing::Future(0, Combine::Sum)),
    Change::Thing(Thing::Future(4097, Combine::Max)),
    Change::Thing(Thing::Barrier(0)),
    Change::Thing(Thing::Barrier(4097)),
    // operations
    Change::Op(Op::Say(0)),
    Change::Op(Op::Say(2)),
    Change::Op(Op::KeyGet(1)),
    Change::Op(Op::Calc(Calc::Add, 1)),
    Change::Op(Op::Call(8)),
    Change::Op(Op::Join(UnitNo(3))),
    Change::Op(Op::Create(UnitNo(1), PoolNo(10))),
    Change::Op(Op::MigrateTo(UnitNo(1), StreamNo(2))),
    Change::Op(Op::Lock(ObjectNo(1))),
    Change::Op(Op::Lock(ObjectNo(4))),
    Change::Op(Op::Signal(ObjectNo(0))),
    Change::Op(Op::EvWait(ObjectNo(0))),
    Change::Op(Op::FuSet(ObjectNo(2))),
    Change::Op(Op::BarWait(ObjectNo(3))),
    Change::Op(Op::ReadLock(ObjectNo(0))),
    Change::Op(Op::RwStore(ObjectNo(3))),
    // operations of a tasklet that may block
    Change::TaskOp(Op::Yield),
    Change::TaskOp(Op::Suspend),
    Change::TaskOp(Op::Exit),
    Change::TaskOp(Op::Join(UnitNo(0))),
    Change::TaskOp(Op::Lock(ObjectNo(0))),
    Change::TaskOp(Op::ReadLock(ObjectNo(0))),
    Change::TaskOp(Op::WriteLock(ObjectNo(0))),
    // a function that a tasklet may not call
    Change::TaskOp(Op::Call(8)),
    // the scheduler that a unit is, and where units start
    Change::Unit(SchedNo(3), None),
    Change::Unit(SchedNo(1), None),
    Change::Unit(SchedNo(2), Some(PoolNo(10))),
    // words
    Change::Words(&["hi"]),
    Change::Words(&["hi", ""]),
    Change::Words(&[
        "hi",
        "12345678901234567890123456789012345678901234567890123456789012345",
    ]),
    Change::Words(&["hi", "o n"]),
    Change::Words(&["hi", "on", "off"]),
];

// The small workload with one change.
fn changed(change: Change) -> Small {
    match change {
        Change::Streams(streams) => Small { streams, ..SMALL },
        Change::Keys(keys) => Small { keys, ..SMALL },
        Change::Access(access) => Small { access, ..SMALL },
        Change::Sched(rule, listed) => Small {
            rule,
            listed,
            ..SMALL
        },
        Change::Mains(mains) => Small { mains, ..SMALL },
        Change::Thing(thing) => Small { thing, ..SMALL },
        Change::Op(op) => Small { op, ..SMALL },
        Change::TaskOp(task_op) => Small { task_op, ..SMALL },
        Change::Unit(sched, start) => Small {
            sched,
            start,
            ..SMALL
        },
        Change::Words(words) => Small { words, ..SMALL },
    }
}

// Nine pools that all may reach, and one of this access.
fn pools(alloc: Global, access: Access) -> Result<PoolParts, AllocError> {
    let open = PoolPart {
        kind: Kind::Fifo,
        access: Access::Mpmc,
    };
    let mut pools = vec![in alloc; open; 9]?;
    pools.push(PoolPart { access, ..open })?;
    Ok(PoolParts::new(pools))
}

// A user-level thread, a tasklet and a scheduler.
fn small_units(alloc: Global, small: &Small) -> Result<UnitParts, AllocError> {
    let ult = [Op::Say(0), small.op];
    let task = [Op::Say(1), small.task_op];
    let mut units = Vec::new(alloc);
    units.push(unit(alloc, Role::Ult(&ult), Some(PoolNo(0)))?)?;
    units.push(unit(alloc, Role::Task(&task), small.start)?)?;
    units.push(unit(alloc, Role::Sched(small.sched), small.start)?)?;
    Ok(UnitParts::new(units))
}

fn parts(alloc: Global, small: &Small) -> Result<Parts, AllocError> {
    let rules = [
        (small.rule, small.listed),
        (Rule::Prio, &[PoolNo(9), PoolNo(0)]),
        (Rule::Randws(7), &[PoolNo(9)]),
    ];
    let cond = Thing::Cond(ObjectNo(0));
    let objects = [Thing::Mutex, cond, small.thing, Thing::Mutex];
    Ok(Parts {
        streams: small.streams,
        keys: small.keys,
        pools: pools(alloc, small.access)?,
        scheds: scheds(alloc, &rules)?,
        mains: Mains::new(small.mains.to_vec(alloc)?),
        objects: Things::new(objects.to_vec(alloc)?),
        units: small_units(alloc, small)?,
        words: texts(alloc, small.words)?,
    })
}

// What it may have too.
static TAKEN: [Change; 4] = [
    Change::Op(Op::Calc(Calc::Gcd, 0)),
    Change::Op(Op::Call(7)),
    Change::TaskOp(Op::Calc(Calc::Lt, 0)),
    Change::TaskOp(Op::Call(7)),
];

#[test]
fn takes_a_small_workload(rt: HostRuntime) -> Result<(), Fail> {
    assert!(rt; parts(rt.alloc(), &SMALL)?.is_valid());
    for (at, change) in TAKEN.iter().enumerate() {
        let parts = parts(rt.alloc(), &changed(*change))?;
        assert!(rt; parts.is_valid(), "change {at}");
    }
    Ok(())
}

#[test]
fn refuses_one_change(rt: HostRuntime) -> Result<(), Fail> {
    for (at, change) in REFUSED.iter().enumerate() {
        let parts = parts(rt.alloc(), &changed(*change))?;
        assert!(rt; !parts.is_valid(), "change {at}");
    }
    Ok(())
}
