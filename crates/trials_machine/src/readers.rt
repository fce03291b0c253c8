//! One workload, made and read back.

use crate::parts::{Role, scheds, texts, unit};
use abt_machine::{
    Access, Combine, Kind, Mains, ObjectNo, Op, Parts, PoolNo, PoolPart, PoolParts, Rule, SchedNo,
    StreamNo, Thing, Things, UnitNo, UnitParts, Want, Workload,
};
use std::alloc::{AllocError, Global};
use std::process::Abort;
use std::test::Fail;

// Pools of each access.
static POOLS: [PoolPart; 5] = [
    PoolPart {
        kind: Kind::Fifo,
        access: Access::Spsc(StreamNo(0), StreamNo(1)),
    },
    PoolPart {
        kind: Kind::Deque,
        access: Access::Priv(StreamNo(1)),
    },
    PoolPart {
        kind: Kind::Fifo,
        access: Access::Mpsc(StreamNo(0)),
    },
    PoolPart {
        kind: Kind::Fifo,
        access: Access::Spmc(StreamNo(1)),
    },
    PoolPart {
        kind: Kind::Fifo,
        access: Access::Mpmc,
    },
];

// Conditions of two mutexes, and one object of each other kind.
static OBJECTS: [Thing; 9] = [
    Thing::Mutex,
    Thing::Mutex,
    Thing::Cond(ObjectNo(0)),
    Thing::Cond(ObjectNo(1)),
    Thing::Cond(ObjectNo(0)),
    Thing::Eventual,
    Thing::Future(2, Combine::Sum),
    Thing::Barrier(3),
    Thing::RwLock,
];

// The operations of unit 0.
static OPS: [Op; 15] = [
    Op::Say(0),
    Op::Yield,
    Op::YieldTo(UnitNo(1), PoolNo(0)),
    Op::Suspend,
    Op::Exit,
    Op::Create(UnitNo(2), PoolNo(1)),
    Op::Join(UnitNo(2)),
    Op::MigrateTo(UnitNo(2), StreamNo(1)),
    Op::Lock(ObjectNo(1)),
    Op::CondWait(ObjectNo(3)),
    Op::Signal(ObjectNo(4)),
    Op::EvWait(ObjectNo(5)),
    Op::FuSet(ObjectNo(6)),
    Op::BarWait(ObjectNo(7)),
    Op::RwStore(ObjectNo(8)),
];

// The stream, the pool, and whether the stream may put there and take from there.
static REACHES: [(u32, u32, bool, bool); 10] = [
    (0, 0, true, false),
    (0, 1, false, false),
    (0, 2, true, true),
    (0, 3, false, true),
    (0, 4, true, true),
    (1, 0, false, true),
    (1, 1, true, true),
    (1, 2, true, false),
    (1, 3, true, true),
    (1, 4, true, true),
];

static SCHEDS: [(Rule, &[PoolNo]); 3] = [
    (Rule::Basic, &[PoolNo(1), PoolNo(0)]),
    (Rule::Prio, &[PoolNo(4)]),
    (Rule::User(1), &[PoolNo(2)]),
];

fn three_units(alloc: Global) -> Result<UnitParts, AllocError> {
    let mut units = Vec::new(alloc);
    units.push(unit(alloc, Role::Ult(&OPS), Some(PoolNo(4)))?)?;
    units.push(unit(alloc, Role::Sched(SchedNo(2)), None)?)?;
    units.push(unit(alloc, Role::Task(&[Op::Say(1)]), None)?)?;
    Ok(UnitParts::new(units))
}

// A workload of two streams.
fn workload(rt: &impl Abort, alloc: Global) -> Result<Workload, Want> {
    let parts = Parts {
        streams: 2,
        keys: 4,
        pools: PoolParts::new(POOLS.to_vec(alloc)?),
        scheds: scheds(alloc, &SCHEDS)?,
        mains: Mains::new(vec![in alloc; SchedNo(1), SchedNo(0)]?),
        objects: Things::new(OBJECTS.to_vec(alloc)?),
        units: three_units(alloc)?,
        words: texts(alloc, &["hi", "on"])?,
    };
    assert!(rt; parts.is_valid());
    Ok(Workload::new(alloc, parts)?)
}

// Pools and schedulers.
fn has_pools(rt: &impl Abort, w: &Workload) {
    assert!(rt; w.streams() == 2 && w.pools() == 5 && w.keys() == 4);
    assert!(rt; w.pool(PoolNo(1)) == POOLS[1]);
    let main = w.main(StreamNo(0));
    assert!(rt; main == SchedNo(1));
    assert!(rt; w.sched(main).rule == Rule::Prio);
    assert!(rt; w.sched(main).pools.items() == [PoolNo(4)].as_slice());
}

// Units, their operations, and what they say.
fn has_units(rt: &impl Abort, w: &Workload) {
    w.known();
    assert!(rt; w.units() == 3);
    assert!(rt; w.unit(UnitNo(0)).start == Some(PoolNo(4)));
    for (u, at, wanted) in [
        (0, 6, Some(Op::Join(UnitNo(2)))),
        (0, 14, Some(Op::RwStore(ObjectNo(8)))),
        (0, 15, None),
        (1, 0, None),
        (2, 0, Some(Op::Say(1))),
        (2, 1, None),
    ] {
        assert!(rt; w.op(UnitNo(u), at) == wanted);
    }
    if let Some(Op::Say(word)) = w.op(UnitNo(2), 0) {
        assert!(rt; w.word(word) == "on");
    }
}

// Objects, the conditions with their mutexes.
fn has_objects(rt: &impl Abort, w: &Workload) {
    assert!(rt; w.objects() == 9);
    for (x, wanted) in OBJECTS.iter().enumerate() {
        assert!(rt; w.thing(ObjectNo(x as u32)) == *wanted);
    }
    for (x, wanted) in [(2, (0, 0)), (3, (1, 0)), (4, (0, 1))] {
        assert!(rt; matches!(w.thing(ObjectNo(x)), Thing::Cond(_)));
        let (mutex, number) = w.cond(ObjectNo(x));
        assert!(rt; (mutex.0, number) == wanted);
    }
}

#[test]
fn a_workload_reads_back(rt: HostRuntime) -> Result<(), Fail> {
    let w = workload(&rt, rt.alloc())?;
    has_pools(&rt, &w);
    has_units(&rt, &w);
    has_objects(&rt, &w);
    Ok(())
}

// Each access, for each stream.
fn reaches(rt: &impl Abort, w: &Workload) {
    for (s, p, puts, takes) in REACHES {
        assert!(rt; s < w.streams() && p < w.pools());
        assert!(rt; w.may_put(StreamNo(s), PoolNo(p)) == puts);
        assert!(rt; w.may_take(StreamNo(s), PoolNo(p)) == takes);
    }
}

#[test]
fn streams_reach_pools(rt: HostRuntime) -> Result<(), Fail> {
    let w = workload(&rt, rt.alloc())?;
    reaches(&rt, &w);
    Ok(())
}
