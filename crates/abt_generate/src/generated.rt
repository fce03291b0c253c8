//! The generator.

ghost use Rattle.std.specs.Prelude.{◌≡◌, ◌<◌, ◌≤◌, ◌∷◌, IfOk, map};
ghost use Rattle.abt_machine.specs.Limits.{adder_limit};
ghost use Rattle.abt_generate.specs.Generated.{adder, adder_ops, adders, first_ops, first_unit, generated, sched_for, streams};

use abt_machine::{
    Access, Body, Kind, Mains, ObjectNo, Op, Ops, Parts, PoolNo, PoolPart, PoolParts, Pools, Rule,
    SchedNo, SchedPart, SchedParts, Texts, Thing, Things, UnitNo, UnitPart, UnitParts, Want,
    Workload,
};
use std::alloc::{AllocError, Global};

// The streams. Each has a pool of its own.
const STREAMS: u32 = 4;

// The mutex that holds the sum.
const SUM: ObjectNo = ObjectNo(0);

/// The workload of unit 0 and n adders, on four streams, each with a deque of its own and a scheduler that steals. The
/// operations of unit 0 create the adders, join them, and print what a mutex holds; those of adder v yield, and add v to what
/// it holds.
pub fn generate(alloc: Global, n: u32) -> Result<Workload, Want>
    requires { (0 < n) × (n ≤ adder_limit) }
    ensures { IfOk result (λ w. w ≡ generated n) }
{
    let deque = PoolPart {
        kind: Kind::Deque,
        access: Access::Mpmc,
    };
    let mains = vec![in alloc; SchedNo(0), SchedNo(1), SchedNo(2), SchedNo(3)]?;
    let parts = Parts {
        streams: STREAMS,
        keys: 0,
        pools: PoolParts::new(vec![in alloc; deque, deque, deque, deque]?),
        scheds: SchedParts::new(scheds(alloc, n)?),
        mains: Mains::new(mains),
        objects: Things::new(vec![in alloc; Thing::Mutex]?),
        units: UnitParts::new(units(alloc, n)?),
        words: Texts::new(Vec::new(alloc)),
    };
    Workload::new(alloc, parts)
}

fn scheds(alloc: Global, n: u32) -> Result<Vec<SchedPart>, AllocError>
    requires { n ≤ adder_limit }
    ensures { IfOk result (λ scheds. scheds.items ≡ map (sched_for n) streams) }
{
    let [a, b, c, d] = [PoolNo(0), PoolNo(1), PoolNo(2), PoolNo(3)];
    Ok(vec![in alloc;
        sched(alloc, n, [a, b, c, d])?,
        sched(alloc, n + 1, [b, a, c, d])?,
        sched(alloc, n + 2, [c, a, b, d])?,
        sched(alloc, n + 3, [d, a, b, c])?,
    ]?)
}

// A scheduler that steals, of these pools.
fn sched(alloc: Global, seed: u32, pools: [PoolNo; 4]) -> Result<SchedPart, AllocError>
    ensures { IfOk result (λ part. part ≡ record { rule = Rule.Randws seed; pools = pools }) }
{
    Ok(SchedPart {
        rule: Rule::Randws(u64::from(seed)),
        pools: Pools::new(Vec::from_array(alloc, pools)?),
    })
}

fn units(alloc: Global, n: u32) -> Result<Vec<UnitPart>, AllocError>
    requires { n ≤ adder_limit }
    ensures { IfOk result (λ units. units.items ≡ first_unit n ∷ map adder (adders n)) }
{
    let mut units = Vec::new(alloc);
    units.push(UnitPart {
        body: Body::Ult(Ops::new(alloc, first_ops(alloc, n)?)?),
        start: Some(PoolNo(0)),
    })?;
    for k in 0..n {
        units.push(UnitPart {
            body: Body::Ult(Ops::new(alloc, adder_ops(alloc, k + 1)?)?),
            start: None,
        })?;
    }
    Ok(units)
}

// Unit 0 creates the other units, in turn in each pool, joins them and prints the sum.
fn first_ops(alloc: Global, n: u32) -> Result<Vec<Op>, AllocError>
    requires { n ≤ adder_limit }
    ensures { IfOk result (λ ops. ops.items ≡ first_ops n) }
{
    let mut ops = Vec::new(alloc);
    for k in 0..n {
        ops.push(Op::Create(UnitNo(k + 1), PoolNo((k + 1) % STREAMS)))?;
    }
    for k in 0..n {
        ops.push(Op::Join(UnitNo(k + 1)))?;
    }
    ops.extend_from_slice(&[Op::Lock(SUM), Op::Load(SUM), Op::Print, Op::Unlock(SUM)])?;
    Ok(ops)
}

// Unit v yields, and then adds its number under the mutex.
fn adder_ops(alloc: Global, v: u32) -> Result<Vec<Op>, AllocError>
    ensures { IfOk result (λ ops. ops.items ≡ adder_ops v) }
{
    Ok(vec![in alloc;
        Op::Yield,
        Op::Lock(SUM),
        Op::Load(SUM),
        Op::Add(u64::from(v)),
        Op::Store(SUM),
        Op::Unlock(SUM),
    ]?)
}
