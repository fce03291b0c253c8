//! The workload of a graph.

ghost use Rattle.std.specs.Prelude.{◌≡◌, ◌≤◌, ◌<◌, IfOk, length, map, min, replicate};
ghost use Rattle.std.specs.List.{range_with_len};
ghost use Rattle.abt_machine.specs.declared.grammar.Format.TheVariants as format;
ghost use Rattle.abt_machine.specs.Limits.{key_limit, stream_limit, unit_limit};
ghost use Rattle.abt_machine.specs.Numbers.{sched_no};
ghost use Rattle.abt_machine.specs.Words.{numbered};
ghost use Rattle.abt_graph.specs.Graphs.{IsGraph};
ghost use Rattle.abt_graph.specs.Workloads.{deque, fetch_ops, node_ops, node_unit, sched_for, workload_of};

use crate::nodes::Node;
use abt_machine::{
    Access, Body, Items, KEY_LIMIT, Kind, LISTED_LIMIT, Mains, ObjectNo, Op, Ops, Parts, PoolNo,
    PoolPart, PoolParts, Pools, Rule, SchedNo, SchedPart, SchedParts, Texts, Thing, Things, UnitNo,
    UnitPart, UnitParts, Want, Workload,
};
use std::alloc::{AllocError, Global};

/// The workload of a graph over this many streams: node u is unit u, and starts in the pool of stream u mod `streams`. Each stream
/// has a deque of its own, of which others steal.
pub fn workload_of(alloc: Global, streams: u32, nodes: &[Node]) -> Result<Workload, Want>
    requires streams { (0 < streams) × (streams ≤ stream_limit format.Three) }
    requires graph { IsGraph nodes.now }
    ensures { IfOk result (λ w. w ≡ workload_of streams nodes.now) }
{
    let parts = Parts {
        streams,
        keys: KEY_LIMIT,
        pools: PoolParts::new(deques(alloc, streams)?),
        scheds: SchedParts::new(scheds(alloc, streams)?),
        mains: Mains::new(mains(alloc, streams)?),
        objects: Things::new(eventuals(alloc, nodes.len())?),
        units: UnitParts::new(units(alloc, streams, nodes)?),
        words: Texts::new(Vec::new(alloc)),
    };
    Workload::new(alloc, parts)
}

fn deques(alloc: Global, streams: u32) -> Result<Vec<PoolPart>, AllocError>
    ensures { IfOk result (λ pools. pools.items ≡ replicate streams deque) }
{
    let mut pools = Vec::new(alloc);
    for _ in 0..streams {
        pools.push(PoolPart {
            kind: Kind::Deque,
            access: Access::Mpmc,
        })?;
    }
    Ok(pools)
}

fn scheds(alloc: Global, streams: u32) -> Result<Vec<SchedPart>, AllocError>
    requires { streams ≤ stream_limit format.Three }
    ensures { IfOk result (λ scheds. scheds.items ≡ map (sched_for streams) (range_with_len 0 streams)) }
{
    let mut scheds = Vec::new(alloc);
    for s in 0..streams {
        scheds.push(sched(alloc, streams, s)?)?;
    }
    Ok(scheds)
}

// The scheduler of stream s.
fn sched(alloc: Global, streams: u32, s: u32) -> Result<SchedPart, AllocError>
    requires few { streams ≤ stream_limit format.Three }
    requires stream { s < streams }
    ensures { IfOk result (λ part. part ≡ sched_for streams s) }
{
    let mut pools = Vec::new(alloc);
    for k in 0..streams.min(LISTED_LIMIT as u32) {
        pools.push(PoolNo((s + k) % streams))?;
    }
    Ok(SchedPart {
        rule: Rule::Randws(u64::from(s)),
        pools: Pools::new(pools),
    })
}

fn mains(alloc: Global, streams: u32) -> Result<Vec<SchedNo>, AllocError>
    ensures { IfOk result (λ mains. mains.items ≡ map sched_no (range_with_len 0 streams)) }
{
    let mut mains = Vec::new(alloc);
    for s in 0..streams {
        mains.push(SchedNo(s))?;
    }
    Ok(mains)
}

fn eventuals(alloc: Global, n: usize) -> Result<Vec<Thing>, AllocError>
    ensures { IfOk result (λ things. things.items ≡ replicate n Thing.Eventual) }
{
    let mut things = Vec::new(alloc);
    for _ in 0..n {
        things.push(Thing::Eventual)?;
    }
    Ok(things)
}

fn units(alloc: Global, streams: u32, nodes: &[Node]) -> Result<Vec<UnitPart>, AllocError>
    requires streams { 0 < streams }
    requires graph { IsGraph nodes.now }
    ensures { IfOk result (λ units. units.items ≡ numbered (node_unit streams) nodes.now) }
{
    let mut units = Vec::new(alloc);
    for (u, node) in nodes.iter().enumerate() {
        units.push(unit(alloc, streams, u as u32, node)?)?;
    }
    Ok(units)
}

fn unit(alloc: Global, streams: u32, u: u32, node: &Node) -> Result<UnitPart, AllocError>
    requires streams { 0 < streams }
    requires few { length node.now.after ≤ key_limit }
    ensures { IfOk result (λ unit. unit ≡ node_unit streams u node.now) }
{
    Ok(UnitPart {
        body: Body::Ult(Ops::new(alloc, ops(alloc, u, node)?)?),
        start: Some(PoolNo(u % streams)),
    })
}

fn ops(alloc: Global, u: u32, node: &Node) -> Result<Vec<Op>, AllocError>
    requires { length node.now.after ≤ key_limit }
    ensures { IfOk result (λ ops. ops.items ≡ node_ops u node.now) }
{
    let after = node.after.items();
    let mut ops = fetches(alloc, after)?;
    ops.extend_from_slice(&[
        Op::Set(after.len() as u64),
        Op::Call(node.function),
        Op::Print,
        Op::EvSet(ObjectNo(u)),
    ])?;
    Ok(ops)
}

// The operations by which a unit keeps the values of these nodes in its keys.
fn fetches(alloc: Global, after: &[UnitNo]) -> Result<Vec<Op>, AllocError>
    requires { length after.now ≤ key_limit }
    ensures { IfOk result (λ ops. ops.items ≡ fetch_ops 0 after.now) }
{
    let mut ops = Vec::new(alloc);
    for (k, x) in after.iter().enumerate() {
        ops.extend_from_slice(&[Op::EvWait(ObjectNo(x.0)), Op::KeySet(k as u32)])?;
    }
    Ok(ops)
}
