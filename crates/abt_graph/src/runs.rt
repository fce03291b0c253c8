//! Graphs of the three shapes that run on threads, and their values. For each call Err says that no memory was found.

ghost use Rattle.std.specs.Prelude.{◌≡◌, ◌≤◌, ◌<◌, ◌*◌, IfOk};
ghost use Rattle.abt_machine.specs.declared.grammar.Format.TheVariants as format;
ghost use Rattle.abt_machine.specs.Limits.{stream_limit, unit_limit};
ghost use Rattle.abt_graph.specs.Graphs.{IsFunction};
ghost use Rattle.abt_graph.specs.Shapes.{IsReduction, IsWavefront, ReturnsSum, mapped, word_sum};
ghost use Rattle.abt_graph.specs.declared.shapes.TheConstants.{LEAF_LIMIT};

use crate::answers::run_graph;
use crate::shapes::{map, reduction, wavefront};
use abt_machine::Want;
use abt_work::Work;
use std::alloc::Global;
use std::sync::Wait;
use std::thread::Threads;

/// What a function returns for each number below n alone, computed on the threads of this many streams.
pub fn run_map<R: Threads + Wait + Sync, W: Work + Sync>(
    rt: &R,
    alloc: Global,
    n: u32,
    function: u32,
    streams: u32,
    work: &W,
) -> Result<Vec<u64>, Want>
    requires few { n ≤ unit_limit format.Three }
    requires function { IsFunction function (W.count work.now) (W.returns work.now) }
    requires streams { (0 < streams) × (streams ≤ stream_limit format.Three) }
    ensures { IfOk result (λ values. values.items ≡ mapped (W.returns work.now) n function) }
{
    let nodes = map(alloc, n, function)?;
    run_graph(rt, alloc, &nodes, streams, work)
}

/// The values of a reduction of n leaves of one function by another, on the threads of this many streams.
pub fn run_reduction<R: Threads + Wait + Sync, W: Work + Sync>(
    rt: &R,
    alloc: Global,
    n: u32,
    leaf_function: u32,
    inner_function: u32,
    streams: u32,
    work: &W,
) -> Result<Vec<u64>, Want>
    requires few { n ≤ LEAF_LIMIT }
    requires leaf { IsFunction leaf_function (W.count work.now) (W.returns work.now) }
    requires inner { IsFunction inner_function (W.count work.now) (W.returns work.now) }
    requires streams { (0 < streams) × (streams ≤ stream_limit format.Three) }
    ensures { IfOk result (λ values. IsReduction (W.returns work.now) n leaf_function inner_function values.items) }
{
    let nodes = reduction(alloc, n, leaf_function, inner_function)?;
    run_graph(rt, alloc, &nodes, streams, work)
}

/// The sum of what a function returns for each number below n, modulo 2^64, computed on the threads of this many streams. The inner
/// function adds up its keys.
pub fn run_sum<R: Threads + Wait + Sync, W: Work + Sync>(
    rt: &R,
    alloc: Global,
    n: u32,
    leaf_function: u32,
    inner_function: u32,
    streams: u32,
    work: &W,
) -> Result<u64, Want>
    requires some { 0 < n }
    requires few { n ≤ LEAF_LIMIT }
    requires leaf { IsFunction leaf_function (W.count work.now) (W.returns work.now) }
    requires inner { IsFunction inner_function (W.count work.now) (W.returns work.now) }
    requires adds { ReturnsSum (W.returns work.now) inner_function }
    requires streams { (0 < streams) × (streams ≤ stream_limit format.Three) }
    ensures { IfOk result (λ sum. sum ≡ word_sum (mapped (W.returns work.now) n leaf_function)) }
{
    let values = run_reduction(rt, alloc, n, leaf_function, inner_function, streams, work)?;
    Ok(values[values.len() - 1])
}

/// The values of the cells of a table, row by row, on the threads of this many streams.
pub fn run_wavefront<R: Threads + Wait + Sync, W: Work + Sync>(
    rt: &R,
    alloc: Global,
    rows: u32,
    columns: u32,
    function: u32,
    streams: u32,
    work: &W,
) -> Result<Vec<u64>, Want>
    requires few { rows * columns ≤ unit_limit format.Three }
    requires function { IsFunction function (W.count work.now) (W.returns work.now) }
    requires streams { (0 < streams) × (streams ≤ stream_limit format.Three) }
    ensures { IfOk result (λ values. IsWavefront (W.returns work.now) rows columns function values.items) }
{
    let nodes = wavefront(alloc, rows, columns, function)?;
    run_graph(rt, alloc, &nodes, streams, work)
}
