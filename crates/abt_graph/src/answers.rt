//! Graphs that run on threads, and their values.

ghost use Rattle.std.specs.Prelude.{All, ◌≡◌, ◌≤◌, ◌<◌, [], ◌∷◌, IfOk, map};
ghost use Rattle.abt_machine.specs.declared.grammar.Format.TheVariants as format;
ghost use Rattle.abt_machine.specs.declared.events.Piece.TheVariants as piece;
ghost use Rattle.abt_machine.specs.Limits.{stream_limit};
ghost use Rattle.abt_report.specs.declared.pictures.Row.{Row};
ghost use Rattle.abt_graph.specs.Graphs.{HasFunctions, IsGraph, values_of};
ghost use Rattle.abt_graph.specs.Pictured.{IsNumber, output_of};
ghost use Rattle.abt_graph.specs.Rows.{number_rows};
ghost use Rattle.abt_graph.specs.Workloads.{workload_of};

use crate::nodes::Node;
use crate::workload::workload_of;
use abt_flow::orderly_finish;
use abt_machine::{Piece, Want};
use abt_order::StoredOrder;
use abt_report::Row;
use abt_waves::run_streams;
use abt_work::Work;
use std::alloc::{AllocError, Global};
use std::sync::Wait;
use std::thread::Threads;

// How many steps each stream may make, which is as many as a workload may have operations.
const STEPS: u64 = 1_048_576;

/// The values of the nodes of a graph, from a run on the threads of this many streams: value u is what the function of node u returns
/// for the values of the nodes that it waits for. Err says that no memory was found.
pub fn run_graph<R: Threads + Wait + Sync, W: Work + Sync>(
    rt: &R,
    alloc: Global,
    nodes: &[Node],
    streams: u32,
    work: &W,
) -> Result<Vec<u64>, Want>
    requires streams { (0 < streams) × (streams ≤ stream_limit format.Three) }
    requires graph { IsGraph nodes.now }
    requires functions { HasFunctions nodes.now (W.count work.now) (W.returns work.now) }
    ensures { IfOk result (λ values. values.items ≡ values_of (W.returns work.now) nodes.now) }
{
    let w = workload_of(alloc, streams, nodes)?;
    // No scheduler of a graph has a stored order, but a run is passed two.
    let orders = [StoredOrder::rotating(), StoredOrder::mirroring()];
    let run = run_streams(rt, alloc, &w, &orders, work, STEPS, false)?;
    // By this law each run of a graph finishes, so each row has its number.
    orderly_finish();
    Ok(numbers(alloc, run.picture.items())?)
}

// The numbers that units put out.
fn numbers(alloc: Global, rows: &[Row]) -> Result<Vec<u64>, AllocError>
    requires { All IsNumber rows.now }
    ensures { IfOk result (λ numbers. number_rows numbers.items ≡ map output_of rows.now) }
{
    let mut numbers = Vec::new(alloc);
    for row in rows {
        numbers.push(number(row))?;
    }
    Ok(numbers)
}

// The number that a unit put out.
fn number(row: &Row) -> u64
    requires { IsNumber row.now }
    ensures { row.now.output ≡ piece.Number result ∷ [] }
{
    match row.output.items() {
        [Piece::Number(n)] => *n,
        _ => unreachable!(),
    }
}
