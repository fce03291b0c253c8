//! Graphs that make rows on threads. For each call Err says that no memory was found, or that `make` returned None.

ghost use Rattle.std.specs.Prelude.{All, ◌≡◌, ◌≤◌, ◌<◌, ◌*◌, IfOk, IfSome, length, map, vec_len};
ghost use Rattle.std.specs.List.{range_with_len};
ghost use Rattle.abt_machine.specs.declared.grammar.Format.TheVariants as format;
ghost use Rattle.abt_machine.specs.Limits.{stream_limit, unit_limit};
ghost use Rattle.abt_graph.specs.Graphs.{IsGraph};
ghost use Rattle.abt_graph.specs.declared.nodes.Node.{Node};

use crate::made::Row;
use crate::makers::MakesRows;
use crate::tables::Table;
use crate::writing::WritesRows;
use abt_graph::{Node, map, run_graph, wavefront};
use abt_machine::Want;
use std::alloc::{AllocError, Global};
use std::sync::{OnceLock, Wait};
use std::thread::Threads;

/// The rows of a table, each made by the node of its number on the threads of this many streams, once the nodes that it waits for
/// have made theirs.
pub fn run_rows<R: Threads + Wait + Sync, T: Table + Send + Sync, M: MakesRows<T> + Sync>(
    rt: &R,
    alloc: Global,
    nodes: &[Node],
    streams: u32,
    maker: &M,
) -> Result<Vec<Vec<u64>>, Want>
    requires streams { (0 < streams) × (streams ≤ stream_limit format.Three) }
    requires graph { IsGraph nodes.now }
    requires functions { All (λ (node : Node). node.function ≡ 0) nodes.now }
    ensures { IfOk result (λ rows. map (λ row. row.items) rows.items ≡ map T.row_at (range_with_len 0 (length nodes.now))) }
{
    let mut cells = empty_cells(alloc, nodes.len())?;
    write_rows(rt, alloc, nodes, streams, maker, &cells)?;
    take_rows(alloc, &mut cells)
}

/// The first n rows of a table, each made alone, on the threads of this many streams.
pub fn run_map_rows<R: Threads + Wait + Sync, T: Table + Send + Sync, M: MakesRows<T> + Sync>(
    rt: &R,
    alloc: Global,
    n: u32,
    streams: u32,
    maker: &M,
) -> Result<Vec<Vec<u64>>, Want>
    requires few { n ≤ unit_limit format.Three }
    requires streams { (0 < streams) × (streams ≤ stream_limit format.Three) }
    ensures { IfOk result (λ rows. map (λ row. row.items) rows.items ≡ map T.row_at (range_with_len 0 n)) }
{
    let nodes = map(alloc, n, 0)?;
    run_rows(rt, alloc, &nodes, streams, maker)
}

/// A row for each cell of a grid, made on the threads of this many streams once those of the left and of the upper neighbour are
/// made. Row u is that of the cell in line u / columns and column u % columns.
pub fn run_wavefront_rows<R: Threads + Wait + Sync, T: Table + Send + Sync, M: MakesRows<T> + Sync>(
    rt: &R,
    alloc: Global,
    lines: u32,
    columns: u32,
    streams: u32,
    maker: &M,
) -> Result<Vec<Vec<u64>>, Want>
    requires few { lines * columns ≤ unit_limit format.Three }
    requires streams { (0 < streams) × (streams ≤ stream_limit format.Three) }
    ensures { IfOk result (λ rows. map (λ row. row.items) rows.items ≡ map T.row_at (range_with_len 0 (lines * columns))) }
{
    let nodes = wavefront(alloc, lines, columns, 0)?;
    run_rows(rt, alloc, &nodes, streams, maker)
}

// This many cells, none of which has a row.
fn empty_cells<T: Table>(alloc: Global, n: usize) -> Result<Vec<OnceLock<Row<T>>>, AllocError>
    ensures { IfOk result (λ cells. vec_len cells ≡ n) }
{
    let mut cells = Vec::new(alloc);
    for _ in 0..n {
        cells.push(OnceLock::new())?;
    }
    Ok(cells)
}

// Runs the graph, which writes the rows that can be made.
fn write_rows<R: Threads + Wait + Sync, T: Table + Send + Sync, M: MakesRows<T> + Sync>(
    rt: &R,
    alloc: Global,
    nodes: &[Node],
    streams: u32,
    maker: &M,
    cells: &[OnceLock<Row<T>>],
) -> Result<(), Want>
    requires streams { (0 < streams) × (streams ≤ stream_limit format.Three) }
    requires graph { IsGraph nodes.now }
    requires functions { All (λ (node : Node). node.function ≡ 0) nodes.now }
{
    let work = WritesRows {
        alloc,
        maker,
        cells,
    };
    run_graph(rt, alloc, nodes, streams, &work)?;
    Ok(())
}

// The words of the cells' rows.
fn take_rows<T: Table>(alloc: Global, cells: &mut [OnceLock<Row<T>>]) -> Result<Vec<Vec<u64>>, Want>
    requires few { length cells.old ≤ unit_limit format.Three }
    ensures { IfOk result (λ rows. map (λ row. row.items) rows.items ≡ map T.row_at (range_with_len 0 (length cells.old))) }
{
    let mut rows = Vec::new(alloc);
    for (u, cell) in cells.iter_mut().enumerate() {
        match take_row(cell, u as u32) {
            Some(words) => rows.push(words)?,
            None => return Err(Want),
        }
    }
    Ok(rows)
}

// The words of row u, if the cell has it.
fn take_row<T: Table>(cell: &mut OnceLock<Row<T>>, u: u32) -> Option<Vec<u64>>
    ensures { IfSome result (λ words. words.items ≡ T.row_at u) }
{
    let Row {
        number,
        words,
        of: _,
    } = cell.take()?;
    if number == u {
        return Some(words);
    }
    None
}
