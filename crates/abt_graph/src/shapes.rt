//! Graphs of three shapes.

ghost use Rattle.std.specs.Prelude.{◌≡◌, ◌≤◌, ◌<◌, ◌+◌, ◌*◌, ◌++◌, IfOk};
ghost use Rattle.abt_machine.specs.declared.grammar.Format.TheVariants as format;
ghost use Rattle.abt_machine.specs.Limits.{function_limit, unit_limit};
ghost use Rattle.abt_graph.specs.Graphs.{IsGraph};
ghost use Rattle.abt_graph.specs.Shapes.{cell, inner, inner_count, left, lone, map_nodes, reduction_nodes, upper, wavefront_nodes};
ghost use Rattle.abt_graph.specs.declared.shapes.TheConstants.{LEAF_LIMIT};

use crate::nodes::Node;
use abt_machine::{Items, UnitNo};
use std::alloc::{AllocError, Global};

// How many values an inner node takes at most.
const WIDTH: u32 = 16;

/// The maximum number of leaves of a reduction.
pub const LEAF_LIMIT: u32 = 61_440;

/// A graph of n nodes of this function, none of which waits.
pub fn map(alloc: Global, n: u32, function: u32) -> Result<Vec<Node>, AllocError>
    requires few { n ≤ unit_limit format.Three }
    requires function { function < function_limit }
    ensures nodes { IfOk result (λ nodes. nodes.items ≡ map_nodes n function) }
    ensures graph { IfOk result (λ nodes. IsGraph nodes.items) }
{
    let mut nodes = Vec::new(alloc);
    for _ in 0..n {
        nodes.push(lone(alloc, function))?;
    }
    Ok(nodes)
}

// A node that waits for none.
fn lone(alloc: Global, function: u32) -> Node
    ensures { result ≡ lone function }
{
    Node {
        function,
        after: Items::new(Vec::new(alloc)),
    }
}

/// A graph of n leaves of one function, and of inner nodes of another, each of which takes up to 16 values that no other takes. The
/// last node has what they come to.
pub fn reduction(
    alloc: Global,
    n: u32,
    leaf_function: u32,
    inner_function: u32,
) -> Result<Vec<Node>, AllocError>
    requires few { n ≤ LEAF_LIMIT }
    requires leaf { leaf_function < function_limit }
    requires inner { inner_function < function_limit }
    ensures nodes { IfOk result (λ nodes. nodes.items ≡ reduction_nodes n leaf_function inner_function) }
    ensures graph { IfOk result (λ nodes. IsGraph nodes.items) }
{
    let mut nodes = map(alloc, n, leaf_function)?;
    // Each inner node takes away 15 values, until one is left.
    for j in 0..(n + 13) / 15 {
        nodes.push(inner_node(alloc, n, inner_function, j)?)?;
    }
    Ok(nodes)
}

// Inner node j.
fn inner_node(alloc: Global, n: u32, function: u32, j: u32) -> Result<Node, AllocError>
    requires few { n ≤ LEAF_LIMIT }
    requires there { j < inner_count n }
    ensures { IfOk result (λ node. node ≡ inner n function j) }
{
    let first = WIDTH * j;
    let mut after = Vec::new(alloc);
    for k in 0..WIDTH.min(n + j - first) {
        after.push(UnitNo(first + k))?;
    }
    Ok(Node {
        function,
        after: Items::new(after),
    })
}

/// A graph of a table of cells, row by row, each of which waits for its left and its upper neighbour, in this order.
pub fn wavefront(
    alloc: Global,
    rows: u32,
    columns: u32,
    function: u32,
) -> Result<Vec<Node>, AllocError>
    requires few { rows * columns ≤ unit_limit format.Three }
    requires function { function < function_limit }
    ensures nodes { IfOk result (λ nodes. nodes.items ≡ wavefront_nodes rows columns function) }
    ensures graph { IfOk result (λ nodes. IsGraph nodes.items) }
{
    let mut nodes = Vec::new(alloc);
    for u in 0..rows * columns {
        nodes.push(cell(alloc, columns, function, u / columns, u % columns)?)?;
    }
    Ok(nodes)
}

// Cell (i, j).
fn cell(alloc: Global, columns: u32, function: u32, i: u32, j: u32) -> Result<Node, AllocError>
    requires column { j < columns }
    requires few { i * columns + j < unit_limit format.Three }
    ensures { IfOk result (λ node. node ≡ cell columns function i j) }
{
    let mut after = Vec::new(alloc);
    if 0 < j {
        after.push(UnitNo(i * columns + j - 1))?;
    }
    if 0 < i {
        after.push(UnitNo((i - 1) * columns + j))?;
    }
    Ok(Node {
        function,
        after: Items::new(after),
    })
}
