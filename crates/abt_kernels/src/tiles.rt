//! Tiles of the table of two texts: cell (i, j) is the length of the longest common subsequence of the first i bytes of one text and the
//! first j bytes of the other.

ghost use Rattle.std.specs.Prelude.{◌≡◌, ◌≤◌, ◌<◌, ◌+◌, ◌^◌, ◌==◌, IfOk, IfSome, IsSome, if◌then◌else◌, length, max, suc};
ghost use Rattle.abt_kernels.specs.Subsequences.{common_length, left_edge, line_cells, tile_at, tile_edges, upper_edge};

use std::alloc::{AllocError, Global};

/// A tile of the table: so many lines below line `top`, and so many columns right of column `left`.
#[derive(Clone, Copy)]
pub(crate) struct Tile {
    pub(crate) top: usize,
    pub(crate) left: usize,
    pub(crate) height: usize,
    pub(crate) width: usize,
}

/// How a table is cut into tiles: the height and the width of each, if the texts do not end before, and how many are beside each other.
#[derive(Clone, Copy)]
pub(crate) struct Grid {
    pub(crate) height: usize,
    pub(crate) width: usize,
    pub(crate) columns: u32,
}

/// Tile `u` of the table of two texts, row by row. None says that there is none.
pub(crate) fn tile_at(a: &[u8], b: &[u8], grid: &Grid, u: u32) -> Option<Tile>
    requires { 0 < grid.now.columns }
    ensures tile { IfSome result (λ tile. tile ≡ tile_at a.now b.now grid.now u) }
    ensures found { let tile = tile_at a.now b.now grid.now u in tile.top ≤ length a.now → tile.left ≤ length b.now → IsSome result }
    ensures lines { IfSome result (λ tile. tile.top + tile.height ≤ length a.now) }
    ensures columns { IfSome result (λ tile. tile.left + tile.width ≤ length b.now) }
{
    let top = ((u / grid.columns) as usize).checked_mul(grid.height)?;
    let left = ((u % grid.columns) as usize).checked_mul(grid.width)?;
    Some(Tile {
        top,
        left,
        height: grid.height.min(a.len().checked_sub(top)?),
        width: grid.width.min(b.len().checked_sub(left)?),
    })
}

/// The right edge of a tile that has this left edge and this upper edge, and then its lower edge. The upper edge is written over.
pub(crate) fn edges_of(
    alloc: Global,
    a: &[u8],
    b: &[u8],
    tile: &Tile,
    edge: &[u64],
    line: &mut [u64],
) -> Result<Vec<u64>, AllocError>
    requires lines { tile.now.top + tile.now.height ≤ length a.now }
    requires columns { tile.now.left + tile.now.width ≤ length b.now }
    requires edge { edge.now ≡ left_edge a.now b.now tile.now }
    requires line { line.old ≡ upper_edge a.now b.now tile.now }
    ensures { IfOk result (λ edges. edges.items ≡ tile_edges a.now b.now tile.now) }
{
    let mut edges = Vec::with_capacity(alloc, edge.len() + line.len())?;
    edges.push(line[tile.width])?;
    for k in 0..tile.height {
        next_line(a, b, tile.top + k, tile.left, edge[k + 1], line);
        edges.push(line[tile.width])?;
    }
    edges.extend_from_slice(line)?;
    Ok(edges)
}

// Turns cells of line `i`, from column `from` on, into those of the next line, the first of which is given.
fn next_line(a: &[u8], b: &[u8], i: usize, from: usize, first: u64, line: &mut [u64])
    requires row { i < length a.now }
    requires some { 0 < length line.old }
    requires columns { from + length line.old ≤ length b.now + 1 }
    requires line { line.old ≡ line_cells a.now b.now i from (length line.old) }
    requires first { first ≡ common_length a.now b.now (i + 1) from }
    ensures { line.new ≡ line_cells a.now b.now (i + 1) from (length line.old) }
{
    let letter = a[i];
    let mut diagonal = line[0];
    let mut last = first;
    line[0] = first;
    for k in 0..line.len() - 1 {
        let above = line[k + 1];
        last = cell(letter, b[from + k], diagonal, above, last);
        line[k + 1] = last;
        diagonal = above;
    }
}

// A cell whose line and column end with these letters, from the three cells before it.
fn cell(letter: u8, other: u8, diagonal: u64, above: u64, left: u64) -> u64
    requires { diagonal + 1 < 2 ^ 64 }
    ensures { result ≡ (if letter == other then suc diagonal else max above left) }
{
    if letter == other {
        diagonal + 1
    } else {
        above.max(left)
    }
}
