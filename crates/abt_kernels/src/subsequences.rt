//! The longest common subsequence of two texts, by tiles of its table that threads make.

ghost use Rattle.std.specs.Prelude.{◌≡◌, ◌≤◌, ◌<◌, ◌+◌, ◌*◌, ℕ, IfOk, IfSome, length, replicate};
ghost use Rattle.abt_machine.specs.declared.grammar.Format.TheVariants as format;
ghost use Rattle.abt_machine.specs.Limits.{stream_limit};
ghost use Rattle.abt_kernels.specs.Subsequences.{IsCovered, common_length, left_edge, tile_at, tile_edges, upper_edge};

use crate::tiles::{Grid, Tile, edges_of, tile_at};
use abt_machine::Want;
use abt_tables::{MakesRows, Rows, Table, run_wavefront_rows};
use std::alloc::Global;
use std::marker::{Brand, PhantomData};
use std::sync::Wait;
use std::thread::Threads;

// A tile is at least this high and this wide, unless the texts end before.
const LEAST_SIDE: usize = 64;

// At most this many tiles are beside each other, and below each other. The edges of all are kept to the end, so a run takes up to so many
// words for each byte of the texts.
const MOST_TILES: usize = 64;

/// Makes the edges of the tiles of two texts' table.
#[derive(Drop)]
struct MakesTiles<'a, T: Table> {
    a: &'a [u8],
    b: &'a [u8],
    grid: &'a Grid,
    of: PhantomData<T>,
    ghost some: { 0 < grid.now.columns },
    ghost table: { (u : ℕ) → T.row_at u ≡ tile_edges a.now b.now (tile_at a.now b.now grid.now u) },
}

impl<'a, T: Table> MakesTiles<'a, T> {
    // The left edge of tile u, if its left neighbour is made.
    fn left_edge(&self, alloc: Global, u: u32, tile: &Tile, rows: &Rows<'_, T>) -> Option<Vec<u64>>
        requires tile { tile.now ≡ tile_at self.now.a.now self.now.b.now self.now.grid.now u }
        requires inside { tile.now.left + tile.now.width ≤ length self.now.b.now }
        ensures { IfSome result (λ edge. edge.items ≡ left_edge self.now.a.now self.now.b.now tile.now) }
    {
        if u % self.grid.columns == 0 {
            return zeros(alloc, tile.height + 1);
        }
        let words = rows.row(u - 1)?;
        copy_of(alloc, &words[..tile.height + 1])
    }

    // The upper edge of tile u, if its upper neighbour is made.
    fn upper_edge(&self, alloc: Global, u: u32, tile: &Tile, rows: &Rows<'_, T>) -> Option<Vec<u64>>
        requires tile { tile.now ≡ tile_at self.now.a.now self.now.b.now self.now.grid.now u }
        requires inside { tile.now.top + tile.now.height ≤ length self.now.a.now }
        ensures { IfSome result (λ line. line.items ≡ upper_edge self.now.a.now self.now.b.now tile.now) }
    {
        if u < self.grid.columns {
            return zeros(alloc, tile.width + 1);
        }
        let words = rows.row(u - self.grid.columns)?;
        copy_of(alloc, &words[self.grid.height + 1..])
    }
}

impl<'a, T: Table> MakesRows<T> for MakesTiles<'a, T> {
    fn make(&self, alloc: Global, u: u32, rows: &Rows<'_, T>) -> Option<Vec<u64>> {
        let tile = tile_at(self.a, self.b, self.grid, u)?;
        let edge = self.left_edge(alloc, u, &tile, rows)?;
        let mut line = self.upper_edge(alloc, u, &tile, rows)?;
        edges_of(alloc, self.a, self.b, &tile, &edge, &mut line).ok()
    }
}

// This many zeros, if there is memory for them.
fn zeros(alloc: Global, n: usize) -> Option<Vec<u64>>
    ensures { IfSome result (λ words. words.items ≡ replicate n 0) }
{
    Vec::from_elem(alloc, 0, n).ok()
}

// The same words, if there is memory for them.
fn copy_of(alloc: Global, words: &[u64]) -> Option<Vec<u64>>
    ensures { IfSome result (λ copy. copy.items ≡ words.now) }
{
    words.to_vec(alloc).ok()
}

/// The length of the longest common subsequence of two texts, computed on the threads of this many streams. Err says that no memory
/// was found.
pub fn longest_common_subsequence<R: Threads + Wait + Sync>(
    rt: &R,
    alloc: Global,
    a: &[u8],
    b: &[u8],
    streams: u32,
) -> Result<u64, Want>
    requires { (0 < streams) × (streams ≤ stream_limit format.Three) }
    ensures { IfOk result (λ n. n ≡ common_length a.now b.now (length a.now) (length b.now)) }
{
    if a.is_empty() || b.is_empty() {
        return Ok(0);
    }
    let height = side(a.len());
    let width = side(b.len());
    let lines = tile_count(a.len(), height);
    let grid = Grid {
        height,
        width,
        columns: tile_count(b.len(), width),
    };
    run_tiles::<R, Brand>(rt, alloc, a, b, lines, &grid, streams)
}

// The side of tiles along a text of this length.
fn side(length: usize) -> usize
    ensures some { 0 < result }
    ensures enough { length ≤ MOST_TILES * result }
{
    length.div_ceil(MOST_TILES).max(LEAST_SIDE)
}

// How many tiles of this side there are along a text of this length.
fn tile_count(length: usize, side: usize) -> u32
    requires some { 0 < length }
    requires side { 0 < side }
    requires enough { length ≤ MOST_TILES * side }
    ensures few { result ≤ MOST_TILES }
    ensures all { IsCovered length side result }
{
    length.div_ceil(side) as u32
}

// As `longest_common_subsequence`, for a grid of this many lines whose tiles cover both texts. Row u of the table is what the neighbours of
// tile u need of it.
fn run_tiles<R: Threads + Wait + Sync, T: Table + Send + Sync>(
    rt: &R,
    alloc: Global,
    a: &[u8],
    b: &[u8],
    lines: u32,
    grid: &Grid,
    streams: u32,
) -> Result<u64, Want>
    requires table { (u : ℕ) → T.row_at u ≡ tile_edges a.now b.now (tile_at a.now b.now grid.now u) }
    requires lines { IsCovered (length a.now) grid.now.height lines }
    requires columns { IsCovered (length b.now) grid.now.width grid.now.columns }
    requires few { (lines ≤ MOST_TILES) × (grid.now.columns ≤ MOST_TILES) }
    requires streams { (0 < streams) × (streams ≤ stream_limit format.Three) }
    ensures { IfOk result (λ n. n ≡ common_length a.now b.now (length a.now) (length b.now)) }
{
    let tiles = MakesTiles {
        a,
        b,
        grid,
        of: PhantomData,
    };
    let rows = run_wavefront_rows::<R, T, _>(rt, alloc, lines, grid.columns, streams, &tiles)?;
    let edges = &rows[rows.len() - 1];
    Ok(edges[edges.len() - 1])
}
