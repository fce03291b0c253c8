//! Queens on a board, counted on threads.

ghost use Rattle.std.specs.Prelude.{◌≡◌, ◌≤◌, ◌<◌, ◌+◌, ◌%◌, ◌^◌, ℕ, IfOk, Some, length};
ghost use Rattle.abt_graph.specs.declared.shapes.TheConstants.{LEAF_LIMIT};
ghost use Rattle.abt_machine.specs.declared.grammar.Format.TheVariants as format;
ghost use Rattle.abt_machine.specs.Limits.{stream_limit};
ghost use Rattle.abt_kernels.specs.Queens.{attacks, columns, completions, completions_of, completions_or_sum, queens};

use abt_graph::{run_sum, sum_of};
use abt_machine::{StreamNo, UnitNo, Want};
use abt_work::Work;
use std::alloc::Global;
use std::sync::Wait;
use std::thread::Threads;

// The functions of leaves and of inner nodes.
const COLUMN: u32 = 0;

const SUM: u32 = 1;

/// The columns of the queens in the rows before, the nearest first.
#[derive(Clone, Copy)]
enum Placed<'a> {
    Nobody,
    Queen(u32, &'a Placed<'a>),
}

/// A board of n rows and columns: function 0 returns in how many ways it can be completed if the first queen stands in the column of the
/// node's number, and function 1 the sum of the keys.
#[derive(Clone, Copy, Debug)]
struct Board {
    n: u32,
}

impl Work for Board {
    ghost count = { λ _. 2 };

    ghost returns = { λ board. completions_or_sum board.n };

    fn before_step(&self, _stream: StreamNo, _unit: UnitNo, _at: u32) {}

    fn watches(&self) -> bool {
        false
    }

    fn call(&self, function: u32, unit: UnitNo, _acc: u64, keys: &[u64]) -> u64 {
        self.value(function, unit, keys)
    }

    fn accepts(&self, function: u32, unit: UnitNo, _acc: u64, keys: &[u64], value: u64) -> bool {
        self.value(function, unit, keys) == value
    }
}

impl Board {
    fn value(&self, function: u32, unit: UnitNo, keys: &[u64]) -> u64
        ensures { (acc : ℕ) → completions_or_sum self.now.n function unit.0 acc keys.now ≡ Some result }
    {
        match function {
            COLUMN => self.completions_of(unit.0),
            _ => sum_of(keys),
        }
    }

    // In how many ways the board can be completed if the first queen stands in this column.
    fn completions_of(&self, column: u32) -> u64
        ensures { result ≡ completions_of self.now.n column }
    {
        match self.n.checked_sub(1) {
            None => 1,
            Some(rows) => completions(self.n, rows, &Placed::Queen(column, &Placed::Nobody)),
        }
    }
}

// In how many ways so many further rows of a board of n columns can each get a queen.
fn completions(n: u32, rows: u32, placed: &Placed) -> u64
    requires { length (columns placed.now) + rows ≤ n }
    ensures { result ≡ completions n rows (columns placed.now) % 2 ^ 64 }
{
    if rows == 0 {
        return 1;
    }
    let mut count: u64 = 0;
    for column in 0..n {
        if !attacks(u64::from(column), 1, placed) {
            count = count.wrapping_add(completions(n, rows - 1, &Placed::Queen(column, &*placed)));
        }
    }
    count
}

// Whether a queen in this column attacks one of these, the nearest of which is so many rows away.
fn attacks(column: u64, distance: u64, placed: &Placed) -> bool
    requires column { column < 4294967296 }
    requires near { distance + length (columns placed.now) ≤ 4294967296 }
    ensures { result ≡ attacks column distance (columns placed.now) }
{
    match placed {
        Placed::Nobody => false,
        Placed::Queen(other, before) => {
            let other = u64::from(*other);
            column == other
                || column == other + distance
                || column + distance == other
                || attacks(column, distance + 1, before)
        }
    }
}

/// In how many ways n queens can stand on a board of n rows and columns so that none attacks another, modulo 2^64, counted on the threads
/// of this many streams.
///
/// # Errors
///
/// Out of memory.
pub fn count_queens<R: Threads + Wait + Sync>(
    rt: &R,
    alloc: Global,
    n: u32,
    streams: u32,
) -> Result<u64, Want>
    requires some { 0 < n }
    requires few { n ≤ LEAF_LIMIT }
    requires streams { (0 < streams) × (streams ≤ stream_limit format.Three) }
    ensures { IfOk result (λ count. count ≡ queens n % 2 ^ 64) }
{
    run_sum(rt, alloc, n, COLUMN, SUM, streams, &Board { n })
}
