//! Squares, each computed by a node.

ghost use Rattle.std.specs.Prelude.{◌≡◌, ◌≤◌, ◌*◌, ◌%◌, ◌^◌, IfOk, map};
ghost use Rattle.std.specs.List.{range_with_len};
ghost use Rattle.graph_caller.specs.Squares.{square_of};

use abt_graph::run_map;
use abt_machine::{StreamNo, UnitNo, Want};
use abt_work::Work;
use std::alloc::Global;
use std::sync::Wait;
use std::thread::Threads;

/// The function of a node returns the square of the node's number.
#[derive(Clone, Copy, Debug, PartialEq, Eq)]
pub struct Squares;

impl Work for Squares {
    ghost count = { λ _. 1 };

    ghost returns = { λ _. square_of };

    fn before_step(&self, _stream: StreamNo, _unit: UnitNo, _at: u32) {}

    fn watches(&self) -> bool {
        false
    }

    fn call(&self, _function: u32, unit: UnitNo, _acc: u64, _keys: &[u64]) -> u64 {
        square(unit.0)
    }

    fn accepts(&self, _function: u32, unit: UnitNo, _acc: u64, _keys: &[u64], value: u64) -> bool {
        square(unit.0) == value
    }
}

fn square(n: u32) -> u64
    ensures { result ≡ n * n }
{
    u64::from(n) * u64::from(n)
}

/// The squares of the numbers below n, on the threads of four streams.
pub fn squares_on_threads<R: Threads + Wait + Sync>(
    rt: &R,
    alloc: Global,
    n: u32,
) -> Result<Vec<u64>, Want>
    requires { n ≤ 65536 }
    ensures { IfOk result (λ squares. squares.items ≡ map (λ u. u * u % 2 ^ 64) (range_with_len 0 n)) }
{
    run_map(rt, alloc, n, 0, 4, &Squares)
}
