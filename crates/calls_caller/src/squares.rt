//! Squares, computed in units.

ghost use Rattle.std.specs.Prelude.{◌≤◌, IfOk, false, length};
ghost use Rattle.abt_machine.specs.Limits.{function_limit};
ghost use Rattle.abt_order.specs.Stored.{IsAnsweredOrder, stored_of};
ghost use Rattle.abt_drain.specs.Ends.{LeavesRun};
ghost use Rattle.calls_caller.specs.Squares.{square_of};

use abt_drain::Run;
use abt_machine::{StreamNo, UnitNo, Want, Workload};
use abt_order::StoredOrder;
use abt_waves::run_streams;
use abt_work::Work;
use std::alloc::Global;
use std::sync::Wait;
use std::thread::Threads;

const STEPS: u64 = 10_000;

/// Each function returns the square of the accumulator, modulo 2^64.
#[derive(Clone, Copy, Debug, PartialEq, Eq)]
pub struct Squares;

impl Work for Squares {
    ghost count = { λ _. function_limit };

    ghost returns = { λ _. square_of };

    fn before_step(&self, _stream: StreamNo, _unit: UnitNo, _at: u32) {}

    fn watches(&self) -> bool {
        false
    }

    fn call(&self, _function: u32, _unit: UnitNo, acc: u64, _keys: &[u64]) -> u64 {
        acc.wrapping_mul(acc)
    }

    fn accepts(&self, _function: u32, _unit: UnitNo, acc: u64, _keys: &[u64], value: u64) -> bool {
        acc.wrapping_mul(acc) == value
    }
}

/// The run of a workload whose units square their numbers. Its journal is not kept.
#[tactic(auto, using(crate::proofs::Storing::stores_calls))]
pub fn run_squares<R: Threads + Wait + Sync>(
    rt: &R,
    alloc: Global,
    w: &Workload,
    orders: &[StoredOrder],
) -> Result<Run, Want>
    requires { 2 ≤ length orders.now }
    ensures { IfOk result (LeavesRun w.now (stored_of orders.now square_of) (IsAnsweredOrder w.now orders.now) 10000 false) }
{
    w.known();
    run_streams(rt, alloc, w, orders, &Squares, STEPS, false)
}
