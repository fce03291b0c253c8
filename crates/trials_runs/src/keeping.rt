//! A lock that a stream keeps from one call of an object to the next is given back before a user's function runs.

ghost use Rattle.std.specs.Prelude.{None};
ghost use Rattle.abt_machine.specs.Limits.{function_limit};

use crate::waits::is_seen;
use abt_machine::{Outcome, StreamNo, UnitNo, Want, Workload};
use abt_order::StoredOrder;
use abt_waves::run_streams;
use abt_work::Work;
use abt_workload::read;
use std::alloc::Global;
use std::sync::Wait;
use std::sync::atomic::{AtomicBool, Ordering};
use std::test::Fail;
use std::thread::Threads;

// Unit 0 has had a mutex when it calls function 0. Unit 1 on the other stream locks the mutex while that call goes on.
static KEPT: &str =
    "abt 3\nstreams 2\npool 0 fifo mpmc\npool 1 fifo mpmc\nsched 0 prio 0\nsched 1 prio 1\nstream 0 main 0\nstream 1 main 1\nobject 0 mutex\nunits 2\nunit 0 ult at 0\nlock 0\nunlock 0\ncall 0\nunit 1 ult at 1\ncall 1\nlock 0\nunlock 0\ncall 2\nend\n";

// Function 0 goes on until function 2 has been called, and function 1 until function 0 has been.
#[derive(Drop)]
struct Overlapping {
    begun: AtomicBool,
    passed: AtomicBool,
    met: AtomicBool,
}

impl Overlapping {
    fn new() -> Overlapping {
        Overlapping {
            begun: AtomicBool::new(false),
            passed: AtomicBool::new(false),
            met: AtomicBool::new(false),
        }
    }

    // The call of function 0.
    fn hold(&self) {
        self.begun.store(true, Ordering::SeqCst);
        self.met.store(is_seen(&self.passed), Ordering::SeqCst);
    }
}

impl Work for Overlapping {
    ghost count = { λ _. function_limit };

    ghost returns = { λ _ _ _ _ _. None };

    fn before_step(&self, _stream: StreamNo, _unit: UnitNo, _at: u32) {}

    fn watches(&self) -> bool {
        false
    }

    fn call(&self, function: u32, _unit: UnitNo, acc: u64, _keys: &[u64]) -> u64 {
        match function {
            0 => self.hold(),
            1 => {
                is_seen(&self.begun);
            }
            _ => self.passed.store(true, Ordering::SeqCst),
        }
        acc
    }

    fn accepts(
        &self,
        _function: u32,
        _unit: UnitNo,
        _acc: u64,
        _keys: &[u64],
        _value: u64,
    ) -> bool {
        true
    }
}

// Whether the other stream's calls of the mutex come while function 0 runs.
#[tactic(auto, using(crate::proofs::Storing::stores_calls))]
fn passes<R: Threads + Wait + Sync>(rt: &R, alloc: Global, w: &Workload) -> Result<bool, Want> {
    w.known();
    let work = Overlapping::new();
    let orders = [StoredOrder::rotating(), StoredOrder::mirroring()];
    let run = run_streams(rt, alloc, w, &orders, &work, 1_000, false)?;
    Ok(work.met.load(Ordering::SeqCst) && run.outcome == Outcome::Finished)
}

fn kept_passes<R: Threads + Wait + Sync>(rt: &R, alloc: Global) -> Result<bool, Fail> {
    let w = read(alloc, KEPT.as_bytes())?;
    Ok(passes(rt, alloc, &w)?)
}

#[test]
fn no_lock_is_kept_while_a_function_runs(rt: HostRuntime) -> Result<(), Fail> {
    let none_is = kept_passes(&rt, rt.alloc())?;
    assert!(rt; none_is);
    Ok(())
}
