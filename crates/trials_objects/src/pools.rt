//! Pools of both kinds against worked rows, and a pool on another thread.

ghost use Rattle.std.specs.Prelude.{◌≡◌};
ghost use Rattle.abt_machine.specs.declared.operations.Kind.TheVariants as kind;

use crate::answers::{Answer, found, out};
use crate::samples::unit;
use crate::tried::{Tried, check};
use abt_machine::{Kind, Side, UnitNo};
use abt_pool::Pool;
use std::alloc::Global;
use std::process::Abort;
use std::test::Fail;
use std::thread;
use std::thread::Threads;

/// A call of a pool.
#[derive(Clone, Copy)]
pub enum Call {
    Put(u32),
    Take(Side),
    Remove(u32),
    Find(u32),
    IsEmpty,
}

// Of a deque pool.
static ROWS: [(Call, Answer); 14] = [
    (Call::Put(2), Answer::Nobody),
    (Call::Put(0), Answer::Nobody),
    (Call::Put(3), Answer::Nobody),
    (Call::Put(1), Answer::Nobody),
    (Call::Take(Side::Back), Answer::Unit((1, 0))),
    (Call::Find(3), Answer::Unit((3, 0))),
    (Call::Take(Side::Front), Answer::Unit((2, 0))),
    (Call::Remove(3), Answer::Unit((3, 0))),
    (Call::Find(3), Answer::Nobody),
    (Call::Remove(3), Answer::Nobody),
    (Call::Take(Side::Back), Answer::Unit((0, 0))),
    (Call::Take(Side::Back), Answer::Nobody),
    (Call::Take(Side::Front), Answer::Nobody),
    (Call::IsEmpty, Answer::Truth(true)),
];

impl Tried for Pool {
    type Call = Call;

    ghost stays = { λ pool. pool.kind ≡ kind.Deque };

    fn answer<R: Abort>(&mut self, rt: &R, alloc: Global, call: Call) -> Result<Answer, Fail> {
        Ok(match call {
            Call::Put(number) => {
                self.put(unit(rt, alloc, number, 0)?);
                Answer::Nobody
            }
            Call::Take(side) => out(self.take(side)),
            Call::Remove(number) => out(self.remove(UnitNo(number))),
            Call::Find(number) => found(self.find(UnitNo(number))),
            Call::IsEmpty => Answer::Truth(self.is_empty()),
        })
    }
}

#[test]
fn deque_pools_serve_both_ends(rt: HostRuntime) -> Result<(), Fail> {
    let mut pool = Pool::new(Kind::Deque);
    check(&rt, rt.alloc(), &mut pool, &ROWS)
}

#[test]
fn fifo_pools_serve_the_oldest(rt: HostRuntime) -> Result<(), Fail> {
    let first = unit(&rt, rt.alloc(), 2, 0)?;
    let second = unit(&rt, rt.alloc(), 0, 0)?;
    let mut pool = Pool::new(Kind::Fifo);
    pool.put(first);
    pool.put(second);
    assert!(rt; out(pool.take(Side::Front)) == Answer::Unit((2, 0)));
    assert!(rt; out(pool.take(Side::Front)) == Answer::Unit((0, 0)));
    assert!(rt; pool.is_empty());
    Ok(())
}

// The value, after another thread had it.
fn there_and_back<R: Threads, T: Send + Drop>(rt: &R, value: T) -> T
    ensures { result ≡ value }
{
    thread::join(rt, move || value, || ()).0
}

#[test]
fn pools_go_to_other_threads(rt: HostRuntime) -> Result<(), Fail> {
    let only = unit(&rt, rt.alloc(), 2, 0)?;
    let mut pool = Pool::new(Kind::Fifo);
    pool.put(only);
    let mut pool = there_and_back(&rt, pool);
    assert!(rt; out(pool.take(Side::Front)) == Answer::Unit((2, 0)));
    Ok(())
}
