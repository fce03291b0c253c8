//! A chain against worked rows, the links that counted calls walk, and a chain that is longer than the stack is deep.

ghost use Rattle.std.specs.Prelude.{◌≡◌, ◌<◌, ◌≤◌, ◌+◌};
ghost use Rattle.abt_chain.specs.Links.{IsCounted, walk_of};

use crate::answers::{Answer, found, out};
use crate::samples::unit;
use crate::tried::{Tried, check};
use abt_chain::{Chain, Steps};
use abt_machine::UnitNo;
use std::alloc::Global;
use std::marker::Brand;
use std::process::Abort;
use std::sync::ledger::{Blank, Ledger};
use std::test::Fail;
use std::thread::Builder;

/// A call of a chain.
#[derive(Clone, Copy)]
pub enum Call {
    Push(u32, u64),
    Front,
    Back,
    Remove(u32),
    Find(u32),
    IsEmpty,
}

static ROWS: [(Call, Answer); 25] = [
    // nothing in it
    (Call::Front, Answer::Nobody),
    (Call::Back, Answer::Nobody),
    (Call::Remove(0), Answer::Nobody),
    (Call::Find(0), Answer::Nobody),
    // 0 1 2 3 and another 1
    (Call::Push(0, 0), Answer::Nobody),
    (Call::Push(1, 1), Answer::Nobody),
    (Call::Push(2, 2), Answer::Nobody),
    (Call::Push(3, 3), Answer::Nobody),
    (Call::Push(1, 5), Answer::Nobody),
    (Call::Find(1), Answer::Unit((1, 1))),
    (Call::Front, Answer::Unit((0, 0))),
    (Call::Find(1), Answer::Unit((1, 1))),
    (Call::Find(0), Answer::Nobody),
    // 1 2 3 1 and another 2
    (Call::Push(2, 6), Answer::Nobody),
    (Call::Remove(1), Answer::Unit((1, 1))),
    (Call::Find(1), Answer::Unit((1, 5))),
    (Call::Remove(2), Answer::Unit((2, 2))),
    (Call::Remove(2), Answer::Unit((2, 6))),
    (Call::Remove(2), Answer::Nobody),
    // 3 1
    (Call::Back, Answer::Unit((1, 5))),
    (Call::Push(3, 7), Answer::Nobody),
    (Call::Front, Answer::Unit((3, 3))),
    (Call::Back, Answer::Unit((3, 7))),
    (Call::Front, Answer::Nobody),
    (Call::IsEmpty, Answer::Truth(true)),
];

impl Tried for Chain {
    type Call = Call;

    ghost stays = { λ chain. Unit {0} };

    fn answer<R: Abort>(&mut self, rt: &R, alloc: Global, call: Call) -> Result<Answer, Fail> {
        Ok(match call {
            Call::Push(number, acc) => {
                self.push_back(unit(rt, alloc, number, acc)?);
                Answer::Nobody
            }
            Call::Front => out(self.take_front()),
            Call::Back => out(self.take_back()),
            Call::Remove(number) => out(self.remove(UnitNo(number))),
            Call::Find(number) => found(self.find(UnitNo(number))),
            Call::IsEmpty => Answer::Truth(self.is_empty()),
        })
    }
}

#[test]
fn chains_are_lists(rt: HostRuntime) -> Result<(), Fail> {
    let mut chain = Chain::new();
    check(&rt, rt.alloc(), &mut chain, &ROWS)
}

// Appends the unit of that number.
fn push<L: Ledger>(
    rt: &impl Abort,
    alloc: Global,
    chain: &mut Chain,
    number: u32,
    steps: &mut Steps<L>,
) -> Result<(), Fail>
    ensures { IsCounted (walk_of steps.old chain.old) (walk_of steps.new chain.new) }
{
    chain.push_back_counted(unit(rt, alloc, number, 0)?, steps);
    Ok(())
}

// The first unit, which is taken.
fn take<L: Ledger>(chain: &mut Chain, steps: &mut Steps<L>) -> Answer
    ensures { IsCounted (walk_of steps.old chain.old) (walk_of steps.new chain.new) }
{
    out(chain.take_front_counted(steps))
}

// Four units are appended, and come out in order.
fn eight_calls<L: Ledger>(rt: &impl Abort, alloc: Global, steps: &mut Steps<L>) -> Result<(), Fail>
    ensures { steps.new ≤ steps.old + 8 }
{
    let mut chain = Chain::new();
    push(rt, alloc, &mut chain, 0, steps)?;
    push(rt, alloc, &mut chain, 1, steps)?;
    push(rt, alloc, &mut chain, 2, steps)?;
    assert!(rt; take(&mut chain, steps) == Answer::Unit((0, 0)));
    assert!(rt; take(&mut chain, steps) == Answer::Unit((1, 0)));
    assert!(rt; take(&mut chain, steps) == Answer::Unit((2, 0)));
    push(rt, alloc, &mut chain, 3, steps)?;
    assert!(rt; take(&mut chain, steps) == Answer::Unit((3, 0)));
    Ok(())
}

fn counted<L: Ledger>(rt: &impl Abort, alloc: Global, blank: Blank) -> Result<(), Fail>
    requires name { blank.name ≡ L.name }
    requires parts { blank.parts ≡ L.parts }
    requires some { 0 < L.parts }
{
    let mut steps = Steps::<L>::new(blank);
    eight_calls(rt, alloc, &mut steps)
}

#[test]
fn eight_calls_walk_few_links(rt: HostRuntime) -> Result<(), Fail> {
    counted::<Brand>(&rt, rt.alloc(), Blank::new(1))
}

// 20,000 units, told apart by their accumulators, of which the one in the middle alone has number 3.
fn long_chain(rt: &impl Abort, alloc: Global) -> Result<Chain, Fail> {
    let mut chain = Chain::new();
    for acc in 0..20_000 {
        let number = if acc == 10_000 { 3 } else { acc % 3 };
        chain.push_back(unit(rt, alloc, number, u64::from(acc))?);
    }
    Ok(chain)
}

// What is taken from the ends and the middle; the others then follow the unit from the front.
fn ends_and_middle(mut chain: Chain) -> [Answer; 3] {
    let front = chain.take_front();
    let back = out(chain.take_back());
    let middle = match chain.find(UnitNo(3)) {
        Some(_) => out(chain.remove(UnitNo(3))),
        None => Answer::Nobody,
    };
    let mut other = Chain::new();
    let front = match front {
        Some(unit) => {
            let acc = unit.acc();
            other.push_back(unit);
            Answer::Number(acc)
        }
        None => Answer::Nobody,
    };
    chain.drain_into(&mut other);
    drop(other);
    [front, back, middle]
}

#[test]
fn long_chains_need_little_stack(rt: HostRuntime) -> Result<(), Fail> {
    let chain = long_chain(&rt, rt.alloc())?;
    let thread = Builder::new().stack_size(131_072);
    let taken = thread.spawn(&rt, move || ends_and_middle(chain))?.join(&rt);
    let wanted = [
        Answer::Number(0),
        Answer::Unit((1, 19_999)),
        Answer::Unit((3, 10_000)),
    ];
    assert!(rt; taken == wanted);
    Ok(())
}
