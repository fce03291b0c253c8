//! Chains of units at several lengths, and the turns of a mutex.

ghost use Rattle.abt_unit.specs.Units.{IsFree};

use crate::faults::out_of_memory;
use crate::units::unit;
use abt_chain::Chain;
use abt_machine::UnitNo;
use abt_monitor::Monitor;
use abt_unit::Unit;
use bench_times::least_and_middle;
use std::alloc::Global;
use std::io;
use std::rt::Clock;
use std::time::Instant;

const LENGTHS: [u32; 3] = [10, 256, 4096];

const ROUNDS: u32 = 101;

#[derive(Clone, Copy)]
enum Work {
    PushAndTake,
    BothEnds,
    Find,
    Remove,
}

impl Work {
    fn name(self) -> &'static str {
        match self {
            Work::PushAndTake => "push at the back and take from the front",
            Work::BothEnds => "push at the back and take from each end in turn",
            Work::Find => "find the last",
            Work::Remove => "remove the last and push it",
        }
    }

    // How many times a round does it.
    fn calls(self) -> u32 {
        match self {
            Work::PushAndTake | Work::BothEnds => 20_000,
            Work::Find | Work::Remove => 200,
        }
    }
}

/// A few calls on a chain of ten.
pub fn small<R: Print>(rt: &R, alloc: Global) -> io::Result<()> {
    let mut chain = chain_of(alloc, 10)?;
    push_and_take(&mut chain, 1004);
    let first = match chain.take_front() {
        Some(unit) => unit.acc(),
        None => 0,
    };
    println!(rt; "chains: after 1004 turns of ten units, 0 to 9, the first is {first}")
}

/// Nanoseconds for each call, the least and the middle of many rounds.
pub fn times<R: Print + Clock>(rt: &R, alloc: Global) -> io::Result<()> {
    for work in [Work::PushAndTake, Work::BothEnds, Work::Find, Work::Remove] {
        for length in LENGTHS {
            let mut chain = chain_of(alloc, length)?;
            let mut times = Vec::new(alloc);
            for _ in 0..ROUNDS {
                times.push(time(rt, &mut chain, work)?)?;
            }
            let (least, middle) = least_and_middle(&mut times)?;
            println!(rt;
                "{length} units: {name}: {least} least, {middle} middle (ns)",
                name = work.name()
            )?;
        }
    }
    mutex_times(rt, alloc)
}

// What one call took.
fn time<R: Clock>(rt: &R, chain: &mut Chain, work: Work) -> io::Result<u128> {
    let calls = work.calls();
    let start = Instant::now(rt)?;
    match work {
        Work::PushAndTake => push_and_take(chain, calls),
        Work::BothEnds => both_ends(chain, calls),
        Work::Find => find(chain, calls),
        Work::Remove => remove(chain, calls),
    }
    Ok(start.elapsed(rt)?.as_nanos() / (calls as u128).max(1))
}

// Units 0, 1 and so on by their accumulators. The last alone has number 3.
fn chain_of(alloc: Global, length: u32) -> io::Result<Chain> {
    let mut chain = Chain::new();
    for i in 0..length {
        let number = if i + 1 == length { 3 } else { i % 3 };
        chain.push_back(unit(alloc, number, i as u64)?);
    }
    Ok(chain)
}

fn push_and_take(chain: &mut Chain, calls: u32) {
    for _ in 0..calls {
        if let Some(unit) = chain.take_front() {
            chain.push_back(unit);
        }
    }
}

fn both_ends(chain: &mut Chain, calls: u32) {
    for i in 0..calls {
        let taken = if i % 2 == 0 {
            chain.take_back()
        } else {
            chain.take_front()
        };
        if let Some(unit) = taken {
            chain.push_back(unit);
        }
    }
}

fn find(chain: &mut Chain, calls: u32) {
    for _ in 0..calls {
        if chain.find(UnitNo(3)).is_none() {
            return;
        }
    }
}

fn remove(chain: &mut Chain, calls: u32) {
    for _ in 0..calls {
        if let Some(unit) = chain.remove(UnitNo(3)) {
            chain.push_back(unit);
        }
    }
}

const TURNS: u32 = 20_000;

// A lock and an unlock of a mutex that nobody else wants, and of one at which another unit waits.
fn mutex_times<R: Print + Clock>(rt: &R, alloc: Global) -> io::Result<()> {
    let mut free = Vec::new(alloc);
    let mut handed = Vec::new(alloc);
    for _ in 0..ROUNDS {
        free.push(free_time(rt, alloc)?)?;
        handed.push(handed_time(rt, alloc)?)?;
    }
    let (least, middle) = least_and_middle(&mut free)?;
    println!(rt; "lock and unlock a free mutex: {least} least, {middle} middle (ns)")?;
    let (least, middle) = least_and_middle(&mut handed)?;
    println!(rt; "lock and unlock a mutex that is handed over: {least} least, {middle} middle (ns)")
}

// What a turn of one unit took, alone at the mutex.
fn free_time<R: Clock>(rt: &R, alloc: Global) -> io::Result<u128> {
    let mut monitor = Monitor::new(alloc, 0).map_err(out_of_memory)?;
    let lone = unit(alloc, 0, 0)?;
    let start = Instant::now(rt)?;
    free_turns(&mut monitor, lone);
    Ok(start.elapsed(rt)?.as_nanos() / TURNS as u128)
}

// What a turn took at which one of two units has the mutex and the other waits.
fn handed_time<R: Clock>(rt: &R, alloc: Global) -> io::Result<u128> {
    let mut monitor = Monitor::new(alloc, 0).map_err(out_of_memory)?;
    let owner = unit(alloc, 0, 0)?;
    let waiter = unit(alloc, 1, 0)?;
    let start = Instant::now(rt)?;
    handed_turns(&mut monitor, owner, waiter);
    Ok(start.elapsed(rt)?.as_nanos() / TURNS as u128)
}

fn free_turns(monitor: &mut Monitor, unit: Box<Unit>)
    requires { IsFree unit.value }
{
    let mut hand = unit;
    for _ in 0..TURNS {
        match monitor.lock(hand) {
            Some(owner) => hand = owner,
            None => return,
        }
        if monitor.unlock(hand.number()).is_err() {
            return;
        }
    }
}

// Two units, one of which owns the mutex while the other waits.
fn handed_turns(monitor: &mut Monitor, owner: Box<Unit>, waiter: Box<Unit>)
    requires owner { IsFree owner.value }
    requires waiter { IsFree waiter.value }
{
    let Some(mut hand) = monitor.lock(owner) else {
        return;
    };
    if monitor.lock(waiter).is_some() {
        return;
    }
    for _ in 0..TURNS {
        let Ok(Some(next)) = monitor.unlock(hand.number()) else {
            return;
        };
        if monitor.lock(hand).is_some() {
            return;
        }
        hand = next;
    }
}
