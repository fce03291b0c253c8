//! The calls of a booth, compared with the kit's mutex around a number.
ghost use Rattle.std.specs.Prelude.{◌≤◌};

use crate::faults::no_memory;
use bench_times::least_and_middle;
use booth_caller::count;
use std::alloc::Global;
use std::rt::Clock;
use std::sync::{Mutex, Wait};
use std::thread::Threads;
use std::time::{Duration, Instant};
use std::{io, thread};

// Calls of each thread in a round: few, so that some rounds run without a pause on a busy machine.
const CALLS: u32 = 20_000;

const ROUNDS: u32 = 201;

/// Four threads with a thousand calls each.
pub fn small<R: Threads + Wait + Sync + Print>(rt: &R, alloc: Global) -> io::Result<()> {
    match count(rt, alloc, 4, 1000) {
        Some(closed) => {
            println!(rt;
                "booth: 4 threads of 1000 calls count {}",
                closed.object.sum
            )
        }
        None => Err(no_memory()),
    }
}

/// Nanoseconds a call, the least and the middle of many rounds, of a booth and of a mutex in turn.
pub fn times<R: Threads + Wait + Sync + Print + Clock>(rt: &R, alloc: Global) -> io::Result<()> {
    for threads in [1u32, 2, 4, 16] {
        let mut booth = Vec::new(alloc);
        let mut mutex = Vec::new(alloc);
        for _ in 0..ROUNDS {
            booth.push(each(booth_time(rt, alloc, threads)?, threads))?;
            mutex.push(each(mutex_time(rt, alloc, threads)?, threads))?;
        }
        let (booth_least, booth_middle) = least_and_middle(&mut booth)?;
        let (mutex_least, mutex_middle) = least_and_middle(&mut mutex)?;
        println!(rt;
            "threads {threads}: booth {booth_least} least, {booth_middle} middle; mutex {mutex_least} least, {mutex_middle} middle (ns a call)"
        )?;
    }
    Ok(())
}

fn each(took: Duration, threads: u32) -> u128 {
    took.as_nanos() / (threads as u128 * CALLS as u128).max(1)
}

fn booth_time<R: Threads + Wait + Sync + Clock>(
    rt: &R,
    alloc: Global,
    threads: u32,
) -> io::Result<Duration>
    requires { 1 ≤ threads }
{
    let start = Instant::now(rt)?;
    if count(rt, alloc, threads, CALLS).is_none() {
        return Err(no_memory());
    }
    start.elapsed(rt)
}

fn mutex_time<R: Threads + Wait + Sync + Clock>(
    rt: &R,
    alloc: Global,
    threads: u32,
) -> io::Result<Duration> {
    let mut adders = Vec::new(alloc);
    for i in 0..threads {
        adders.push(i)?;
    }
    let start = Instant::now(rt)?;
    let sum = Mutex::new(0);
    add_on_threads(rt, &sum, adders.as_mut_slice());
    start.elapsed(rt)
}

fn add_on_threads<R: Threads + Wait + Sync>(rt: &R, sum: &Mutex<u64>, adders: &mut [u32]) {
    let threads = adders.len();
    if threads == 0 {
        return;
    }
    thread::for_each_mut(rt, adders, threads, &|_, _adder: &mut u32| add(rt, sum));
}

fn add<R: Wait>(rt: &R, sum: &Mutex<u64>) {
    for _ in 0..CALLS {
        let mut held = sum.lock(rt);
        *held = held.wrapping_add(1);
    }
}
