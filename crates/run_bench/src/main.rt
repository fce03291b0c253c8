//! Benchmarks of whole runs. `run_bench SUBJECT` prints times; `run_bench small` makes a few steps of each workload, and prints
//! what is the same in every run.
#![tactic(auto)]

mod calls;
mod figures;
mod loads;
mod races;
mod rounds;
mod small;
mod subjects;
mod turning;

use crate::races::races;
use crate::small::small;
use crate::subjects::{CALLS, CHECK, IDLE, JOURNAL, SHARED, THREADS};
use std::alloc::Global;
use std::rt::Clock;
use std::sync::Wait;
use std::thread::Threads;
use std::{env, io};

const USAGE: &str = "usage: run_bench small|threads|journal|shared|idle|check|calls|all";

// All subjects, one after the other.
fn all<R: Threads + Wait + Sync + Print + Clock>(rt: &R, alloc: Global) -> io::Result<()> {
    races(rt, alloc, &THREADS)?;
    races(rt, alloc, &JOURNAL)?;
    races(rt, alloc, &SHARED)?;
    races(rt, alloc, &IDLE)?;
    races(rt, alloc, &CHECK)?;
    races(rt, alloc, &CALLS)
}

// The subject of that name.
fn subject<R: Threads + Wait + Sync + Print + Eprint + Clock>(
    rt: &R,
    alloc: Global,
    name: &str,
) -> io::Result<()> {
    match name {
        "small" => small(rt, alloc),
        "threads" => races(rt, alloc, &THREADS),
        "journal" => races(rt, alloc, &JOURNAL),
        "shared" => races(rt, alloc, &SHARED),
        "idle" => races(rt, alloc, &IDLE),
        "check" => races(rt, alloc, &CHECK),
        "calls" => races(rt, alloc, &CALLS),
        "all" => all(rt, alloc),
        _ => refuse(rt),
    }
}

// Words that are no subject are an error.
fn refuse<R: Eprint>(rt: &R) -> io::Result<()> {
    eprintln!(rt; "{USAGE}")?;
    Err(io::Error::from(io::ErrorKind::InvalidInput))
}

fn main(rt: HostRuntime) -> io::Result<()> {
    let Some(name) = env::args(&rt)?.nth(1) else {
        return refuse(&rt);
    };
    subject(&rt, rt.alloc(), name.as_str())
}
