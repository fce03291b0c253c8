//! Benchmarks, a module for each subject. `abt_bench SUBJECT` prints times; `abt_bench small` does one small round
//! of each subject, and prints what is the same in every run.
#![tactic(auto)]

mod booth;
mod chains;
mod faults;
mod units;

use std::{env, io};

const USAGE: &str = "usage: abt_bench small|booth|chains";

// Words that are no subject are an error.
fn refuse<R: Eprint>(rt: &R) -> io::Result<()> {
    eprintln!(rt; "{USAGE}")?;
    Err(io::Error::from(io::ErrorKind::InvalidInput))
}

fn main(rt: HostRuntime) -> io::Result<()> {
    let mut words = env::args(&rt)?.skip(1);
    let Some(word) = words.next() else {
        return refuse(&rt);
    };
    match word.as_str() {
        "small" => {
            booth::small(&rt, rt.alloc())?;
            chains::small(&rt, rt.alloc())
        }
        "booth" => booth::times(&rt, rt.alloc()),
        "chains" => chains::times(&rt, rt.alloc()),
        _ => refuse(&rt),
    }
}
