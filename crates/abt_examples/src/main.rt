//! Calls the program with each workload of `data/`, and compares what it prints with the output that stands beside it.
#![tactic(auto)]

#[cfg(test)]
mod calls;
#[cfg(test)]
mod checks;
#[cfg(test)]
mod formats;
#[cfg(test)]
mod hostile;
#[cfg(test)]
mod refusals;
#[cfg(test)]
mod rows;
#[cfg(test)]
mod tests;
#[cfg(test)]
mod wide;

use abt_functions::TextFunctions;
use abt_order::StoredOrder;
use abt_run::{Keep, abtrun};
use abt_source::{MemorySink, RealFiles, read_all};
use std::alloc::{AllocError, Global};
use std::sync::Wait;
use std::test::Fail;
use std::thread::Threads;

// The words of a call, with a blank between each two, the file with what it prints, and its exit status.
type Example = (&'static str, &'static str, u8);

static EXAMPLES: [Example; 39] = [
    ("run hi.abt", "hi.out", 0),
    ("run empty.abt", "empty.out", 0),
    ("run wrap.abt", "wrap.out", 0),
    ("run steps.abt --steps 2", "steps.out", 4),
    ("run tasks.abt", "tasks.out", 0),
    ("run priorities.abt", "priorities.out", 0),
    ("run deque.abt", "deque.out", 0),
    ("run stealing.abt", "stealing.out", 0),
    ("run stacked.abt", "stacked.out", 0),
    ("run mirror.abt", "mirror.out", 0),
    ("run rotate.abt", "rotate.out", 0),
    ("run requests.abt", "requests.out", 0),
    ("run join.abt", "join.out", 0),
    ("run suspend.abt", "suspend.out", 0),
    ("run exit.abt", "exit.out", 0),
    ("run condition.abt", "condition.out", 0),
    ("run eventual.abt", "eventual.out", 0),
    ("run future.abt", "future.out", 0),
    ("run rwlock.abt", "rwlock.out", 0),
    ("run barrier.abt", "barrier.out", 0),
    ("run keys.abt", "keys.out", 0),
    ("run access.abt", "access.out", 0),
    ("run streams.abt", "streams.out", 0),
    ("run many.abt", "many.out", 0),
    ("run dot.abt", "dot.out", 0),
    ("run collatz.abt", "collatz.out", 0),
    ("run primes.abt", "primes.out", 0),
    ("run pipeline.abt", "pipeline.out", 0),
    ("run gcd.abt", "gcd.out", 0),
    ("run average.abt", "average.out", 0),
    ("run bits.abt", "bits.out", 0),
    ("run compare.abt", "compare.out", 0),
    ("run factors.abt", "factors.out", 0),
    ("run reduce.abt", "reduce.out", 0),
    ("run tree.abt", "tree.out", 0),
    ("run norm.abt", "norm.out", 0),
    ("flow flow.abt", "flow.out", 0),
    ("run stuck.abt", "stuck.out", 1),
    ("run budget.abt --steps 20", "budget.out", 4),
];

// More bytes than any output has.
const ROOM: usize = 10_000;

// The words of a call.
fn list_of(alloc: Global, words: &str) -> Result<Vec<String>, AllocError> {
    let mut list = Vec::new(alloc);
    for word in words.split(' ') {
        list.push(String::from_str(alloc, word)?)?;
    }
    Ok(list)
}

// Whether a call over the files here ends as the example says.
fn is_as_stored<R: Threads + Wait + Sync>(
    rt: &R,
    alloc: Global,
    files: &mut RealFiles<'_, HostRuntime>,
    example: &Example,
) -> Result<bool, Fail> {
    let (words, output, status) = *example;
    let words = list_of(alloc, words)?;
    let mut out = MemorySink::new(alloc, ROOM, ROOM, Vec::new(alloc))?;
    let mut err = MemorySink::new(alloc, ROOM, ROOM, Vec::new(alloc))?;
    let orders = [StoredOrder::rotating(), StoredOrder::mirroring()];
    let answer = abtrun(
        rt,
        alloc,
        &words,
        files,
        &mut out,
        &mut err,
        &TextFunctions,
        &orders,
        Keep::IfPrinted,
    );
    let stored = read_all(alloc, files, output, ROOM)?;
    Ok(answer.status == status && out.bytes() == stored.as_slice())
}

fn main(rt: HostRuntime) -> Result<(), Fail> {
    let alloc = rt.alloc();
    let mut files = RealFiles::new(&rt, rt.alloc());
    for example in &EXAMPLES {
        let (_, output, _) = *example;
        let is = is_as_stored(&rt, alloc, &mut files, example)?;
        println!(rt; "{output}: {}", if is { "as stored" } else { "differs" })?;
    }
    Ok(())
}
