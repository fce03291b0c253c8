//! What is timed in a round.

use crate::calls::{
    calling, drained, drained_text, journal_of, judged, kept_journal, threaded, waved,
};
use crate::figures::Counted;
use crate::turning::{Length, looped};
use abt_check::Verdict;
use abt_drain::Run;
use abt_machine::{Journal, Workload};
use std::alloc::Global;
use std::io;
use std::rt::Clock;
use std::sync::Wait;
use std::thread::Threads;
use std::time::{Duration, Instant};

// More steps than any stream here makes.
const STEPS: u64 = 1_000_000;

/// What is done with a workload.
#[derive(Clone, Copy)]
pub enum Work {
    /// It is run on this thread, and its journal is kept.
    Drain,
    /// It is run on threads, and its journal is kept.
    Streams,
    /// It is run on threads, and its journal is kept or not. Its steps are counted.
    Steps { keeps: bool },
    /// Its streams make a first wave on threads, without logs.
    Wave,
    /// The journal of a run on this thread is checked.
    Check,
    /// The text of such a journal is read and checked.
    Text,
    /// It is run on threads without a journal, and its units call functions of this length.
    Calls(Length),
    /// As many calls of this length as it has units are made in a loop, without a runtime.
    Loop(Length),
}

impl Work {
    pub fn name(self) -> &'static str {
        match self {
            Work::Drain => "drained",
            Work::Streams => "on threads",
            Work::Steps { keeps: true } => "with a journal",
            Work::Steps { keeps: false } => "without a journal",
            Work::Wave => "a wave alone",
            Work::Check => "checked",
            Work::Text => "read and checked",
            Work::Calls(Length::Nothing) => "on threads",
            Work::Calls(Length::OneMicrosecond) => "calls of 1 us",
            Work::Calls(Length::FiveMicroseconds) => "calls of 5 us",
            Work::Calls(Length::TwentyMicroseconds) => "calls of 20 us",
            Work::Calls(Length::HundredMicroseconds) => "calls of 100 us",
            Work::Loop(_) => "as a loop",
        }
    }
}

/// Some work, and what was made for it in advance.
#[derive(Drop)]
pub enum Task {
    Drain,
    Streams,
    Steps { keeps: bool },
    Wave,
    Check(Journal),
    Text(Vec<u8>),
    Calls(Length),
    Loop(Length),
}

impl Task {
    pub fn new(alloc: Global, w: &Workload, work: Work) -> io::Result<Task> {
        match work {
            Work::Drain => Ok(Task::Drain),
            Work::Streams => Ok(Task::Streams),
            Work::Steps { keeps } => Ok(Task::Steps { keeps }),
            Work::Wave => Ok(Task::Wave),
            Work::Check => {
                let run = drained(alloc, w, STEPS, true)?;
                Ok(Task::Check(kept_journal(run)?))
            }
            Work::Text => Ok(Task::Text(drained_text(alloc, w, STEPS)?)),
            Work::Calls(length) => Ok(Task::Calls(length)),
            Work::Loop(length) => Ok(Task::Loop(length)),
        }
    }

    /// What is counted of it.
    pub fn counted(&self) -> Counted {
        match self {
            Task::Steps { .. } | Task::Calls(_) | Task::Loop(_) => Counted::Operations,
            _ => Counted::Events,
        }
    }

    /// How many bytes of text it reads.
    pub fn bytes(&self) -> Option<usize> {
        match self {
            Task::Text(text) => Some(text.len()),
            _ => None,
        }
    }
}

/// How many events were made or judged, or how many operations, and what that took.
#[derive(Clone, Copy)]
pub struct Round {
    pub events: u64,
    pub took: Duration,
}

/// Times a task of a workload. A run or a journal that the task makes is dropped after the time is taken; the streams and objects of a
/// wave are dropped within it.
pub fn timed<R: Threads + Wait + Sync + Clock>(
    rt: &R,
    alloc: Global,
    w: &Workload,
    task: &Task,
) -> io::Result<Round> {
    let start = Instant::now(rt)?;
    let outcome = carry_out(rt, alloc, w, task)?;
    let took = start.elapsed(rt)?;
    Ok(Round {
        events: outcome.events(),
        took,
    })
}

// What a task made or judged: a run that kept its journal, a run of which the steps are counted, a journal, or a number of events or
// operations.
#[derive(Drop)]
enum Outcome {
    Run(Run),
    Steps(Run),
    Journal(Journal),
    Events(u64),
}

impl Outcome {
    fn events(&self) -> u64 {
        match self {
            Outcome::Run(run) => count_kept(run),
            Outcome::Steps(run) => run.steps,
            Outcome::Journal(journal) => count(journal),
            Outcome::Events(events) => *events,
        }
    }
}

fn count_kept(run: &Run) -> u64 {
    match &run.journal {
        Some(journal) => count(journal),
        None => 0,
    }
}

fn count(journal: &Journal) -> u64 {
    journal.items().len() as u64
}

// What the task makes.
fn carry_out<R: Threads + Wait + Sync>(
    rt: &R,
    alloc: Global,
    w: &Workload,
    task: &Task,
) -> io::Result<Outcome> {
    match task {
        Task::Drain => Ok(Outcome::Run(drained(alloc, w, STEPS, true)?)),
        Task::Streams => Ok(Outcome::Run(threaded(rt, alloc, w, STEPS, true)?)),
        Task::Steps { keeps } => Ok(Outcome::Steps(threaded(rt, alloc, w, STEPS, *keeps)?)),
        Task::Wave => Ok(Outcome::Events(waved(rt, alloc, w, STEPS)?)),
        Task::Check(journal) => Ok(Outcome::Events(passed(alloc, w, journal)?)),
        Task::Text(text) => Ok(Outcome::Journal(read(alloc, w, text)?)),
        Task::Calls(length) => Ok(Outcome::Steps(calling(rt, alloc, w, *length, STEPS)?)),
        Task::Loop(length) => Ok(Outcome::Events(looped_all(w, *length)?)),
    }
}

// As many calls as there are units, in a loop. Their sum is looked at, so that they are made.
fn looped_all(w: &Workload, length: Length) -> io::Result<u64> {
    let calls = w.units();
    if looped(calls, length) == 0 {
        return Err(io::Error::from(io::ErrorKind::InvalidData));
    }
    Ok(u64::from(calls))
}

// The journal of a text that is a run's.
fn read(alloc: Global, w: &Workload, text: &[u8]) -> io::Result<Journal> {
    let journal = journal_of(alloc, text)?;
    passed(alloc, w, &journal)?;
    Ok(journal)
}

// How many events a journal has that is a run; any other is an error.
fn passed(alloc: Global, w: &Workload, journal: &Journal) -> io::Result<u64> {
    match judged(alloc, w, journal)? {
        Verdict::Run => Ok(count(journal)),
        Verdict::Bad { .. } => Err(io::Error::from(io::ErrorKind::InvalidData)),
    }
}
