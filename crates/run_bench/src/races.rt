//! Races: kinds of work, of which a round each takes turns.

use crate::figures::{Figures, Lap};
use crate::loads::Load;
use crate::rounds::{Task, Work, timed};
use abt_machine::Workload;
use std::alloc::Global;
use std::io;
use std::rt::Clock;
use std::sync::Wait;
use std::thread::Threads;

const ROUNDS: u32 = 21;

/// A kind of work on a workload.
pub type Entry = (Load, Work);

// An entry with all that its rounds need, by the name under which its times are printed.
#[derive(Drop)]
struct Racer {
    name: String,
    workload: Workload,
    task: Task,
}

impl Racer {
    fn new(alloc: Global, (load, work): Entry) -> io::Result<Racer> {
        let name = format!(in alloc; "{}, {}", load.name(), work.name())?;
        let workload = load.workload(alloc)?;
        let task = Task::new(alloc, &workload, work)?;
        Ok(Racer {
            name,
            workload,
            task,
        })
    }

    // Its figures, printed.
    fn print<R: Print>(&self, rt: &R, figures: Figures) -> io::Result<()> {
        figures.print(rt, &self.name, self.task.counted())?;
        match self.task.bytes() {
            Some(bytes) => figures.print_bytes(rt, &self.name, bytes),
            None => Ok(()),
        }
    }
}

/// Prints the times of all entries of each race, and how those of each but the first compare with the first's.
pub fn races<R: Threads + Wait + Sync + Print + Clock>(
    rt: &R,
    alloc: Global,
    races: &[&[Entry]],
) -> io::Result<()> {
    for entries in races {
        race(rt, alloc, entries)?;
    }
    Ok(())
}

// The same of one race.
fn race<R: Threads + Wait + Sync + Print + Clock>(
    rt: &R,
    alloc: Global,
    entries: &[Entry],
) -> io::Result<()> {
    let racers = racers(alloc, entries)?;
    let laps = laps(rt, alloc, &racers)?;
    print_race(rt, alloc, &racers, &laps)
}

// The entries, each with all that its rounds need.
fn racers(alloc: Global, entries: &[Entry]) -> io::Result<Vec<Racer>> {
    let mut racers = Vec::new(alloc);
    for entry in entries {
        racers.push(Racer::new(alloc, *entry)?)?;
    }
    Ok(racers)
}

// Many rounds, in each of which each racer has a turn.
fn laps<R: Threads + Wait + Sync + Clock>(
    rt: &R,
    alloc: Global,
    racers: &[Racer],
) -> io::Result<Vec<Lap>> {
    let mut laps = Vec::new(alloc);
    for _ in 0..ROUNDS {
        add_laps(rt, alloc, racers, &mut laps)?;
    }
    Ok(laps)
}

// A turn of each racer.
fn add_laps<R: Threads + Wait + Sync + Clock>(
    rt: &R,
    alloc: Global,
    racers: &[Racer],
    laps: &mut Vec<Lap>,
) -> io::Result<()> {
    for (number, racer) in racers.iter().enumerate() {
        let round = timed(rt, alloc, &racer.workload, &racer.task)?;
        laps.push(Lap {
            racer: number,
            round,
        })?;
    }
    Ok(())
}

// The figures of all racers, and how those of each but the first compare with the first's.
fn print_race<R: Print>(rt: &R, alloc: Global, racers: &[Racer], laps: &[Lap]) -> io::Result<()> {
    let Some((first, others)) = racers.split_first() else {
        return Ok(());
    };
    let base = Figures::of(alloc, laps, 0)?;
    first.print(rt, base)?;
    for (at, racer) in others.iter().enumerate() {
        let figures = Figures::of(alloc, laps, at + 1)?;
        racer.print(rt, figures)?;
        figures.print_beside(rt, &racer.name, base, &first.name, racer.task.counted())?;
    }
    Ok(())
}
