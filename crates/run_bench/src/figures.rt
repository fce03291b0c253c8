//! The least and the middle of what rounds took, and of the events that they made.

use crate::rounds::Round;
use bench_times::{Hundredths, each, least_and_middle, ratio};
use std::alloc::{AllocError, Global};
use std::io;

/// A round of one of several racers, who are numbered from 0.
#[derive(Clone, Copy)]
pub struct Lap {
    pub racer: usize,
    pub round: Round,
}

/// The least and the middle of many numbers.
#[derive(Clone, Copy)]
struct Spread {
    least: u128,
    middle: u128,
}

/// What many rounds show.
#[derive(Clone, Copy)]
pub struct Figures {
    /// Hundredths of a nanosecond an event.
    each: Spread,
    /// Nanoseconds.
    whole: Spread,
    events: Spread,
}

/// What is counted of a round: the events of its journal, or the operations of its units.
#[derive(Clone, Copy)]
pub enum Counted {
    Events,
    Operations,
}

impl Counted {
    fn one(self) -> &'static str {
        match self {
            Counted::Events => "an event",
            Counted::Operations => "an operation",
        }
    }

    fn many(self) -> &'static str {
        match self {
            Counted::Events => "events",
            Counted::Operations => "operations",
        }
    }
}

// What is asked of a round.
#[derive(Clone, Copy)]
enum Measure {
    Each,
    Whole,
    Events,
}

impl Measure {
    fn of(self, round: Round) -> u128 {
        let events = u128::from(round.events);
        match self {
            Measure::Each => each(round.took, events),
            Measure::Whole => round.took.as_nanos(),
            Measure::Events => events,
        }
    }
}

// That measure of each lap of a racer.
fn measured(
    alloc: Global,
    laps: &[Lap],
    racer: usize,
    measure: Measure,
) -> Result<Vec<u128>, AllocError> {
    let mut numbers = Vec::new(alloc);
    for lap in laps {
        if lap.racer == racer {
            numbers.push(measure.of(lap.round))?;
        }
    }
    Ok(numbers)
}

fn spread_of(
    alloc: Global,
    laps: &[Lap],
    racer: usize,
    measure: Measure,
) -> Result<Spread, AllocError> {
    let mut numbers = measured(alloc, laps, racer, measure)?;
    let (least, middle) = least_and_middle(&mut numbers)?;
    Ok(Spread { least, middle })
}

impl Figures {
    /// Those of a racer's laps.
    pub fn of(alloc: Global, laps: &[Lap], racer: usize) -> Result<Figures, AllocError> {
        Ok(Figures {
            each: spread_of(alloc, laps, racer, Measure::Each)?,
            whole: spread_of(alloc, laps, racer, Measure::Whole)?,
            events: spread_of(alloc, laps, racer, Measure::Events)?,
        })
    }

    pub fn print<R: Print>(&self, rt: &R, name: &str, counted: Counted) -> io::Result<()> {
        let many = counted.many();
        let one = counted.one();
        println!(rt;
            "{name}: {events} {many}, {least} least, {middle} middle (ns {one}), {rate} {many} a second in the middle",
            events = self.events.middle,
            least = Hundredths(self.each.least),
            middle = Hundredths(self.each.middle),
            rate = rate(self.each.middle)
        )
    }

    /// How fast this many bytes were read.
    pub fn print_bytes<R: Print>(&self, rt: &R, name: &str, bytes: usize) -> io::Result<()> {
        println!(rt;
            "{name}: {bytes} bytes, {best} at best, {usual} in the middle (MB/s)",
            best = megabytes(bytes, self.whole.least),
            usual = megabytes(bytes, self.whole.middle)
        )
    }

    /// How these compare with those of another racer.
    pub fn print_beside<R: Print>(
        &self,
        rt: &R,
        name: &str,
        other: Figures,
        other_name: &str,
        counted: Counted,
    ) -> io::Result<()> {
        let many = counted.many();
        println!(rt;
            "{name} beside {other_name}: {least} times the {many} a second by the least, {middle} by the middle",
            least = ratio(other.each.least, self.each.least),
            middle = ratio(other.each.middle, self.each.middle)
        )?;
        println!(rt;
            "{name} beside {other_name}: {least} times the time by the least, {middle} by the middle; {events} times the {many}",
            least = ratio(self.whole.least, other.whole.least),
            middle = ratio(self.whole.middle, other.whole.middle),
            events = ratio(self.events.middle, other.events.middle)
        )
    }
}

// How many events a second these hundredths of a nanosecond an event are.
fn rate(each: u128) -> u128 {
    100_000_000_000 / each.max(1)
}

// Megabytes a second for this many bytes in these nanoseconds.
fn megabytes(bytes: usize, nanoseconds: u128) -> u128 {
    bytes as u128 * 1000 / nanoseconds.max(1)
}
