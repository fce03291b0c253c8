//! Cycles of units, each of which waits for the next one alone.

ghost use Rattle.std.specs.Prelude.{◌≡◌, ◌++◌, IfOk, OnOk, decimal, flat_map, map, option_map};
ghost use Rattle.std.specs.Option.{option_to_list};
ghost use Rattle.abt_machine.specs.Words.{spaced};
ghost use Rattle.abt_why.specs.Cycles.{cycle_from, cycles_by, number_of, only_holder, waited_for, waits_for};
ghost use Rattle.abt_why.specs.Texts.{cycle_line};

use crate::waits::{Awaited, Holders, Wait};
use abt_lines::{end_line, push_decimal};
use abt_machine::Want;
use std::alloc::Global;

/// Appends a line for each cycle of units that wait for this. Out of memory is the only error.
pub(crate) fn push_cycles(alloc: Global, out: &mut Vec<u8>, waits: &[Wait]) -> Result<(), Want>
    ensures { OnOk result (out.new.items ≡ out.old.items ++ flat_map cycle_line (cycles_by (map waited_for waits.now))) }
{
    let awaited = all_waited_for(alloc, waits)?;
    push_all(alloc, out, &awaited)
}

// The one unit for which each unit waits, if there is one.
fn all_waited_for(alloc: Global, waits: &[Wait]) -> Result<Vec<Option<usize>>, Want>
    ensures { IfOk result (λ awaited. awaited.items ≡ map waited_for waits.now) }
{
    let mut awaited = Vec::with_capacity(alloc, waits.len())?;
    for wait in waits {
        awaited.push(waited_for(wait))?;
    }
    Ok(awaited)
}

// The one unit for which a unit waits, if there is one.
fn waited_for(wait: &Wait) -> Option<usize>
    ensures { result ≡ waited_for wait.now }
{
    match wait {
        Wait::Nothing
        | Wait::Pool(_, _)
        | Wait::Stream(_)
        | Wait::Resume
        | Wait::Condition(_, _)
        | Wait::Eventual(_)
        | Wait::Future(_, _, _)
        | Wait::Barrier(_, _, _) => None,
        Wait::Join(awaited) => Some(awaited.unit.0 as usize),
        Wait::Mutex(_, owner) => number_of(owner),
        Wait::RwLock(_, _, holders) => only_holder(holders),
    }
}

// The number of a unit, if there is one.
fn number_of(awaited: &Option<Awaited>) -> Option<usize>
    ensures { result ≡ option_map number_of awaited.now }
{
    match awaited {
        Some(awaited) => Some(awaited.unit.0 as usize),
        None => None,
    }
}

// The only holder of a reader-writer lock.
fn only_holder(holders: &Holders) -> Option<usize>
    ensures { result ≡ only_holder holders.now }
{
    match holders {
        Holders::Writer(awaited) => Some(awaited.unit.0 as usize),
        Holders::Reader(awaited) => Some(awaited.unit.0 as usize),
        Holders::Readers(_) => None,
    }
}

// Appends a line for each cycle.
fn push_all(alloc: Global, out: &mut Vec<u8>, awaited: &[Option<usize>]) -> Result<(), Want>
    ensures { OnOk result (out.new.items ≡ out.old.items ++ flat_map cycle_line (cycles_by awaited.now)) }
{
    for u in 0..awaited.len() {
        push_some(out, cycle_from(alloc, awaited, u)?)?;
    }
    Ok(())
}

// The cycle on which that unit is the least.
fn cycle_from(
    alloc: Global,
    awaited: &[Option<usize>],
    u: usize,
) -> Result<Option<Vec<usize>>, Want>
    ensures { IfOk result (λ cycle. option_map (λ units. units.items) cycle ≡ cycle_from awaited.now u) }
{
    let mut units = Vec::new(alloc);
    units.push(u)?;
    let mut next = waits_for(awaited, u);
    for _ in 0..awaited.len() {
        let Some(v) = next else {
            return Ok(None);
        };
        if v < u {
            return Ok(None);
        }
        if v == u {
            return Ok(Some(units));
        }
        units.push(v)?;
        next = waits_for(awaited, v);
    }
    Ok(None)
}

// The unit for which that unit waits alone.
fn waits_for(awaited: &[Option<usize>], u: usize) -> Option<usize>
    ensures { result ≡ waits_for awaited.now u }
{
    match awaited.get(u) {
        Some(next) => *next,
        None => None,
    }
}

// Appends the line of a cycle, if it is one.
fn push_some(out: &mut Vec<u8>, cycle: Option<Vec<usize>>) -> Result<(), Want>
    ensures { OnOk result (out.new.items ≡ out.old.items ++ flat_map cycle_line (option_to_list (option_map (λ units. units.items) cycle))) }
{
    match cycle {
        Some(units) => push_cycle(out, &units),
        None => Ok(()),
    }
}

// Appends the line of a cycle.
fn push_cycle(out: &mut Vec<u8>, units: &[usize]) -> Result<(), Want>
    ensures { OnOk result (out.new.items ≡ out.old.items ++ cycle_line units.now) }
{
    out.extend_from_slice(b"cycle")?;
    push_numbers(out, units)?;
    end_line(out)
}

// Appends numbers, with a space before each.
fn push_numbers(out: &mut Vec<u8>, numbers: &[usize]) -> Result<(), Want>
    ensures { OnOk result (out.new.items ≡ out.old.items ++ spaced (map decimal numbers.now)) }
{
    for n in numbers {
        push_decimal(out, *n as u64)?;
    }
    Ok(())
}
