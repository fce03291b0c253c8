//! Workloads with each count at its limit, and texts of the greatest length, written and read again.

ghost use Rattle.std.specs.Prelude.{◌<◌};

use crate::refusals::refused;
use crate::writings::is_written;
use abt_machine::Fault;
use std::alloc::{AllocError, Global};
use std::test::Fail;

// The most bytes of a text of format 1.
const MOST: usize = 4_194_304;

// A word of 58 bytes, and a longer one.
const SHORT: &str = "abcdefghijklmnopqrstuvwxyzABCDEFGHIJKLMNOPQRSTUVWXYZ012345";

const LONG: &str = "abcdefghijklmnopqrstuvwxyzABCDEFGHIJKLMNOPQRSTUVWXYZ0123456";

// Appends 64 pools.
fn push_pools(text: &mut String) -> Result<(), AllocError> {
    for p in 0..64 {
        writeln!(text, "pool {p} fifo mpmc")?;
    }
    Ok(())
}

// Appends the numbers of eight pools, from pool p on.
fn push_eight(text: &mut String, p: u32) -> Result<(), AllocError>
    requires { p < 64 }
{
    for i in 0..8 {
        let pool = (p + i) % 64;
        write!(text, " {pool}")?;
    }
    Ok(())
}

// Appends 64 schedulers, each of eight pools.
fn push_scheds(text: &mut String) -> Result<(), AllocError> {
    for g in 0..64 {
        write!(text, "sched {g} prio")?;
        push_eight(text, g)?;
        text.push('\n')?;
    }
    Ok(())
}

// Appends eight streams.
fn push_streams(text: &mut String) -> Result<(), AllocError> {
    for s in 0..8 {
        writeln!(text, "stream {s} main {s}")?;
    }
    Ok(())
}

// Appends 256 objects.
fn push_objects(text: &mut String) -> Result<(), AllocError> {
    for x in 0..256 {
        writeln!(text, "object {x} future 4096 sum")?;
    }
    Ok(())
}

// Appends 256 operations, of which the first say the longer word.
fn push_says(text: &mut String, longer: usize) -> Result<(), AllocError> {
    for k in 0..256 {
        let word = if k < longer { LONG } else { SHORT };
        writeln!(text, "say {word}")?;
    }
    Ok(())
}

// Appends 256 units, of whose operations the first say the longer word.
fn push_units(text: &mut String, longer: usize) -> Result<(), AllocError> {
    for u in 0..256 {
        writeln!(text, "unit {u} ult at 63")?;
        push_says(text, longer.saturating_sub(u * 256))?;
    }
    Ok(())
}

// Appends a workload of that format with each count at its limit, in which so many words are longer than the others.
fn push_widest(text: &mut String, version: u32, longer: usize) -> Result<(), AllocError> {
    write!(text, "abt {version}\nstreams 8\nkeys 16\n")?;
    push_pools(text)?;
    push_scheds(text)?;
    push_streams(text)?;
    push_objects(text)?;
    text.push_str("units 256\n")?;
    push_units(text, longer)?;
    text.push_str("end\n")
}

// The text of a widest workload that has so many bytes, if its words can be chosen so.
fn widest_of(alloc: Global, version: u32, bytes: usize) -> Result<String, AllocError> {
    let mut text = String::new(alloc);
    push_widest(&mut text, version, 0)?;
    let longer = bytes.saturating_sub(text.len());
    text.clear();
    push_widest(&mut text, version, longer)?;
    Ok(text)
}

// Whether a widest workload of that format has a text of so many bytes, and is written so.
fn is_widest_written(alloc: Global, version: u32, bytes: usize) -> Result<bool, AllocError> {
    let text = widest_of(alloc, version, bytes)?;
    Ok(text.len() == bytes && is_written(alloc, text.as_bytes(), text.as_bytes()))
}

#[test]
fn the_longest_text_is_written_whole(rt: HostRuntime) -> Result<(), Fail> {
    let is = is_widest_written(rt.alloc(), 1, MOST)?;
    assert!(rt; is);
    Ok(())
}

#[test]
fn a_text_of_one_byte_more_is_of_format_2(rt: HostRuntime) -> Result<(), Fail> {
    let text = widest_of(rt.alloc(), 1, MOST + 1)?;
    let found = refused(rt.alloc(), text.as_bytes());
    let is = is_widest_written(rt.alloc(), 2, MOST + 1)?;
    assert!(rt; is && text.len() == MOST + 1 && found == Some((0, Fault::Limit)));
    Ok(())
}
