//! Where two texts differ first, and how that is said.

ghost use Rattle.std.specs.Prelude.{◌≡◌, ◌≢◌, ◌≤◌, ◌++◌, IfOk, MatchOption, OnOk, flat_map, length};
ghost use Rattle.abt_run.specs.Differing.{DifferAfter, after_line, escaped, expected_text, first_line, quoted};

use abt_lines::{end_line, push_number};
use abt_machine::Want;
use std::alloc::Global;

/// The first lines that differ of two texts, with their line feeds: how many lines are before them, and both.
#[derive(Clone, Copy)]
pub(crate) struct Difference<'a> {
    pub(crate) after: usize,
    pub(crate) expected: &'a [u8],
    pub(crate) found: &'a [u8],
}

// What follows the first line of a text.
fn after_line(text: &[u8]) -> &[u8]
    ensures rest { result.now ≡ after_line text.now }
    ensures bound { length result.now ≤ length text.now }
{
    let mut rest = text;
    while let Some((byte, more)) = rest.split_first() {
        rest = more;
        if *byte == b'\n' {
            return rest;
        }
    }
    rest
}

/// The first line with its line feed, if it has one, and what follows it.
pub(crate) fn split_line(text: &[u8]) -> (&[u8], &[u8])
    ensures line { result.0.now ≡ first_line text.now }
    ensures rest { result.1.now ≡ after_line text.now }
{
    let rest = after_line(text);
    (&text[..text.len() - rest.len()], rest)
}

/// Where a text differs first from the one that is expected, if it does.
pub(crate) fn first_difference<'a>(expected: &'a [u8], found: &'a [u8]) -> Option<Difference<'a>>
    ensures { MatchOption result
        (expected.entry.now ≡ found.entry.now)
        (λ d. DifferAfter d.after expected.entry.now found.entry.now d.expected.now d.found.now) }
{
    let mut one = expected;
    let mut other = found;
    let mut after = 0;
    loop {
        let (line, more) = split_line(one);
        let (instead, others) = split_line(other);
        if line != instead {
            return Some(Difference {
                after,
                expected: line,
                found: instead,
            });
        }
        if line.is_empty() {
            return None;
        }
        one = more;
        other = others;
        after += 1;
    }
}

// Appends a byte, or `\n` for a line feed.
fn push_escaped(text: &mut Vec<u8>, byte: u8) -> Result<(), Want>
    ensures { OnOk result (text.new.items ≡ text.old.items ++ escaped byte) }
{
    if byte == b'\n' {
        text.extend_from_slice(b"\\n")?;
    } else {
        text.push(byte)?;
    }
    Ok(())
}

// Appends bytes, with `\n` for each line feed.
fn push_all(text: &mut Vec<u8>, line: &[u8]) -> Result<(), Want>
    ensures { OnOk result (text.new.items ≡ text.old.items ++ flat_map escaped line.now) }
{
    for byte in line {
        push_escaped(text, *byte)?;
    }
    Ok(())
}

// Appends a line in quotes.
fn push_quoted(text: &mut Vec<u8>, line: &[u8]) -> Result<(), Want>
    ensures { OnOk result (text.new.items ≡ text.old.items ++ quoted line.now) }
{
    text.extend_from_slice(b"\"")?;
    push_all(text, line)?;
    text.extend_from_slice(b"\"")?;
    Ok(())
}

/// A line in quotes.
pub(crate) fn quoted(alloc: Global, line: &[u8]) -> Result<Vec<u8>, Want>
    ensures { IfOk result (λ text. text.items ≡ quoted line.now) }
{
    let mut text = Vec::new(alloc);
    push_quoted(&mut text, line)?;
    Ok(text)
}

/// What is printed of a line that is the first that is wrong: this is expected in its place.
pub(crate) fn expected_text(
    alloc: Global,
    line: u64,
    expected: &[u8],
    found: &[u8],
) -> Result<Vec<u8>, Want>
    ensures { IfOk result (λ text. text.items ≡ expected_text line expected.now found.now) }
{
    let mut text = Vec::from_slice(alloc, b"bad ")?;
    push_number(&mut text, line)?;
    text.extend_from_slice(b"\nexpected ")?;
    text.extend_from_slice(expected)?;
    text.extend_from_slice(b"\nfound ")?;
    push_quoted(&mut text, found)?;
    end_line(&mut text)?;
    Ok(text)
}
