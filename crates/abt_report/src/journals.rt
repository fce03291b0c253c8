//! The text of a journal.

ghost use Rattle.std.specs.Prelude.{◌≡◌, ◌+◌, ◌<◌, ◌≤◌, ◌++◌, ◌∷◌, [], decimal, drop, length, IfOk, OnOk};
ghost use Rattle.abt_machine.specs.Texts.{journal_text as text_of_journal, what_words};
ghost use Rattle.abt_machine.specs.Words.{ended, spaced};
ghost use Rattle.abt_report.specs.Journals.{event_line};

use crate::backward::{
    BLOCK_LENGTH, Block, decimal_before, feed_at_end, number_before, word_before,
};
use crate::words::{name_of_cause, name_of_code};
use abt_machine::{Event, Journal, Want, What};
use std::alloc::Global;

// Writes a word and a number before what begins at `end`, with a space before each.
#[inline(always)]
fn numbered_before(block: &mut Block, end: usize, word: &[u8], n: u32) -> usize
    requires room { (length word.now + 22 ≤ end) × (end ≤ 128) }
    ensures place { (result < end) × (end ≤ result + length word.now + 22) }
    ensures written { drop result block.new ≡ spaced (word.now ∷ decimal n ∷ []) ++ drop end block.old }
{
    let start = decimal_before(block, end, u64::from(n));
    word_before(block, start, word)
}

// Writes a number, and then a word and a number before it, with a space before each.
#[inline(always)]
fn twice_numbered_before(block: &mut Block, end: usize, word: &[u8], n: u32, m: u32) -> usize
    requires room { (length word.now + 43 ≤ end) × (end ≤ 128) }
    ensures place { (result < end) × (end ≤ result + length word.now + 43) }
    ensures written { drop result block.new ≡ spaced (word.now ∷ decimal n ∷ decimal m ∷ []) ++ drop end block.old }
{
    let start = decimal_before(block, end, u64::from(m));
    numbered_before(block, start, word, n)
}

// Writes what happened before what begins at `end`, with a space before each word.
#[inline(always)]
fn what_before(block: &mut Block, end: usize, what: What) -> usize
    requires room { (68 ≤ end) × (end ≤ 128) }
    ensures place { (result < end) × (end ≤ result + 68) }
    ensures written { drop result block.new ≡ spaced (what_words what) ++ drop end block.old }
{
    match what {
        What::Miss(p) => numbered_before(block, end, b"miss", p.0),
        What::Take(p, u) => twice_numbered_before(block, end, b"take", p.0, u.0),
        What::Look(u) => numbered_before(block, end, b"look", u.0),
        What::Step(u, at, code) => {
            let start = word_before(block, end, name_of_code(code));
            twice_numbered_before(block, start, b"step", u.0, at)
        }
        What::Call(u, at, value) => {
            let start = decimal_before(block, end, value.get());
            twice_numbered_before(block, start, b"call", u.0, at)
        }
        What::Put(u, p) => twice_numbered_before(block, end, b"put", u.0, p.0),
        What::End(u, cause) => {
            let start = word_before(block, end, name_of_cause(cause));
            numbered_before(block, start, b"end", u.0)
        }
        What::Enter(u) => numbered_before(block, end, b"enter", u.0),
        What::Leave(u) => numbered_before(block, end, b"leave", u.0),
    }
}

/// Writes the line of an event before what begins at `end`, and returns where the line begins.
#[inline(always)]
pub(crate) fn line_before(block: &mut Block, end: usize, event: &Event) -> usize
    requires room { (109 ≤ end) × (end ≤ 128) }
    ensures place { result < end }
    ensures written { drop result block.new ≡ event_line event.now ++ drop end block.old }
{
    let start = what_before(block, end, event.what);
    let start = decimal_before(block, start, u64::from(event.stream.0));
    number_before(block, start, event.stamp)
}

/// Writes the line of an event with its line feed at the end of the block, and returns where it begins.
#[inline(always)]
pub(crate) fn ended_line(block: &mut Block, event: &Event) -> usize
    ensures place { result < 128 }
    ensures written { drop result block.new ≡ ended (event_line event.now) }
{
    let end = feed_at_end(block);
    line_before(block, end, event)
}

// Appends the line of an event, which is written into the block first.
#[inline]
fn push_line(out: &mut Vec<u8>, block: &mut Block, event: &Event) -> Result<(), Want>
    ensures { OnOk result (out.new.items ≡ out.old.items ++ ended (event_line event.now)) }
{
    let start = ended_line(block, event);
    out.extend_from_slice(&block[start..])?;
    Ok(())
}

// How many bytes of memory are asked for ahead for a line: most lines have fewer, and a text that needs more grows.
const USUAL_LENGTH: usize = 24;

/// The text of a journal: one line for each event, with its stamp, its stream, and what happened.
pub fn journal_text(alloc: Global, journal: &Journal) -> Result<Vec<u8>, Want>
    ensures { IfOk result (λ text. text.items ≡ text_of_journal journal.now) }
{
    let events = journal.items();
    let mut out = Vec::with_capacity(alloc, events.len().saturating_mul(USUAL_LENGTH))?;
    let mut block = [0; BLOCK_LENGTH];
    for event in events {
        push_line(&mut out, &mut block, event)?;
    }
    Ok(out)
}
