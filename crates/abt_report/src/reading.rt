//! Journals, read back from their texts.

ghost use Rattle.std.specs.Prelude.{◌≡◌, ◌≢◌, ◌<◌, ◌-◌, ◌^◌, [], ◌∷◌, ◌++◌, All, IfErr, IfOk, MatchBool, OnOk, length};
ghost use Rattle.abt_machine.specs.Texts.{journal_text};
ghost use Rattle.abt_report.specs.Journals.{IsCause, IsEvent, ReadsLine, ReadsMore, event_line};

use crate::backward::{BLOCK_LENGTH, Block};
use crate::cuts::cut;
use crate::glances::glance;
use crate::guesses::{event, split};
use crate::journals::line_before;
use crate::text_fault::TextFault;
use abt_machine::{Event, Journal, Want, What};
use std::alloc::Global;

/// The most bytes of a file that programs read as a journal's text.
pub const JOURNAL_LIMIT: usize = 1_073_741_824;

// Whether the line is that of the event, whose line is written into the block in order to compare them.
fn is_line_of(line: &[u8], event: &Event, block: &mut Block) -> bool
    ensures { MatchBool result (event_line event.now ≡ line.now) (event_line event.now ≢ line.now) }
{
    let start = line_before(block, BLOCK_LENGTH, event);
    &block[start..] == line
}

// Appends an event. What happened has a name, since the prover makes no plan for the push of a type that is not named here.
fn keep(events: &mut Vec<Event>, event: &Event) -> Result<(), Want>
    ensures { OnOk result (events.new.items ≡ events.old.items ++ event.now ∷ []) }
{
    let what: What = event.what;
    events.push(Event { what, ..*event })?;
    Ok(())
}

// Appends the event whose line this is, if there is one. The words are a buffer, used again for each line.
fn read_event<'a>(
    line: &'a [u8],
    words: &mut Vec<&'a [u8]>,
    block: &mut Block,
    events: &mut Vec<Event>,
) -> Result<bool, Want>
    ensures { IfOk result (λ read. ReadsMore line.entry.now events.old.items read events.new.items) }
{
    split(words, line)?;
    let Some(event) = event(words) else {
        return Ok(false);
    };
    if !is_line_of(line, &event, block) {
        return Ok(false);
    }
    keep(events, &event)?;
    Ok(true)
}

// The same of the line that begins a text, word by word, and what follows it.
#[inline(never)]
fn read_words<'a>(
    text: &'a [u8],
    words: &mut Vec<&'a [u8]>,
    block: &mut Block,
    events: &mut Vec<Event>,
) -> Result<Option<&'a [u8]>, Want>
    ensures { IfOk result (λ more. ReadsLine text.entry.now events.old.items more events.new.items) }
{
    let Some((line, more)) = cut(text, b'\n') else {
        return Ok(None);
    };
    if !read_event(line, words, block, events)? {
        return Ok(None);
    }
    Ok(Some(more))
}

// Appends the event whose line begins the text, and returns what follows the line; nothing if the text begins with no event's line. A
// glance finds almost every event, and whether there is none is seen word by word.
fn read_line<'a>(
    text: &'a [u8],
    words: &mut Vec<&'a [u8]>,
    block: &mut Block,
    events: &mut Vec<Event>,
) -> Result<Option<&'a [u8]>, Want>
    ensures { IfOk result (λ more. ReadsLine text.entry.now events.old.items more events.new.items) }
{
    if let Some((event, more)) = glance(text) {
        keep(events, &event)?;
        return Ok(Some(more));
    }
    read_words(text, words, block, events)
}

/// The journal whose text this is.
///
/// # Errors
///
/// `Bad` with the first line, counted from 1, at which no journal's text agrees with the bytes; `Memory` if memory is refused.
pub fn read_journal(alloc: Global, bytes: &[u8]) -> Result<Journal, TextFault>
    requires { length bytes.now < 2 ^ 32 - 1 }
    ensures ok { IfOk result (λ journal. journal_text journal ≡ bytes.now) }
    ensures events { IfOk result (All IsEvent) }
    ensures cause { IfErr result (IsCause bytes.now) }
{
    let mut events = Vec::new(alloc);
    let mut words = Vec::new(alloc);
    let mut block = [0; BLOCK_LENGTH];
    let mut rest = bytes;
    let mut line = 1;
    while !rest.is_empty() {
        let Some(more) = read_line(rest, &mut words, &mut block, &mut events)? else {
            return Err(TextFault::Bad { line });
        };
        rest = more;
        line += 1;
    }
    Ok(Journal::new(events))
}
