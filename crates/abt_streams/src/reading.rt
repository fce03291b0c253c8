//! The lives of streams, read from a text.

ghost use Rattle.std.specs.Prelude.{ℕ, ◌≡◌, ◌≢◌, ◌<◌, ◌^◌, ◌↔◌, All, IfErr, IfOk, IsTrue, MatchBool, MatchOption, OnOk, Some, decimal, length, slice_index, take};
ghost use Rattle.std.specs.Str.{is_utf8};
ghost use Rattle.abt_machine.specs.Faults.{is_skipped};
ghost use Rattle.abt_machine.specs.Operations.{IsEventual};
ghost use Rattle.abt_machine.specs.Spelling.{is_separator, words_of};
ghost use Rattle.abt_report.specs.Journals.{IsShort, ReadsAs};
ghost use Rattle.abt_streams.specs.declared.life.Life.{Life};
ghost use Rattle.abt_streams.specs.Lives.{AreLives, MayFollow};
ghost use Rattle.abt_streams.specs.Texts.{IsCut, IsLivesCause, IsNoFeed, IsShortLife, IsTextOfLives, SpellNumbers, Takes, is_skipped_line, life_line};

use crate::life::{Life, Lives};
use abt_lines::{end_line, push_decimal};
use abt_machine::{ObjectNo, StreamNo, Thing, Want, Workload};
use abt_report::TextFault;
use std::alloc::Global;
use std::str;

// Where the first line feed is.
fn feed_at(text: &[u8]) -> Option<usize>
    ensures { MatchOption result (All IsNoFeed text.now) (λ i. (i < length text.now) × All IsNoFeed (take i text.now) × (slice_index text.now i ≡ 10)) }
{
    text.iter().position(|b| *b == b'\n')
}

// The first line of a text without its line feed, and with it, if it has one; and what follows.
#[derive(Clone, Copy)]
struct Cut<'a> {
    line: &'a [u8],
    whole: &'a [u8],
    rest: &'a [u8],
}

fn first_line(text: &[u8]) -> Cut<'_>
    ensures { IsCut text.now result.line.now result.whole.now result.rest.now }
{
    match feed_at(text) {
        Some(end) => {
            let (whole, rest) = text.split_at(end + 1);
            Cut {
                line: &text[..end],
                whole,
                rest,
            }
        }
        None => Cut {
            line: text,
            whole: text,
            rest: &[],
        },
    }
}

fn is_separator(b: u8) -> bool
    ensures { result ≡ is_separator b }
{
    b == b' ' || b == b'\t'
}

// Whether a line has no words, or its first begins with `#`.
fn has_no_first_word(line: &[u8]) -> bool
    ensures { result ≡ is_skipped (words_of line.now) }
{
    for b in line {
        if !is_separator(*b) {
            return *b == b'#';
        }
    }
    true
}

fn is_utf8(line: &[u8]) -> bool
    ensures { result ≡ is_utf8 line.now }
{
    match str::from_utf8(line) {
        Ok(_) => true,
        Err(_) => false,
    }
}

// Whether a line is skipped.
fn is_skipped(line: &[u8]) -> bool
    ensures { result ≡ is_skipped_line line.now }
{
    has_no_first_word(line) && is_utf8(line)
}

// The number that a word is.
fn number(word: &str) -> Option<u32>
    ensures { (n : ℕ) → IsShort n → decimal n ≡ word.now → result ≡ Some n }
{
    word.parse().ok()
}

// The life with these numbers.
fn parsed_life(stream: &str, begins: &str, ends: &str) -> Option<Life>
    ensures { (life : Life) → IsShortLife life → SpellNumbers life stream.now begins.now ends.now → result ≡ Some life }
{
    Some(Life {
        stream: StreamNo(number(stream)?),
        begins: ObjectNo(number(begins)?),
        ends: ObjectNo(number(ends)?),
    })
}

// The words of a line after its first.
fn numbers<'a>(line: &'a str) -> Option<(&'a str, &'a str, &'a str)>
    ensures { (life : Life) → IsShortLife life → life_line life ≡ line.entry.now → MatchOption result ⊥ (λ words. SpellNumbers life words.0.now words.1.now words.2.now) }
{
    let (_, numbers) = line.split_once(' ')?;
    let (stream, objects) = numbers.split_once(' ')?;
    let (begins, end) = objects.split_once(' ')?;
    let (ends, _) = end.split_once('\n')?;
    Some((stream, begins, ends))
}

// The life that the line may be that of: if it is the line of a life, it is of that one.
fn guess(line: &[u8]) -> Option<Life>
    ensures { (life : Life) → IsShortLife life → life_line life ≡ line.now → result ≡ Some life }
{
    let Ok(line) = str::from_utf8(line) else {
        return None;
    };
    let (stream, begins, ends) = numbers(line)?;
    parsed_life(stream, begins, ends)
}

// Writes the line of the life into the text.
fn write_line(text: &mut Vec<u8>, life: &Life) -> Result<(), Want>
    ensures { OnOk result (text.new.items ≡ life_line life.now) }
{
    text.clear();
    text.extend_from_slice(b"life")?;
    push_decimal(text, u64::from(life.stream.0))?;
    push_decimal(text, u64::from(life.begins.0))?;
    push_decimal(text, u64::from(life.ends.0))?;
    end_line(text)
}

// Whether the line is that of the life, which is written into the text for it.
fn is_line_of(line: &[u8], life: &Life, text: &mut Vec<u8>) -> Result<bool, Want>
    ensures { IfOk result (λ is. MatchBool is (life_line life.now ≡ line.now) (life_line life.now ≢ line.now)) }
{
    write_line(text, life)?;
    Ok(text.as_slice() == line)
}

fn is_eventual(w: &Workload, x: ObjectNo) -> bool
    ensures { IsTrue result ↔ IsEventual w.now x.0 }
{
    x.0 < w.objects() && matches!(w.thing(x), Thing::Eventual)
}

// Whether the life is one of a stream of the workload that has none of these.
fn may_follow(w: &Workload, before: &[Life], life: &Life) -> bool
    ensures { IsTrue result ↔ MayFollow w.now before.now life.now }
{
    life.stream.0 < w.streams()
        && before.iter().all(|other| other.stream.0 != life.stream.0)
        && is_eventual(w, life.begins)
        && is_eventual(w, life.ends)
        && life.begins.0 != life.ends.0
}

// The life that this line adds to these. The text is room that is used again.
fn read_life(
    w: &Workload,
    before: &[Life],
    line: &[u8],
    text: &mut Vec<u8>,
) -> Result<Option<Life>, Want>
    ensures { IfOk result (ReadsAs (MayFollow w.now before.now) life_line line.now) }
{
    w.known();
    let Some(life) = guess(line) else {
        return Ok(None);
    };
    if !may_follow(w, before, &life) {
        return Ok(None);
    }
    if is_line_of(line, &life, text)? {
        return Ok(Some(life));
    }
    Ok(None)
}

// Adds the life of a line to these, unless the line is skipped; whether the line breaks no rule. The text is room that is used again.
fn take_line(
    w: &Workload,
    lives: &mut Vec<Life>,
    cut: &Cut,
    text: &mut Vec<u8>,
) -> Result<bool, Want>
    ensures { IfOk result (λ right. Takes w.now lives.old.items cut.now.line.now cut.now.whole.now right lives.new.items) }
{
    if is_skipped(cut.line) {
        return Ok(true);
    }
    match read_life(w, lives, cut.whole, text)? {
        Some(life) => {
            lives.push(life)?;
            Ok(true)
        }
        None => Ok(false),
    }
}

/// The lives of streams of the workload whose text this is. Each line is `life S X Y`, with single spaces, numbers without
/// leading zeros, and a line feed: S is a stream that no earlier line names, and X and Y are two different eventuals. A line that a
/// workload's text skips is skipped and counted.
///
/// # Errors
///
/// `Bad` with the first line, counted from 1, that breaks a rule; `Memory` if it is out of memory.
pub fn read_lives(alloc: Global, w: &Workload, bytes: &[u8]) -> Result<Lives, TextFault>
    requires { length bytes.now < 2 ^ 32 }
    ensures lives { IfOk result (λ lives. AreLives w.now lives) }
    ensures text { IfOk result (λ lives. IsTextOfLives lives bytes.now) }
    ensures cause { IfErr result (IsLivesCause w.now bytes.now) }
{
    w.known();
    let mut lives = Vec::new(alloc);
    let mut text = Vec::new(alloc);
    let mut rest = bytes;
    let mut line = 0u32;
    while !rest.is_empty() {
        let cut = first_line(rest);
        line += 1;
        if !take_line(w, &mut lives, &cut, &mut text)? {
            return Err(TextFault::Bad { line });
        }
        rest = cut.rest;
    }
    Ok(Lives::new(lives))
}
