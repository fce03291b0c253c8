//! The event whose line begins a text, read in one pass. An event that is found has that line. Nothing may be found where an event's
//! line has a number of twenty digits: `guesses` take a closer look.

ghost use Rattle.std.specs.Prelude.{◌≡◌, ◌+◌, ◌<◌, ◌++◌, ◌∷◌, [], decimal, IfSome};
ghost use Rattle.abt_machine.specs.Texts.{cause_name, code_name, what_words};
ghost use Rattle.abt_machine.specs.Words.{ended, spaced};
ghost use Rattle.abt_report.specs.Journals.{event_line};

use crate::words::{name_of_cause, name_of_code};
use abt_machine::{Cause, Code, Event, PoolNo, Returned, StreamNo, UnitNo, What};

// A number with this many or more has nineteen digits or more, so another digit may be too much for 64 bits.
const LONG: u64 = 1_000_000_000_000_000_000;

const CODES: [Code; 13] = [
    Code::Ok,
    Code::PoolAccess,
    Code::Exists,
    Code::UnitState,
    Code::NotMigratable,
    Code::Absent,
    Code::MutexLocked,
    Code::NotOwner,
    Code::EventualSet,
    Code::FutureFull,
    Code::RwHeld,
    Code::RwFull,
    Code::NotHolder,
];

const CAUSES: [Cause; 4] = [Cause::Done, Cause::Asked, Cause::Access, Cause::Own];

// The digit that the byte is.
#[inline(always)]
fn digit(byte: u8) -> Option<u64>
    ensures { IfSome result (λ d. (48 + d ≡ byte) × (d < 10)) }
{
    if !byte.is_ascii_digit() {
        return None;
    }
    Some(u64::from(byte - b'0'))
}

// The number whose digits begin the text, and what follows them.
#[inline(always)]
fn number(text: &[u8]) -> Option<(u64, &[u8])>
    ensures { IfSome result (λ found. decimal found.0 ++ found.1.now ≡ text.now) }
{
    let (first, mut rest) = text.split_first()?;
    let mut n = digit(*first)?;
    while let Some((byte, more)) = rest.split_first() {
        let Some(next) = digit(*byte) else {
            return Some((n, rest));
        };
        if n == 0 || n >= LONG {
            return None;
        }
        n = n * 10 + next;
        rest = more;
    }
    None
}

// What follows the word in the text, if the text begins with that word.
#[inline(always)]
fn after<'a>(text: &'a [u8], word: &[u8]) -> Option<&'a [u8]>
    ensures { IfSome result (λ rest. word.now ++ rest.now ≡ text.now) }
{
    let rest = text.strip_prefix(word)?;
    Some(rest)
}

// What follows the byte, if the text begins with that byte.
#[inline(always)]
fn after_byte(text: &[u8], byte: u8) -> Option<&[u8]>
    ensures { IfSome result (λ rest. byte ∷ rest.now ≡ text.now) }
{
    let (first, rest) = text.split_first()?;
    if *first != byte {
        return None;
    }
    Some(rest)
}

// The number that begins the text behind a space, and what follows it.
#[inline(always)]
fn long(text: &[u8]) -> Option<(u64, &[u8])>
    ensures { IfSome result (λ found. spaced (decimal found.0 ∷ []) ++ found.1.now ≡ text.now) }
{
    number(after_byte(text, b' ')?)
}

#[inline(always)]
fn short(text: &[u8]) -> Option<(u32, &[u8])>
    ensures { IfSome result (λ found. spaced (decimal found.0 ∷ []) ++ found.1.now ≡ text.now) }
{
    let (n, rest) = long(text)?;
    Some((u32::try_from(n).ok()?, rest))
}

// Two numbers that begin the text, each behind a space, and what follows them.
#[inline(always)]
fn two(text: &[u8]) -> Option<(u32, u32, &[u8])>
    ensures { IfSome result (λ found. spaced (decimal found.0 ∷ decimal found.1 ∷ []) ++ found.2.now ≡ text.now) }
{
    let (n, rest) = short(text)?;
    let (m, rest) = short(rest)?;
    Some((n, m, rest))
}

// The code whose name begins the text behind a space, and what follows it.
#[inline(always)]
fn code(text: &[u8]) -> Option<(Code, &[u8])>
    ensures { IfSome result (λ found. spaced (code_name found.0 ∷ []) ++ found.1.now ≡ text.now) }
{
    let name = after_byte(text, b' ')?;
    for code in &CODES {
        if let Some(rest) = after(name, name_of_code(*code)) {
            return Some((*code, rest));
        }
    }
    None
}

#[inline(always)]
fn cause(text: &[u8]) -> Option<(Cause, &[u8])>
    ensures { IfSome result (λ found. spaced (cause_name found.0 ∷ []) ++ found.1.now ≡ text.now) }
{
    let name = after_byte(text, b' ')?;
    for cause in &CAUSES {
        if let Some(rest) = after(name, name_of_cause(*cause)) {
            return Some((*cause, rest));
        }
    }
    None
}

// What the words that begin the text say, each behind a space, and what follows them: a take, a look, a step or a put, which are most events.
#[inline(always)]
fn turn(text: &[u8]) -> Option<(What, &[u8])>
    ensures { IfSome result (λ found. spaced (what_words found.0) ++ found.1.now ≡ text.now) }
{
    if let Some(rest) = after(text, b" take") {
        let (p, u, rest) = two(rest)?;
        return Some((What::Take(PoolNo(p), UnitNo(u)), rest));
    }
    if let Some(rest) = after(text, b" look") {
        let (u, rest) = short(rest)?;
        return Some((What::Look(UnitNo(u)), rest));
    }
    if let Some(rest) = after(text, b" step") {
        let (u, at, rest) = two(rest)?;
        let (code, rest) = code(rest)?;
        return Some((What::Step(UnitNo(u), at, code), rest));
    }
    let (u, p, rest) = two(after(text, b" put")?)?;
    Some((What::Put(UnitNo(u), PoolNo(p)), rest))
}

// The same of the other events.
fn other(text: &[u8]) -> Option<(What, &[u8])>
    ensures { IfSome result (λ found. spaced (what_words found.0) ++ found.1.now ≡ text.now) }
{
    if let Some(rest) = after(text, b" miss") {
        let (p, rest) = short(rest)?;
        return Some((What::Miss(PoolNo(p)), rest));
    }
    if let Some(rest) = after(text, b" call") {
        let (u, at, rest) = two(rest)?;
        let (value, rest) = long(rest)?;
        return Some((What::Call(UnitNo(u), at, Returned::new(value)), rest));
    }
    if let Some(rest) = after(text, b" end") {
        let (u, rest) = short(rest)?;
        let (cause, rest) = cause(rest)?;
        return Some((What::End(UnitNo(u), cause), rest));
    }
    if let Some(rest) = after(text, b" enter") {
        let (u, rest) = short(rest)?;
        return Some((What::Enter(UnitNo(u)), rest));
    }
    let (u, rest) = short(after(text, b" leave")?)?;
    Some((What::Leave(UnitNo(u)), rest))
}

#[inline(always)]
fn what(text: &[u8]) -> Option<(What, &[u8])>
    ensures { IfSome result (λ found. spaced (what_words found.0) ++ found.1.now ≡ text.now) }
{
    if let Some(found) = turn(text) {
        return Some(found);
    }
    other(text)
}

/// The event whose line begins the text, and what follows that line.
#[inline(always)]
pub(crate) fn glance(text: &[u8]) -> Option<(Event, &[u8])>
    ensures { IfSome result (λ found. ended (event_line found.0) ++ found.1.now ≡ text.now) }
{
    let (stamp, rest) = number(text)?;
    let (stream, rest) = short(rest)?;
    let Some((what, rest)) = what(rest) else {
        return None;
    };
    let more = after_byte(rest, b'\n')?;
    let stream = StreamNo(stream);
    Some((
        Event {
            stamp,
            stream,
            what,
        },
        more,
    ))
}
