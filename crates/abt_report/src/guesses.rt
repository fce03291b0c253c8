//! The only event that can have these words: if they are the words of an event, it is that one.

ghost use Rattle.std.specs.Prelude.{◌≡◌, ◌<◌, ◌^◌, ℕ, [], ◌∷◌, OnOk, Some, decimal, map, take};
ghost use Rattle.std.specs.List.{slice_split};
ghost use Rattle.std.specs.Str.{bytes_eq};
ghost use Rattle.abt_machine.specs.declared.events.Cause.{Cause};
ghost use Rattle.abt_machine.specs.declared.events.Code.{Code};
ghost use Rattle.abt_machine.specs.declared.events.Event.{Event};
ghost use Rattle.abt_machine.specs.declared.events.What.{What};
ghost use Rattle.abt_machine.specs.Texts.{event_words, what_words};
ghost use Rattle.abt_report.specs.Guesses.{cause_of, code_named, is_space, what_of_one, what_of_two};
ghost use Rattle.abt_report.specs.Journals.{HasShortNumbers, IsEvent};

use crate::cuts::cut;
use abt_machine::{Cause, Code, Event, PoolNo, Returned, StreamNo, UnitNo, Want, What};
use std::str;

// The number of 64 bits whose decimal digits the word is.
fn long(word: &[u8]) -> Option<u64>
    ensures { (n : ℕ) → n < 2 ^ 64 → decimal n ≡ word.now → result ≡ Some n }
{
    let Ok(text) = str::from_utf8(word) else {
        return None;
    };
    let Ok(n) = text.parse::<u64>() else {
        return None;
    };
    Some(n)
}

// The number of 32 bits whose decimal digits the word is.
fn short(word: &[u8]) -> Option<u32>
    ensures { (n : ℕ) → n < 2 ^ 32 → decimal n ≡ word.now → result ≡ Some n }
{
    u32::try_from(long(word)?).ok()
}

fn is(word: &[u8], text: &[u8]) -> bool
    ensures { result ≡ bytes_eq word.now text.now }
{
    word == text
}

// The value of the first name that equals the word, if there is one.
macro_rules! named {
    ($word:expr; $($name:literal => $value:expr,)*) => {
        $(if is($word, $name) { Some($value) } else)* { None }
    };
}

fn cause(word: &[u8]) -> Option<Cause>
    ensures { result ≡ cause_of word.now }
{
    named!(word;
        b"done" => Cause::Done,
        b"asked" => Cause::Asked,
        b"access" => Cause::Access,
        b"own" => Cause::Own,
    )
}

fn code(word: &[u8]) -> Option<Code>
    ensures { result ≡ code_named word.now }
{
    named!(word;
        b"ok" => Code::Ok,
        b"pool-access" => Code::PoolAccess,
        b"exists" => Code::Exists,
        b"unit-state" => Code::UnitState,
        b"not-migratable" => Code::NotMigratable,
        b"absent" => Code::Absent,
        b"mutex-locked" => Code::MutexLocked,
        b"not-owner" => Code::NotOwner,
        b"eventual-set" => Code::EventualSet,
        b"future-full" => Code::FutureFull,
        b"rw-held" => Code::RwHeld,
        b"rw-full" => Code::RwFull,
        b"not-holder" => Code::NotHolder,
    )
}

fn with_one(kind: &[u8], n: u32) -> Option<What>
    ensures { result ≡ what_of_one kind.now n }
{
    named!(kind;
        b"miss" => What::Miss(PoolNo(n)),
        b"look" => What::Look(UnitNo(n)),
        b"enter" => What::Enter(UnitNo(n)),
        b"leave" => What::Leave(UnitNo(n)),
    )
}

fn with_two(kind: &[u8], n: u32, m: u32) -> Option<What>
    ensures { result ≡ what_of_two kind.now n m }
{
    named!(kind;
        b"take" => What::Take(PoolNo(n), UnitNo(m)),
        b"put" => What::Put(UnitNo(n), PoolNo(m)),
    )
}

// What two words say.
fn of_two(kind: &[u8], a: &[u8]) -> Option<What>
    ensures { (w : What) → HasShortNumbers w → what_words w ≡ kind.now ∷ a.now ∷ [] → result ≡ Some w }
{
    with_one(kind, short(a)?)
}

// What three words say.
fn of_three(kind: &[u8], a: &[u8], b: &[u8]) -> Option<What>
    ensures { (w : What) → HasShortNumbers w → what_words w ≡ kind.now ∷ a.now ∷ b.now ∷ [] → result ≡ Some w }
{
    let n = short(a)?;
    if is(kind, b"end") {
        return Some(What::End(UnitNo(n), cause(b)?));
    }
    with_two(kind, n, short(b)?)
}

// What four words say.
fn of_four(kind: &[u8], a: &[u8], b: &[u8], c: &[u8]) -> Option<What>
    ensures { (w : What) → HasShortNumbers w → what_words w ≡ kind.now ∷ a.now ∷ b.now ∷ c.now ∷ [] → result ≡ Some w }
{
    let (n, at) = (short(a)?, short(b)?);
    if is(kind, b"call") {
        return Some(What::Call(UnitNo(n), at, Returned::new(long(c)?)));
    }
    if !is(kind, b"step") {
        return None;
    }
    Some(What::Step(UnitNo(n), at, code(c)?))
}

// What the words say.
fn what(words: &[&[u8]]) -> Option<What>
    ensures { (w : What) → HasShortNumbers w → what_words w ≡ map (λ word. word.now) words.now → result ≡ Some w }
{
    match words {
        [kind, a] => of_two(kind, a),
        [kind, a, b] => of_three(kind, a, b),
        [kind, a, b, c] => of_four(kind, a, b, c),
        _ => None,
    }
}

/// The event that the words say.
pub(crate) fn event(words: &[&[u8]]) -> Option<Event>
    ensures { (e : Event) → IsEvent e → event_words e ≡ map (λ word. word.now) words.now → result ≡ Some e }
{
    let (stamp, words) = words.split_first()?;
    let (stream, words) = words.split_first()?;
    Some(Event {
        stamp: long(stamp)?,
        stream: StreamNo(short(stream)?),
        what: what(words)?,
    })
}

// An event has six words at most, so a line with this many words is not an event's.
const TOO_MANY: usize = 7;

/// The words of a line, which stand between single spaces: all of them, or the first seven if there are more. So a long line takes no
/// more memory than a short one.
pub(crate) fn split<'a>(words: &mut Vec<&'a [u8]>, line: &'a [u8]) -> Result<(), Want>
    ensures { OnOk result (map (λ word. word.now) words.new.items ≡ take 7 (slice_split is_space line.entry.now)) }
{
    words.clear();
    let mut rest = line;
    while words.len() < TOO_MANY {
        let Some((word, more)) = cut(rest, b' ') else {
            words.push(rest)?;
            return Ok(());
        };
        words.push(word)?;
        rest = more;
    }
    Ok(())
}
