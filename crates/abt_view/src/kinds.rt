//! Kinds of events, and counts of a journal.

ghost use Rattle.std.specs.Prelude.{◌≡◌};
ghost use Rattle.abt_view.specs.Kinds.{is_refused as is_refused_of, kind_word, greatest_stamp, refused_in, step_word as step_word_of};

use abt_machine::{Code, Event, What};
use abt_report::name_of_cause;

fn step_word(code: Code) -> &'static [u8]
    ensures { result.now ≡ step_word_of code }
{
    match code {
        Code::Ok => b"step",
        _ => b"refused",
    }
}

// The kind of an event, in a word.
pub(crate) fn word(what: What) -> &'static [u8]
    ensures { result.now ≡ kind_word what }
{
    match what {
        What::Miss(_) => b"miss",
        What::Take(_, _) => b"take",
        What::Look(_) => b"look",
        What::Step(_, _, code) => step_word(code),
        What::Call(_, _, _) => b"call",
        What::Put(_, _) => b"put",
        What::End(_, cause) => name_of_cause(cause),
        What::Enter(_) => b"enter",
        What::Leave(_) => b"leave",
    }
}

fn is_refused(what: What) -> bool
    ensures { result ≡ is_refused_of what }
{
    match what {
        What::Step(_, _, Code::Ok) => false,
        What::Step(_, _, _) => true,
        _ => false,
    }
}

// How many steps were refused.
pub(crate) fn count_refused(journal: &[Event]) -> u64
    ensures { result ≡ refused_in journal.now }
{
    journal
        .iter()
        .filter(|event| is_refused(event.what))
        .count() as u64
}

// The greatest stamp, or 0 if there is no event.
pub(crate) fn greatest_stamp(journal: &[Event]) -> u64
    ensures { result ≡ greatest_stamp journal.now }
{
    let mut last = 0;
    for event in journal {
        last = last.max(event.stamp);
    }
    last
}
