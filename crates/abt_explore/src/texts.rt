//! What is printed of the ends of a workload.

ghost use Rattle.std.specs.Prelude.{◌≡◌, ◌++◌, All, IfOk, OnOk};
ghost use Rattle.abt_explore.specs.Texts.{SaysWords, end_text, end_words, explored_text, report_of_end, shown_text};
ghost use Rattle.abt_machine.specs.Words.{ended, line_of, spaced};
ghost use Rattle.abt_machine.specs.Texts.{outcome_words};

use crate::exploration::End;
use abt_lines::{end_line, push_decimal, push_word};
use abt_machine::{Outcome, Want, Workload};
use abt_report::{append_report, count_steps, journal_text};
use std::alloc::Global;

/// The text of all ends: how many states there are, and of each end a line with its number, its outcome and the number of events
/// that lead to it, and its report.
pub fn explored_text(
    alloc: Global,
    w: &Workload,
    states: u64,
    ends: &[End],
) -> Result<Vec<u8>, Want>
    requires words { All (SaysWords w.now) ends.now }
    ensures { IfOk result (λ text. text.items ≡ explored_text w.now states ends.now) }
{
    let mut out = Vec::from_slice(alloc, b"states")?;
    push_decimal(&mut out, states)?;
    end_line(&mut out)?;
    for (at, end) in ends.iter().enumerate() {
        push_end(&mut out, w, at as u64 + 1, end)?;
    }
    Ok(out)
}

/// The text of one end: the journal that leads to it, and its report.
pub fn shown_text(alloc: Global, w: &Workload, end: &End) -> Result<Vec<u8>, Want>
    requires words { SaysWords w.now end.now }
    ensures { IfOk result (λ text. text.items ≡ shown_text w.now end.now) }
{
    let mut out = journal_text(alloc, &end.journal)?;
    push_report(&mut out, w, end)?;
    Ok(out)
}

// Appends an end.
fn push_end(out: &mut Vec<u8>, w: &Workload, number: u64, end: &End) -> Result<(), Want>
    requires words { SaysWords w.now end.now }
    ensures { OnOk result (out.new.items ≡ out.old.items ++ end_text w.now number end.now) }
{
    push_line(out, number, end)?;
    push_report(out, w, end)
}

// Appends the line of an end.
fn push_line(out: &mut Vec<u8>, number: u64, end: &End) -> Result<(), Want>
    ensures { OnOk result (out.new.items ≡ out.old.items ++ ended (line_of (end_words number end.now))) }
{
    out.extend_from_slice(b"end")?;
    push_decimal(out, number)?;
    push_outcome(out, end.outcome)?;
    push_word(out, b"events")?;
    push_decimal(out, end.journal.items().len() as u64)?;
    end_line(out)
}

// Appends the words of an outcome, each behind a space.
fn push_outcome(out: &mut Vec<u8>, outcome: Outcome) -> Result<(), Want>
    ensures { OnOk result (out.new.items ≡ out.old.items ++ spaced (outcome_words outcome)) }
{
    match outcome {
        Outcome::Finished => push_word(out, b"finished"),
        Outcome::Stuck => push_word(out, b"stuck"),
        Outcome::Budget(s) => {
            push_word(out, b"budget")?;
            push_decimal(out, u64::from(s.0))
        }
    }
}

// Appends the report of an end.
fn push_report(out: &mut Vec<u8>, w: &Workload, end: &End) -> Result<(), Want>
    requires words { SaysWords w.now end.now }
    ensures { OnOk result (out.new.items ≡ out.old.items ++ report_of_end w.now end.now) }
{
    let steps = count_steps(end.journal.items());
    append_report(out, w, &end.picture, end.outcome, steps)
}
