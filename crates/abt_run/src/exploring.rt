//! The command `explore`.

ghost use Rattle.std.specs.Prelude.{◌≡◌, ◌≢◌, ◌≤◌, [], ◌∷◌, All, IfErr, IfOk, IfSome, IsErrOf, List, Option, codes, decimal, length, option_map};
ghost use Rattle.std.specs.List.{list_any};
ghost use Rattle.abt_explore.specs.Texts.{SaysWords};
ghost use Rattle.abt_machine.specs.Limits.{function_limit};
ghost use Rattle.abt_machine.specs.Words.{Text, ended, line_of};
ghost use Rattle.abt_order.specs.Stored.{stored_of};
ghost use Rattle.abt_source.specs.Seen.{Agree};
ghost use Rattle.abt_words.specs.Commands.{Says};
ghost use Rattle.abt_words.specs.declared.commands.Command.TheVariants as command;
ghost use Rattle.abt_run.specs.Ends.{FoundSays, any_word_text, changing_text, conclusion_on, concluded, end_at, end_shown, ends_shown, is_stuck, shown_of};
ghost use Rattle.abt_run.specs.Given.{given};
ghost use Rattle.abt_run.specs.declared.keeping.Keep.{Keep};
ghost use Rattle.abt_run.specs.Prepared.{StopsCommand};
ghost use Rattle.abt_run.specs.Printed.{Prints};
ghost use Rattle.abt_shell.specs.declared.status.Stop.TheVariants.{CannotRead};

use crate::fetching::fetch;
use crate::prepared::{Prepared, without_run};
use crate::status::Conclusion;
use abt_explore::{End, Exploration, explore, explored_text, first_changing, shown_text};
use abt_lines::{end_line, push_decimal, push_number};
use abt_machine::{Outcome, SchedNo, Want, Workload};
use abt_order::StoredOrder;
use abt_report::{append_report, count_steps};
use abt_shell::Stop;
use abt_source::Files;
use abt_words::MOST_STATES;
use abt_work::Work;
use std::alloc::Global;

/// The ends of a file's workload, found in at most this many states; or the one of this number, counted from 1, and the journal that
/// leads to it, if that is asked for.
#[tactic(auto, using(crate::proofs::Storing::stores_calls))]
pub(crate) fn prepare_explore<F: Files, P: Work>(
    alloc: Global,
    file: &str,
    states: Option<u64>,
    asked: Option<u64>,
    with_journal: bool,
    files: &mut F,
    work: &P,
    orders: &[StoredOrder],
) -> Result<Prepared, Stop>
    requires orders { 2 ≤ length orders.now }
    requires calls { function_limit ≤ P.count work.now }
    ensures done { (file_of : Text → Option Text) → Agree (F.seen files.old) (F.seen files.new) file_of
        → (keep : Keep) (words : List Text) → Says words (command.Explore (record { file = file.now; states = states; end = asked; journal = with_journal }))
        → IfOk result (λ p. Prints (given words (stored_of orders.now (P.returns work.now)) file_of) keep p.conclusion p.journal p.text.items) }
    ensures stop { (file_of : Text → Option Text) → Agree (F.seen files.old) (F.seen files.new) file_of
        → (words : List Text) → Says words (command.Explore (record { file = file.now; states = states; end = asked; journal = with_journal }))
        → IfErr result (StopsCommand (given words (stored_of orders.now (P.returns work.now)) file_of) (F.faults files.old, F.faults files.new)) }
    ensures absent { F.absent files.old file.now → IsErrOf result CannotRead }
    ensures faulty { F.faults files.new ≢ F.faults files.old → IsErrOf result CannotRead }
    ensures begun { IfSome (F.begun files.new) (λ name. name ≡ file.now) }
    ensures later { F.faults files.old ≤ F.faults files.new }
{
    let w = fetch(alloc, file, files)?;
    if let Some(scheduler) = first_changing(&w, orders) {
        let text = changing(alloc, scheduler)?;
        return Ok(without_run(text, Conclusion::Unexplored));
    }
    w.known();
    let most = states.unwrap_or(MOST_STATES);
    let found = explore(alloc, &w, orders, work, most)?;
    let (conclusion, text) = shown(alloc, &w, asked, with_journal, &found)?;
    Ok(without_run(text, conclusion))
}

// What is printed of a workload whose scheduler may change its order.
fn changing(alloc: Global, scheduler: SchedNo) -> Result<Vec<u8>, Want>
    ensures { IfOk result (λ text. text.items ≡ changing_text scheduler.0) }
{
    let mut text = Vec::from_slice(alloc, b"scheduler ")?;
    push_number(&mut text, u64::from(scheduler.0))?;
    text.extend_from_slice(b" changes its order\n")?;
    Ok(text)
}

// What is printed of what was found.
fn shown(
    alloc: Global,
    w: &Workload,
    asked: Option<u64>,
    with_journal: bool,
    found: &Exploration,
) -> Result<(Conclusion, Vec<u8>), Want>
    requires words { FoundSays w.now found.now }
    ensures { IfOk result (λ shown. (shown.0, shown.1.items) ≡ shown_of w.now asked with_journal found.now) }
{
    match found {
        Exploration::Whole { states, ends } => shown_ends(
            alloc,
            w,
            asked,
            with_journal,
            *states,
            ends.as_slice(),
        ),
        Exploration::TooMany => {
            let text = Vec::from_slice(alloc, b"too many states\n")?;
            Ok((Conclusion::Unexplored, text))
        }
        Exploration::AnyWord { function } => {
            let text = any_word(alloc, *function)?;
            Ok((Conclusion::Unexplored, text))
        }
    }
}

// What is printed of a workload that calls a function which may return any word.
fn any_word(alloc: Global, function: u32) -> Result<Vec<u8>, Want>
    ensures { IfOk result (λ text. text.items ≡ any_word_text function) }
{
    let mut text = Vec::from_slice(alloc, b"function ")?;
    push_number(&mut text, u64::from(function))?;
    text.extend_from_slice(b" may return any word\n")?;
    Ok(text)
}

// What is printed of these ends, or of the one that is asked for.
fn shown_ends(
    alloc: Global,
    w: &Workload,
    asked: Option<u64>,
    with_journal: bool,
    states: u64,
    ends: &[End],
) -> Result<(Conclusion, Vec<u8>), Want>
    requires words { All (SaysWords w.now) ends.now }
    ensures { IfOk result (λ shown. (shown.0, shown.1.items) ≡ ends_shown w.now asked with_journal states ends.now) }
{
    let Some(number) = asked else {
        let text = explored_text(alloc, w, states, ends)?;
        return Ok((conclusion(ends), text));
    };
    match end_of(ends, number) {
        Some(end) => {
            let text = end_text(alloc, w, with_journal, end)?;
            Ok((concluded(is_stuck(end.outcome)), text))
        }
        None => {
            let text = count_line(alloc, ends.len() as u64)?;
            Ok((Conclusion::Unexplored, text))
        }
    }
}

// What is printed of one end.
fn end_text(alloc: Global, w: &Workload, with_journal: bool, end: &End) -> Result<Vec<u8>, Want>
    requires words { SaysWords w.now end.now }
    ensures { IfOk result (λ text. text.items ≡ end_shown w.now with_journal end.now) }
{
    if with_journal {
        return shown_text(alloc, w, end);
    }
    let mut text = Vec::new(alloc);
    let steps = count_steps(end.journal.items());
    append_report(&mut text, w, &end.picture, end.outcome, steps)?;
    Ok(text)
}

// The end of this number, counted from 1, if there is one.
fn end_of(ends: &[End], number: u64) -> Option<&End>
    ensures { option_map (λ end. end.now) result ≡ end_at ends.now number }
{
    if number == 0 {
        return None;
    }
    ends.get((number - 1) as usize)
}

// The line that says how many ends there are.
fn count_line(alloc: Global, count: u64) -> Result<Vec<u8>, Want>
    ensures { IfOk result (λ text. text.items ≡ ended (line_of (codes "ends" ∷ decimal count ∷ []))) }
{
    let mut text = Vec::from_slice(alloc, b"ends")?;
    push_decimal(&mut text, count)?;
    end_line(&mut text)?;
    Ok(text)
}

// The conclusion on a workload of these ends.
fn conclusion(ends: &[End]) -> Conclusion
    ensures { result ≡ conclusion_on ends.now }
{
    if ends.is_empty() {
        return Conclusion::GoesOn;
    }
    concluded(any_stuck(ends))
}

// Whether one of these ends is stuck.
fn any_stuck(ends: &[End]) -> bool
    ensures { result ≡ list_any (λ end. is_stuck end.outcome) ends.now }
{
    ends.iter().any(|end| is_stuck(end.outcome))
}

// The conclusion by whether an end is stuck.
fn concluded(stuck: bool) -> Conclusion
    ensures { result ≡ concluded stuck }
{
    if stuck {
        Conclusion::Sticks
    } else {
        Conclusion::Finishes
    }
}

// Whether a run that ended so is stuck.
fn is_stuck(outcome: Outcome) -> bool
    ensures { result ≡ is_stuck outcome }
{
    matches!(outcome, Outcome::Stuck)
}
