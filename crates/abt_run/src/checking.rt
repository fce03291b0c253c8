//! The command `check`.

ghost use Rattle.std.specs.Prelude.{◌≡◌, ◌≢◌, ◌≤◌, ◌⊎◌, ◌++◌, ℕ, IfErr, IfOk, IfSome, IsErrAnd, IsErrOf, All, List, None, OnOk, false, length, true, Option};
ghost use Rattle.abt_machine.specs.Grammar.{Reads};
ghost use Rattle.abt_machine.specs.declared.events.Event.{Event};
ghost use Rattle.abt_machine.specs.Limits.{function_limit};
ghost use Rattle.abt_machine.specs.Runs.{Run as IsRun, last_state};
ghost use Rattle.abt_machine.specs.Stored.{CallsStored};
ghost use Rattle.abt_machine.specs.Words.{Text, line_of};
ghost use Rattle.abt_order.specs.Stored.{stored_of};
ghost use Rattle.abt_source.specs.Seen.{Agree, Grows};
ghost use Rattle.abt_words.specs.Commands.{Says};
ghost use Rattle.abt_words.specs.declared.commands.Command.TheVariants as command;
ghost use Rattle.abt_check.specs.declared.verdict.Verdict.TheVariants as verdict;
ghost use Rattle.abt_report.specs.Pictures.{SaysWordsOf};
ghost use Rattle.abt_run.specs.Given.{given};
ghost use Rattle.abt_run.specs.declared.keeping.Keep.{Keep};
ghost use Rattle.abt_run.specs.Prepared.{HasNoWorkload, LacksSecond, StopsCommand};
ghost use Rattle.abt_run.specs.Printed.{Prints, ShowsJudged, end_text, end_words, followed_text, report_or_open, verdict_text};
ghost use Rattle.abt_run.specs.Steps.{LetsStreams};
ghost use Rattle.abt_schedule.specs.Follows.{IsLeftBy};
ghost use Rattle.abt_why.specs.Texts.{why_text};
ghost use Rattle.abt_words.specs.declared.commands.Shows.TheVariants as show;
ghost use Rattle.abt_shell.specs.declared.status.Stop.TheVariants.{CannotRead};

use crate::fetching::fetch_run;
use crate::prepared::{Prepared, without_run};
use crate::status::Conclusion;
use abt_check::{Verdict, check};
use abt_lines::{end_line, push_decimal, push_number};
use abt_machine::{Journal, Outcome, Want, Workload};
use abt_order::StoredOrder;
use abt_report::append_report;
use abt_schedule::{Followed, Left, follow_schedule};
use abt_shell::{Stop, fetch_journal};
use abt_source::Files;
use abt_why::append_why;
use abt_words::Shows;
use abt_work::Work;
use std::alloc::Global;

/// What is shown of a file's journal as a run of another file's workload. The workload is read first.
#[tactic(auto, using(crate::proofs::Storing::stores_calls))]
pub(crate) fn prepare_check<F: Files, P: Work>(
    alloc: Global,
    workload: &str,
    journal: &str,
    shows: Shows,
    files: &mut F,
    work: &P,
    orders: &[StoredOrder],
) -> Result<Prepared, Stop>
    requires orders { 2 ≤ length orders.now }
    requires calls { function_limit ≤ P.count work.now }
    ensures done { (file_of : Text → Option Text) → Agree (F.seen files.old) (F.seen files.new) file_of
        → (keep : Keep) (words : List Text) → Says words (command.Check (record { workload = workload.now; journal = journal.now; shows = shows }))
        → IfOk result (λ p. Prints (given words (stored_of orders.now (P.returns work.now)) file_of) keep p.conclusion p.journal p.text.items) }
    ensures stop { (file_of : Text → Option Text) → Agree (F.seen files.old) (F.seen files.new) file_of
        → (words : List Text) → Says words (command.Check (record { workload = workload.now; journal = journal.now; shows = shows }))
        → IfErr result (StopsCommand (given words (stored_of orders.now (P.returns work.now)) file_of) (F.faults files.old, F.faults files.new)) }
    ensures absent { F.absent files.old workload.now → IsErrOf result CannotRead }
    ensures missing { (file_of : Text → Option Text) → Agree (F.seen files.old) (F.seen files.new) file_of
        → F.absent files.old journal.now → IsErrAnd result (LacksSecond (file_of workload.now) (F.faults files.old, F.faults files.new)) }
    ensures faulty { F.faults files.new ≢ F.faults files.old → IsErrOf result CannotRead }
    ensures begun { IfSome (F.begun files.new) (λ name. (name ≡ workload.now) ⊎ (name ≡ journal.now)) }
    ensures later { F.faults files.old ≤ F.faults files.new }
{
    let (w, steps) = fetch_default(alloc, workload, files)?;
    let journal = fetch_journal(alloc, journal, files)?;
    w.known();
    let (conclusion, text) = judged(alloc, &w, orders, work, &journal, shows, steps)?;
    Ok(without_run(text, conclusion))
}

/// The workload of a file, and how many steps each of its streams may make, if the words ask for none.
pub(crate) fn fetch_default<F: Files>(
    alloc: Global,
    file: &str,
    files: &mut F,
) -> Result<(Workload, u64), Stop>
    ensures reads { (file_of : Text → Option Text) → Agree (F.seen files.old) (F.seen files.new) file_of
        → IfOk result (λ found. IfSome (file_of file.now) (λ bytes. Reads bytes found.0)) }
    ensures steps { (file_of : Text → Option Text) → Agree (F.seen files.old) (F.seen files.new) file_of
        → IfOk result (λ found. LetsStreams (file_of file.now) None found.1) }
    ensures stop { (file_of : Text → Option Text) → Agree (F.seen files.old) (F.seen files.new) file_of
        → IfErr result (HasNoWorkload (file_of file.now) (F.faults files.old, F.faults files.new)) }
    ensures absent { F.absent files.old file.now → IsErrOf result CannotRead }
    ensures faulty { F.faults files.new ≢ F.faults files.old → IsErrOf result CannotRead }
    ensures grows { Grows (F.seen files.old) (F.seen files.new) }
    ensures missing { (name : List ℕ) → F.absent files.old name → F.absent files.new name }
    ensures begun { IfSome (F.begun files.new) (λ name. name ≡ file.now) }
    ensures later { F.faults files.old ≤ F.faults files.new }
{
    fetch_run(alloc, file, None, files)
}

// What is shown of a journal as a run of a workload whose streams may make `steps` steps each.
fn judged<P: Work>(
    alloc: Global,
    w: &Workload,
    orders: &[StoredOrder],
    work: &P,
    journal: &Journal,
    shows: Shows,
    steps: u64,
) -> Result<(Conclusion, Vec<u8>), Want>
    requires orders { 2 ≤ length orders.now }
    requires calls { CallsStored w.now (P.count work.now) }
    ensures { IfOk result (λ shown. ShowsJudged shows w.now (stored_of orders.now (P.returns work.now)) steps journal.now shown.0 shown.1.items) }
{
    match shows {
        Shows::Verdict => verdict_shown(alloc, w, orders, work, journal, steps),
        Shows::End => end_shown(alloc, w, orders, work, journal, steps),
        Shows::Report { why } => report_shown(alloc, w, orders, work, journal, why, steps),
    }
}

// The verdict on a journal.
fn verdict_shown<P: Work>(
    alloc: Global,
    w: &Workload,
    orders: &[StoredOrder],
    work: &P,
    journal: &Journal,
    steps: u64,
) -> Result<(Conclusion, Vec<u8>), Want>
    requires orders { 2 ≤ length orders.now }
    requires calls { CallsStored w.now (P.count work.now) }
    ensures { IfOk result (λ shown. ShowsJudged show.Verdict w.now (stored_of orders.now (P.returns work.now)) steps journal.now shown.0 shown.1.items) }
{
    let verdict = check(alloc, w, orders, work, journal)?;
    let text = text_of(alloc, verdict)?;
    Ok((Conclusion::Judged(verdict), text))
}

// How a journal ends, if it is a run, and else the verdict.
fn end_shown<P: Work>(
    alloc: Global,
    w: &Workload,
    orders: &[StoredOrder],
    work: &P,
    journal: &Journal,
    steps: u64,
) -> Result<(Conclusion, Vec<u8>), Want>
    requires orders { 2 ≤ length orders.now }
    requires calls { CallsStored w.now (P.count work.now) }
    ensures { IfOk result (λ shown. ShowsJudged show.End w.now (stored_of orders.now (P.returns work.now)) steps journal.now shown.0 shown.1.items) }
{
    match follow_schedule(alloc, w, orders, work, journal, steps)? {
        Followed::Bad { at } => {
            let text = bad_line(alloc, at)?;
            Ok((Conclusion::Judged(Verdict::Bad { at }), text))
        }
        Followed::Left(left) => {
            let text = end_line_of(alloc, left.end)?;
            Ok((Conclusion::Ends(left.end), text))
        }
    }
}

// The report of a journal, if it is a run, and else where it strays.
fn report_shown<P: Work>(
    alloc: Global,
    w: &Workload,
    orders: &[StoredOrder],
    work: &P,
    journal: &Journal,
    why: bool,
    steps: u64,
) -> Result<(Conclusion, Vec<u8>), Want>
    requires orders { 2 ≤ length orders.now }
    requires calls { CallsStored w.now (P.count work.now) }
    ensures { IfOk result (λ shown. ShowsJudged (show.Report why) w.now (stored_of orders.now (P.returns work.now)) steps journal.now shown.0 shown.1.items) }
{
    match follow_schedule(alloc, w, orders, work, journal, steps)? {
        Followed::Bad { at } => {
            let text = bad_line(alloc, at)?;
            Ok((Conclusion::Strays { at }, text))
        }
        Followed::Left(left) => {
            let text = followed_text(alloc, w, orders, work, journal, &left, why)?;
            Ok((Conclusion::Followed(left.end), text))
        }
    }
}

/// The report of what a journal left, or that it could go on, and what units wait for, if that is asked for.
pub(crate) fn followed_text<P: Work>(
    alloc: Global,
    w: &Workload,
    orders: &[StoredOrder],
    work: &P,
    journal: &Journal,
    left: &Left,
    why: bool,
) -> Result<Vec<u8>, Want>
    requires words { All (SaysWordsOf w.now) left.now.picture }
    requires orders { 2 ≤ length orders.now }
    requires calls { CallsStored w.now (P.count work.now) }
    requires run { IsRun w.now (stored_of orders.now (P.returns work.now)) journal.now }
    requires left { (n : ℕ) × IsLeftBy w.now n journal.now left.now }
    ensures { IfOk result (λ text. text.items ≡ followed_text w.now (last_state w.now journal.now) journal.now left.now.end why) }
{
    let mut text = report_or_open(alloc, w, left)?;
    append_asked_why(alloc, &mut text, w, orders, work, journal, why)?;
    Ok(text)
}

// Appends what units wait for after a run, if that is asked for.
fn append_asked_why<P: Work>(
    alloc: Global,
    text: &mut Vec<u8>,
    w: &Workload,
    orders: &[StoredOrder],
    work: &P,
    journal: &Journal,
    why: bool,
) -> Result<(), Want>
    requires orders { 2 ≤ length orders.now }
    requires calls { CallsStored w.now (P.count work.now) }
    requires run { IsRun w.now (stored_of orders.now (P.returns work.now)) journal.now }
    ensures asked { why ≡ true → IfOk result (λ _. text.new.items ≡ text.old.items ++ why_text w.now (last_state w.now journal.now)) }
    ensures unasked { why ≡ false → IfOk result (λ _. text.new.items ≡ text.old.items) }
{
    if why {
        return append_why(alloc, text, w, orders, work, journal);
    }
    Ok(())
}

// The report of what a journal left, or that it could go on.
fn report_or_open(alloc: Global, w: &Workload, left: &Left) -> Result<Vec<u8>, Want>
    requires words { All (SaysWordsOf w.now) left.now.picture }
    ensures { (n : ℕ) (J : List Event) → IsLeftBy w.now n J left.now → IfOk result (λ text. text.items ≡ report_or_open w.now (last_state w.now J) J left.now.end) }
{
    let mut text = Vec::new(alloc);
    match left.end {
        Some(outcome) => append_report(&mut text, w, &left.picture, outcome, left.steps)?,
        None => text.extend_from_slice(b"open\n")?,
    }
    Ok(text)
}

/// That a journal is a run, and how it ends.
pub(crate) fn end_line_of(alloc: Global, end: Option<Outcome>) -> Result<Vec<u8>, Want>
    ensures { IfOk result (λ text. text.items ≡ end_text end) }
{
    let mut text = Vec::from_slice(alloc, b"run\n")?;
    push_end(&mut text, end)?;
    end_line(&mut text)?;
    Ok(text)
}

// Appends how a journal ends.
fn push_end(text: &mut Vec<u8>, end: Option<Outcome>) -> Result<(), Want>
    ensures { OnOk result (text.new.items ≡ text.old.items ++ line_of (end_words end)) }
{
    match end {
        None => text.extend_from_slice(b"open")?,
        Some(Outcome::Finished) => text.extend_from_slice(b"finished")?,
        Some(Outcome::Stuck) => text.extend_from_slice(b"stuck")?,
        Some(Outcome::Budget(s)) => {
            text.extend_from_slice(b"budget")?;
            push_decimal(text, u64::from(s.0))?;
        }
    }
    Ok(())
}

// What is printed for a verdict.
fn text_of(alloc: Global, verdict: Verdict) -> Result<Vec<u8>, Want>
    ensures { IfOk result (λ text. text.items ≡ verdict_text verdict) }
{
    match verdict {
        Verdict::Run => Ok(Vec::from_slice(alloc, b"run\n")?),
        Verdict::Bad { at } => bad_line(alloc, at),
    }
}

/// What is printed for a journal of which only the first events, this many, are a run.
pub(crate) fn bad_line(alloc: Global, at: u64) -> Result<Vec<u8>, Want>
    ensures { IfOk result (λ text. text.items ≡ verdict_text (verdict.Bad at)) }
{
    let Some(line) = at.checked_add(1) else {
        return Err(Want);
    };
    let mut text = Vec::from_slice(alloc, b"bad ")?;
    push_number(&mut text, line)?;
    end_line(&mut text)?;
    Ok(text)
}
