//! The command `check` with `--report`.

ghost use Rattle.std.specs.Prelude.{◌≡◌, ◌≢◌, ◌≤◌, ◌⊎◌, ◌+◌, ℕ, suc, IfErr, IfOk, IfSome, IsErrAnd, IsErrOf, All, List, Option, Some, codes, length};
ghost use Rattle.abt_machine.specs.Limits.{function_limit};
ghost use Rattle.abt_machine.specs.Runs.{Run as IsRun};
ghost use Rattle.abt_machine.specs.Stored.{CallsStored};
ghost use Rattle.abt_machine.specs.Words.{Text};
ghost use Rattle.abt_check.specs.Verdicts.{IsStampedRun};
ghost use Rattle.abt_order.specs.Stored.{stored_of};
ghost use Rattle.abt_report.specs.Pictures.{SaysWordsOf};
ghost use Rattle.abt_schedule.specs.Follows.{IsLeftBy};
ghost use Rattle.abt_source.specs.Seen.{Agree};
ghost use Rattle.abt_words.specs.Commands.{Says};
ghost use Rattle.abt_words.specs.declared.commands.Command.TheVariants as command;
ghost use Rattle.abt_run.specs.Differing.{expected_text, first_line};
ghost use Rattle.abt_run.specs.Given.{given};
ghost use Rattle.abt_run.specs.declared.keeping.Keep.{Keep};
ghost use Rattle.abt_run.specs.Prepared.{LacksSecond, StopsCommand};
ghost use Rattle.abt_run.specs.Printed.{ComparesReports, Prints, ShowsOutput};
ghost use Rattle.abt_shell.specs.declared.status.Stop.TheVariants.{CannotRead};

use crate::checking::{bad_line, end_line_of, fetch_default, followed_text};
use crate::differing::{expected_text, first_difference, quoted, split_line};
use crate::prepared::{Prepared, without_run};
use crate::status::Conclusion;
use abt_machine::{Journal, Outcome, Want, Workload};
use abt_order::StoredOrder;
use abt_schedule::{Followed, Left, follow_schedule};
use abt_shell::{Stop, fetch_output};
use abt_source::Files;
use abt_work::Work;
use std::alloc::Global;

/// What is shown of a file's journal and report as the output of a run of another file's workload. The workload is read first.
#[tactic(auto, using(crate::proofs::Storing::stores_calls))]
pub(crate) fn prepare_output<F: Files, P: Work>(
    alloc: Global,
    workload: &str,
    output: &str,
    why: bool,
    files: &mut F,
    work: &P,
    orders: &[StoredOrder],
) -> Result<Prepared, Stop>
    requires orders { 2 ≤ length orders.now }
    requires calls { function_limit ≤ P.count work.now }
    ensures done { (file_of : Text → Option Text) → Agree (F.seen files.old) (F.seen files.new) file_of
        → (keep : Keep) (words : List Text) → Says words (command.CheckOutput (record { workload = workload.now; output = output.now; why = why }))
        → IfOk result (λ p. Prints (given words (stored_of orders.now (P.returns work.now)) file_of) keep p.conclusion p.journal p.text.items) }
    ensures stop { (file_of : Text → Option Text) → Agree (F.seen files.old) (F.seen files.new) file_of
        → (words : List Text) → Says words (command.CheckOutput (record { workload = workload.now; output = output.now; why = why }))
        → IfErr result (StopsCommand (given words (stored_of orders.now (P.returns work.now)) file_of) (F.faults files.old, F.faults files.new)) }
    ensures absent { F.absent files.old workload.now → IsErrOf result CannotRead }
    ensures missing { (file_of : Text → Option Text) → Agree (F.seen files.old) (F.seen files.new) file_of
        → F.absent files.old output.now → IsErrAnd result (LacksSecond (file_of workload.now) (F.faults files.old, F.faults files.new)) }
    ensures faulty { F.faults files.new ≢ F.faults files.old → IsErrOf result CannotRead }
    ensures begun { IfSome (F.begun files.new) (λ name. (name ≡ workload.now) ⊎ (name ≡ output.now)) }
    ensures later { F.faults files.old ≤ F.faults files.new }
{
    let (w, steps) = fetch_default(alloc, workload, files)?;
    let read = fetch_output(alloc, output, files)?;
    w.known();
    let (conclusion, text) = output_shown(
        alloc,
        &w,
        orders,
        work,
        &read.journal,
        &read.report,
        why,
        steps,
    )?;
    Ok(without_run(text, conclusion))
}

// What is shown of an output with this journal, and then this report, of a workload whose streams may make `steps` steps each.
fn output_shown<P: Work>(
    alloc: Global,
    w: &Workload,
    orders: &[StoredOrder],
    work: &P,
    journal: &Journal,
    report: &[u8],
    why: bool,
    steps: u64,
) -> Result<(Conclusion, Vec<u8>), Want>
    requires orders { 2 ≤ length orders.now }
    requires calls { CallsStored w.now (P.count work.now) }
    ensures { IfOk result (λ shown. ShowsOutput why w.now (stored_of orders.now (P.returns work.now)) steps journal.now report.now shown.0 shown.1.items) }
{
    match follow_schedule(alloc, w, orders, work, journal, steps)? {
        Followed::Bad { at } => {
            let text = bad_line(alloc, at)?;
            Ok((Conclusion::Differs, text))
        }
        Followed::Left(left) => {
            left_shown(alloc, w, orders, work, journal, &left, report, why, steps)
        }
    }
}

// The same, if the journal is a run, of what it left.
fn left_shown<P: Work>(
    alloc: Global,
    w: &Workload,
    orders: &[StoredOrder],
    work: &P,
    journal: &Journal,
    left: &Left,
    report: &[u8],
    why: bool,
    steps: u64,
) -> Result<(Conclusion, Vec<u8>), Want>
    requires words { All (SaysWordsOf w.now) left.now.picture }
    requires orders { 2 ≤ length orders.now }
    requires calls { CallsStored w.now (P.count work.now) }
    requires run { IsStampedRun w.now (stored_of orders.now (P.returns work.now)) journal.now }
    requires left { IsLeftBy w.now steps journal.now left.now }
    ensures { IfOk result (λ shown. ShowsOutput why w.now (stored_of orders.now (P.returns work.now)) steps journal.now report.now shown.0 shown.1.items) }
{
    let Some(outcome) = left.end else {
        let text = event_expected(alloc, journal, report)?;
        return Ok((Conclusion::Differs, text));
    };
    let wanted = followed_text(alloc, w, orders, work, journal, left, why)?;
    report_shown(alloc, &wanted, journal, report, outcome)
}

// What is shown of the report after a journal that ended so, if another is wanted or the same.
fn report_shown(
    alloc: Global,
    wanted: &[u8],
    journal: &Journal,
    report: &[u8],
    outcome: Outcome,
) -> Result<(Conclusion, Vec<u8>), Want>
    ensures { IfOk result (λ shown. ComparesReports wanted.now journal.now report.now outcome shown.0 shown.1.items) }
{
    let Some(difference) = first_difference(wanted, report) else {
        let text = end_line_of(alloc, Some(outcome))?;
        return Ok((Conclusion::Belongs(outcome), text));
    };
    let line = line_after(journal, difference.after)?;
    let expected = quoted(alloc, difference.expected)?;
    let text = expected_text(alloc, line, &expected, difference.found)?;
    Ok((Conclusion::Differs, text))
}

// That a journal could go on, where the report follows.
fn event_expected(alloc: Global, journal: &Journal, report: &[u8]) -> Result<Vec<u8>, Want>
    ensures { IfOk result (λ text. text.items ≡ expected_text (suc (length journal.now)) (codes "an event") (first_line report.now)) }
{
    let line = line_after(journal, 0)?;
    let (found, _) = split_line(report);
    expected_text(alloc, line, b"an event", found)
}

// The number of the line after the journal's, and after this many more.
fn line_after(journal: &Journal, more: usize) -> Result<u64, Want>
    ensures { IfOk result (λ line. line ≡ suc (length journal.now + more)) }
{
    let Some(lines) = journal.items().len().checked_add(more) else {
        return Err(Want);
    };
    let Some(line) = (lines as u64).checked_add(1) else {
        return Err(Want);
    };
    Ok(line)
}
