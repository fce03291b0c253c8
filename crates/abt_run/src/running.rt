//! The commands `run` and `self`.

ghost use Rattle.std.specs.Prelude.{◌≡◌, ◌≢◌, ◌≤◌, ◌<◌, ◌++◌, ℕ, All, List, Option, IfErr, IfOk, IfSome, IsErrAnd, IsErrOf, [], false, length, true};
ghost use Rattle.abt_machine.specs.declared.events.Event.{Event};
ghost use Rattle.abt_machine.specs.Limits.{adder_limit, function_limit};
ghost use Rattle.abt_machine.specs.Runs.{Run as IsRun, last_state};
ghost use Rattle.abt_machine.specs.Stored.{CallsStored};
ghost use Rattle.abt_machine.specs.Texts.{journal_text as text_of_journal};
ghost use Rattle.abt_machine.specs.Words.{Text};
ghost use Rattle.abt_order.specs.Stored.{stored_of};
ghost use Rattle.abt_record.specs.Records.{IsKept};
ghost use Rattle.abt_report.specs.Pictures.{SaysWordsOf};
ghost use Rattle.abt_source.specs.Seen.{Agree};
ghost use Rattle.abt_words.specs.Commands.{Says};
ghost use Rattle.abt_words.specs.declared.commands.Command.TheVariants as command;
ghost use Rattle.abt_words.specs.declared.commands.RunWords.{RunWords};
ghost use Rattle.abt_words.specs.declared.commands.Schedule.TheVariants as schedule;
ghost use Rattle.abt_why.specs.Texts.{why_text};
ghost use Rattle.abt_run.specs.Given.{given};
ghost use Rattle.abt_run.specs.Kept.{either};
ghost use Rattle.abt_run.specs.Prepared.{StopsCommand};
ghost use Rattle.abt_run.specs.Printed.{IsShownIn, LeavesScheduled, Prints, output_text};
ghost use Rattle.abt_run.specs.Steps.{ExceedsKnown, StopsAtNoLine};
ghost use Rattle.abt_run.specs.declared.status.Conclusion.TheVariants as conclusion;
ghost use Rattle.abt_shell.specs.declared.status.Stop.TheVariants as why;
ghost use Rattle.abt_shell.specs.declared.status.Stop.TheVariants.{CannotRead};

use crate::fetching::fetch_run;
use crate::keeping::{Keep, either};
use crate::prepared::Prepared;
use crate::status::Conclusion;
use abt_drain::{Run, drain_with};
use abt_generate::generate;
use abt_machine::{Want, Workload};
use abt_order::StoredOrder;
use abt_report::{append_report, journal_text, short_report};
use abt_schedule::{Scheduled, run_seeded};
use abt_shell::Stop;
use abt_source::Files;
use abt_waves::run_streams;
use abt_why::append_why;
use abt_words::{DEFAULT_STEPS, Schedule};
use abt_work::Work;
use std::alloc::Global;
use std::sync::Wait;
use std::thread::Threads;

/// The run of a file's workload, and what it prints.
#[tactic(auto, using(crate::proofs::Storing::stores_calls))]
pub(crate) fn prepare_file<R: Threads + Wait + Sync, F: Files, P: Work + Sync>(
    rt: &R,
    alloc: Global,
    file: &str,
    asked: Option<u64>,
    with_journal: bool,
    with_why: bool,
    schedule: Schedule,
    files: &mut F,
    work: &P,
    orders: &[StoredOrder],
    keep: Keep,
) -> Result<Prepared, Stop>
    requires orders { 2 ≤ length orders.now }
    requires calls { function_limit ≤ P.count work.now }
    ensures done { (file_of : Text → Option Text) → Agree (F.seen files.old) (F.seen files.new) file_of
        → (words : List Text) → Says words (command.Run (record { file = file.now; steps = asked; journal = with_journal; why = with_why; schedule = schedule }))
        → IfOk result (λ p. Prints (given words (stored_of orders.now (P.returns work.now)) file_of) keep p.conclusion p.journal p.text.items) }
    ensures stop { (file_of : Text → Option Text) → Agree (F.seen files.old) (F.seen files.new) file_of
        → (words : List Text) → Says words (command.Run (record { file = file.now; steps = asked; journal = with_journal; why = with_why; schedule = schedule }))
        → IfErr result (StopsCommand (given words (stored_of orders.now (P.returns work.now)) file_of) (F.faults files.old, F.faults files.new)) }
    ensures exceeds { (file_of : Text → Option Text) → Agree (F.seen files.old) (F.seen files.new) file_of
        → ExceedsKnown (file_of file.now) asked → IsErrAnd result (StopsAtNoLine (F.faults files.old, F.faults files.new)) }
    ensures absent { F.absent files.old file.now → IsErrOf result CannotRead }
    ensures faulty { F.faults files.new ≢ F.faults files.old → IsErrOf result CannotRead }
    ensures begun { IfSome (F.begun files.new) (λ name. name ≡ file.now) }
    ensures later { F.faults files.old ≤ F.faults files.new }
{
    let (w, steps) = fetch_run(alloc, file, asked, files)?;
    w.known();
    let needs = either(with_journal, with_why);
    let keeps = keep.keeps(needs);
    let ran = run_by(rt, alloc, schedule, &w, orders, work, steps, keeps)?;
    let text = output(alloc, &w, orders, work, &ran, with_journal, with_why)?;
    Ok(ended(ran, text))
}

/// The run of the workload that is made of this many units, and what it prints.
#[tactic(auto, using(crate::proofs::Storing::stores_calls))]
pub(crate) fn prepare_self<R: Threads + Wait + Sync, P: Work + Sync>(
    rt: &R,
    alloc: Global,
    units: u32,
    work: &P,
    orders: &[StoredOrder],
    keep: Keep,
) -> Result<Prepared, Stop>
    requires orders { 2 ≤ length orders.now }
    requires calls { function_limit ≤ P.count work.now }
    requires units { (0 < units) × (units ≤ adder_limit) }
    ensures done { (words : List Text) (file_of : Text → Option Text) → Says words (command.SelfRun units)
        → IfOk result (λ p. Prints (given words (stored_of orders.now (P.returns work.now)) file_of) keep p.conclusion p.journal p.text.items) }
    ensures stop { IfErr result (λ stop. stop ≡ why.OutOfMemory) }
{
    let w = generate(alloc, units)?;
    w.known();
    let keeps = keep.keeps(false);
    let ran = run_streams(rt, alloc, &w, orders, work, DEFAULT_STEPS, keeps)?;
    let text = short_output(alloc, &w, &ran)?;
    Ok(ended(ran, text))
}

// The run of a workload whose streams take turns as the schedule says.
#[tactic(auto, using(crate::proofs::Outputs::by_threads, crate::proofs::Outputs::by_turns))]
fn run_by<R: Threads + Wait + Sync, P: Work + Sync>(
    rt: &R,
    alloc: Global,
    schedule: Schedule,
    w: &Workload,
    orders: &[StoredOrder],
    work: &P,
    steps: u64,
    keeps: bool,
) -> Result<Run, Want>
    requires orders { 2 ≤ length orders.now }
    requires calls { CallsStored w.now (P.count work.now) }
    ensures { IfOk result (LeavesScheduled schedule w.now (stored_of orders.now (P.returns work.now)) steps keeps) }
{
    match schedule {
        Schedule::Threads => {
            let ran = run_streams(rt, alloc, w, orders, work, steps, keeps)?;
            Ok(ran)
        }
        Schedule::InTurn => {
            let ran = drain_with(alloc, w, orders, work, steps, keeps)?;
            Ok(ran)
        }
        Schedule::Seed(seed) => run_by_seed(alloc, w, orders, work, seed, steps, keeps),
    }
}

// The run of a workload by a seed.
fn run_by_seed<P: Work>(
    alloc: Global,
    w: &Workload,
    orders: &[StoredOrder],
    work: &P,
    seed: u64,
    steps: u64,
    keeps: bool,
) -> Result<Run, Want>
    requires orders { 2 ≤ length orders.now }
    requires calls { CallsStored w.now (P.count work.now) }
    ensures { IfOk result (LeavesScheduled (schedule.Seed seed) w.now (stored_of orders.now (P.returns work.now)) steps keeps) }
{
    w.known();
    let scheduled = run_seeded(alloc, w, orders, work, seed, steps)?;
    Ok(kept_run(scheduled, keeps))
}

// What a run by a seed left, with its journal, if that is kept.
fn kept_run(scheduled: Scheduled, keeps: bool) -> Run
    ensures journal { IsKept keeps scheduled.journal result.journal }
    ensures picture { result.picture ≡ scheduled.picture }
    ensures steps { result.steps ≡ scheduled.steps }
    ensures outcome { result.outcome ≡ scheduled.outcome }
{
    let Scheduled {
        journal,
        steps,
        picture,
        outcome,
    } = scheduled;
    Run {
        journal: if keeps { Some(journal) } else { None },
        steps,
        picture,
        outcome,
    }
}

// What a run came to, with what it prints.
fn ended(run: Run, text: Vec<u8>) -> Prepared
    ensures journal { result.journal ≡ run.journal }
    ensures conclusion { result.conclusion ≡ conclusion.Ended run.outcome }
    ensures text { result.text.items ≡ text.items }
{
    let Run {
        journal,
        steps: _,
        picture: _,
        outcome,
    } = run;
    Prepared {
        journal,
        text,
        conclusion: Conclusion::Ended(outcome),
    }
}

// The text of a run's journal, if it is kept and asked for.
fn asked_journal(alloc: Global, run: &Run, with_journal: bool) -> Result<Vec<u8>, Want>
    ensures asked { with_journal ≡ true → IfSome run.now.journal (λ journal. IfOk result (λ text. text.items ≡ text_of_journal journal)) }
    ensures unasked { with_journal ≡ false → IfOk result (λ text. text.items ≡ []) }
{
    if with_journal {
        if let Some(journal) = &run.journal {
            return journal_text(alloc, journal);
        }
    }
    Ok(Vec::new(alloc))
}

// Appends what units wait for at the end of a run, if that is asked for and the run's journal is kept.
fn append_asked_why<P: Work>(
    alloc: Global,
    text: &mut Vec<u8>,
    w: &Workload,
    orders: &[StoredOrder],
    work: &P,
    run: &Run,
    with_why: bool,
) -> Result<(), Want>
    requires orders { 2 ≤ length orders.now }
    requires calls { CallsStored w.now (P.count work.now) }
    requires runs { IfSome run.now.journal (IsRun w.now (stored_of orders.now (P.returns work.now))) }
    ensures asked { with_why ≡ true → IfSome run.now.journal (λ journal. IfOk result (λ _. text.new.items ≡ text.old.items ++ why_text w.now (last_state w.now journal))) }
    ensures unasked { with_why ≡ false → IfOk result (λ _. text.new.items ≡ text.old.items) }
{
    if with_why {
        if let Some(journal) = &run.journal {
            return append_why(alloc, text, w, orders, work, journal);
        }
    }
    Ok(())
}

// The output of a run: its journal, if it is asked for, its report, and what units wait for, if that is asked for.
fn output<P: Work>(
    alloc: Global,
    w: &Workload,
    orders: &[StoredOrder],
    work: &P,
    run: &Run,
    with_journal: bool,
    with_why: bool,
) -> Result<Vec<u8>, Want>
    requires words { All (SaysWordsOf w.now) run.now.picture }
    requires orders { 2 ≤ length orders.now }
    requires calls { CallsStored w.now (P.count work.now) }
    requires runs { IfSome run.now.journal (IsRun w.now (stored_of orders.now (P.returns work.now))) }
    ensures { (J : List Event) (asked : RunWords) → IsShownIn w.now (either with_journal with_why) J run.now
        → IfOk result (λ text. text.items ≡ output_text w.now (last_state w.now J) J run.now.outcome (command.Run (record asked { journal = with_journal; why = with_why }))) }
{
    let mut text = asked_journal(alloc, run, with_journal)?;
    append_report(&mut text, w, &run.picture, run.outcome, run.steps)?;
    append_asked_why(alloc, &mut text, w, orders, work, run, with_why)?;
    Ok(text)
}

// The output of the run of a workload that is made of a number: its short report.
fn short_output(alloc: Global, w: &Workload, run: &Run) -> Result<Vec<u8>, Want>
    requires words { All (SaysWordsOf w.now) run.now.picture }
    requires unit { 0 < length run.now.picture }
    ensures { (J : List Event) (units : ℕ) → IsShownIn w.now false J run.now
        → IfOk result (λ text. text.items ≡ output_text w.now (last_state w.now J) J run.now.outcome (command.SelfRun units)) }
{
    short_report(alloc, w, &run.picture, run.outcome, run.steps)
}
