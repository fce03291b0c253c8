//! The top call.

ghost use Rattle.std.specs.Prelude.{◌≡◌, ◌≢◌, ◌≤◌, ◌⊎◌, IfErr, IfOk, IfSome, IsErrAnd, IsErrOf, Option, Some, length, map, string_bytes};
ghost use Rattle.abt_machine.specs.Limits.{function_limit};
ghost use Rattle.abt_machine.specs.Words.{Text};
ghost use Rattle.abt_order.specs.Stored.{stored_of};
ghost use Rattle.abt_source.specs.Seen.{Agree};
ghost use Rattle.abt_words.specs.Commands.{Says};
ghost use Rattle.abt_words.specs.declared.commands.CheckWords.{CheckWords};
ghost use Rattle.abt_words.specs.declared.commands.Command.{Command};
ghost use Rattle.abt_words.specs.declared.commands.Command.TheVariants.{Check, CheckOutput, Run};
ghost use Rattle.abt_words.specs.declared.commands.OutputWords.{OutputWords};
ghost use Rattle.abt_words.specs.declared.commands.RunWords.{RunWords};
ghost use Rattle.abt_run.specs.Call.{IsAnswered};
ghost use Rattle.abt_run.specs.Given.{IsNamed, given, workload_file};
ghost use Rattle.abt_run.specs.Prepared.{LacksSecond, StopsCommand};
ghost use Rattle.abt_run.specs.Printed.{Prints};
ghost use Rattle.abt_run.specs.Steps.{ExceedsKnown, StopsAtNoLine};
ghost use Rattle.abt_shell.specs.Calls.{left};
ghost use Rattle.abt_shell.specs.declared.status.Stop.TheVariants.{CannotRead, OutOfMemory};

use crate::checking::prepare_check;
use crate::explaining::{prepare_help, prepare_version};
use crate::exploring::prepare_explore;
use crate::following::prepare_flow;
use crate::keeping::Keep;
use crate::prepared::Prepared;
use crate::reporting::prepare_output;
use crate::running::{prepare_file, prepare_self};
use crate::status::NAME;
use crate::usage::usage;
use abt_machine::Journal;
use abt_order::StoredOrder;
use abt_shell::{Stop, more_of, stop_by, write_out};
use abt_source::{Files, Sink};
use abt_words::{Command, WordFault, words as command};
use abt_work::Work;
use std::alloc::Global;
use std::sync::Wait;
use std::thread::Threads;

/// How a call ended: its exit status, and the journal of its run, if it made one and kept it.
#[derive(Drop)]
pub struct Answer {
    pub status: u8,
    pub journal: Option<Journal>,
}

// All of a call but its writes.
fn prepare<R: Threads + Wait + Sync, F: Files, P: Work + Sync>(
    rt: &R,
    alloc: Global,
    words: &[String],
    files: &mut F,
    work: &P,
    orders: &[StoredOrder],
    keep: Keep,
) -> Result<Prepared, Stop>
    requires orders { 2 ≤ length orders.now }
    requires calls { function_limit ≤ P.count work.now }
    ensures done { (file_of : Text → Option Text) → Agree (F.seen files.old) (F.seen files.new) file_of
        → IfOk result (λ p. Prints (given (map string_bytes words.now) (stored_of orders.now (P.returns work.now)) file_of) keep p.conclusion p.journal p.text.items) }
    ensures stop { (file_of : Text → Option Text) → Agree (F.seen files.old) (F.seen files.new) file_of
        → IfErr result (StopsCommand (given (map string_bytes words.now) (stored_of orders.now (P.returns work.now)) file_of) (F.faults files.old, F.faults files.new)) }
    ensures absent { (command : Command) (file : Text) → Says (map string_bytes words.now) command → workload_file command ≡ Some file → F.absent files.old file
        → IsErrOf result CannotRead ⊎ IsErrOf result OutOfMemory }
    ensures missing { (file_of : Text → Option Text) → Agree (F.seen files.old) (F.seen files.new) file_of
        → (w : CheckWords) → Says (map string_bytes words.now) (Check w) → F.absent files.old w.journal
        → IsErrAnd result (LacksSecond (file_of w.workload) (F.faults files.old, F.faults files.new)) }
    ensures lost { (file_of : Text → Option Text) → Agree (F.seen files.old) (F.seen files.new) file_of
        → (w : OutputWords) → Says (map string_bytes words.now) (CheckOutput w) → F.absent files.old w.output
        → IsErrAnd result (LacksSecond (file_of w.workload) (F.faults files.old, F.faults files.new)) }
    ensures exceeds { (file_of : Text → Option Text) → Agree (F.seen files.old) (F.seen files.new) file_of
        → (w : RunWords) → Says (map string_bytes words.now) (Run w) → ExceedsKnown (file_of w.file) w.steps
        → IsErrAnd result (StopsAtNoLine (F.faults files.old, F.faults files.new)) }
    ensures faulty { F.faults files.new ≢ F.faults files.old → IsErrOf result CannotRead }
    ensures named { IfErr result (λ stop. stop ≡ CannotRead → IfSome (F.begun files.new) (IsNamed (map string_bytes words.now))) }
    ensures later { F.faults files.old ≤ F.faults files.new }
{
    match command(alloc, words) {
        Ok(Command::Run(asked)) => {
            prepare_file(
                rt,
                alloc,
                asked.file.as_str(),
                asked.steps,
                asked.journal,
                asked.why,
                asked.schedule,
                files,
                work,
                orders,
                keep,
            )
        }
        Ok(Command::SelfRun { units }) => prepare_self(rt, alloc, units, work, orders, keep),
        Ok(Command::Check(asked)) => {
            prepare_check(
                alloc,
                asked.workload.as_str(),
                asked.journal.as_str(),
                asked.shows,
                files,
                work,
                orders,
            )
        }
        Ok(Command::CheckOutput(asked)) => {
            prepare_output(
                alloc,
                asked.workload.as_str(),
                asked.output.as_str(),
                asked.why,
                files,
                work,
                orders,
            )
        }
        Ok(Command::Flow { file }) => prepare_flow(alloc, file.as_str(), files, work),
        Ok(Command::Explore(asked)) => {
            prepare_explore(
                alloc,
                asked.file.as_str(),
                asked.states,
                asked.end,
                asked.journal,
                files,
                work,
                orders,
            )
        }
        Ok(Command::Help) => prepare_help(alloc),
        Ok(Command::Version) => prepare_version(alloc),
        Err(WordFault::Bad) => Err(Stop::BadWords),
        Err(WordFault::Memory) => Err(Stop::OutOfMemory),
    }
}

/// What the command of the program does. `run` reads the file and the workload in it, runs the workload, and writes the run's journal, if
/// `--journal` asks for it, its report, and what units wait for, if `--why` asks for that; `self` runs the workload that it makes of a
/// number, and writes the short report; `check` reads a workload and a journal, and writes whether that is a run of it with stamps, or
/// otherwise its first line at which it is not one, and how the run ended, if `--end` asks for it; with `--report` it reads the output of
/// `run`, and writes how that ended, or its first line that is wrong; `run` with `--schedule` writes the report of a journal that is a
/// run; `flow` writes what each unit of a workload puts out, if that does not depend on the schedule, and whether each run finishes;
/// `explore` writes each way in which a workload can end, or one of them, and a journal that leads to it, if `--journal` asks for it;
/// `--help` and `--version` write what the program says of itself. The words are those after the program's name. User schedulers name the
/// stored orders by number.
///
/// Each stream runs on a thread of its own, as far as threads can be started, or all on the caller's: with `--in-turn` in rotation, and
/// with `--seed` in rotations whose orders the seed draws. `work` is called before each step, but not of a seeded run, and has the
/// functions that units call, all outside every lock.
///
/// Exit statuses: 0 finished, 1 stuck, 2 bad command line, also if it asks for more steps than the format of the file allows, 3 a file
/// is refused, 4 a stream made all the steps that it may make, 5 cannot read, 6 cannot write, 7 out of memory; `check` ends with 0 if
/// the journal is a run, which ended if `--end` asks for its end, or the output is that of a run, and with 1 otherwise, `run` with
/// `--schedule` with 3 if the journal is no run and with 8 if it could go on, `flow` with 0 if there is a flow and with 1 if there is
/// none, and `explore` with 0 if each end is finished, 1 if one is stuck, 4 if there is none, and 8 if the workload was not searched
/// whole. The answer has the journal of the run that was made, if `keep` asks for it, and otherwise none.
pub fn abtrun<R: Threads + Wait + Sync, F: Files, K: Sink, E: Sink, P: Work + Sync>(
    rt: &R,
    alloc: Global,
    words: &[String],
    files: &mut F,
    out: &mut K,
    err: &mut E,
    work: &P,
    orders: &[StoredOrder],
    keep: Keep,
) -> Answer
    requires orders { 2 ≤ length orders.now }
    requires calls { function_limit ≤ P.count work.now }
    ensures { (file_of : Text → Option Text) → Agree (F.seen files.old) (F.seen files.new) file_of
        → IsAnswered result.status (record {
          given = given (map string_bytes words.now) (stored_of orders.now (P.returns work.now)) file_of;
          keep = keep;
          absent = λ name. F.absent files.old name;
          left = left (F.faults files.old, F.faults files.new) (K.taken out.old, K.taken out.new) (K.faults out.old, K.faults out.new) (E.taken err.old, E.taken err.new) (E.faults err.old, E.faults err.new);
          journal = result.journal;
        }) }
{
    match prepare(rt, alloc, words, files, work, orders, keep) {
        Ok(done) => {
            let Prepared {
                conclusion,
                journal,
                text,
            } = done;
            let status = write_out(NAME, out, err, &text, conclusion.number());
            Answer { status, journal }
        }
        Err(stop) => {
            let more = more_of(stop, usage(words), files.fault());
            let why = stop_by(alloc, NAME, err, stop, more);
            Answer {
                status: why.number(),
                journal: None,
            }
        }
    }
}
