//! The command `flow`.

ghost use Rattle.std.specs.Prelude.{◌≡◌, ◌≢◌, ◌≤◌, ◌++◌, All, IfErr, IfOk, IfSome, IsErrOf, List, OnOk, Option, codes, decimal};
ghost use Rattle.abt_flow.specs.Confluent.{Confluent};
ghost use Rattle.abt_machine.specs.Limits.{function_limit};
ghost use Rattle.abt_machine.specs.Canonical.{op_words};
ghost use Rattle.abt_machine.specs.Operations.{IsDeclared};
ghost use Rattle.abt_machine.specs.Pieces.{IsPieceOf};
ghost use Rattle.abt_machine.specs.Stored.{Stored};
ghost use Rattle.abt_machine.specs.Words.{Text, ended, line_of};
ghost use Rattle.abt_source.specs.Seen.{Agree};
ghost use Rattle.abt_words.specs.Commands.{Says};
ghost use Rattle.abt_words.specs.declared.commands.Command.TheVariants as command;
ghost use Rattle.abt_run.specs.Given.{given};
ghost use Rattle.abt_run.specs.declared.keeping.Keep.{Keep};
ghost use Rattle.abt_run.specs.Prepared.{StopsCommand};
ghost use Rattle.abt_run.specs.Printed.{Prints, ShowsFlow, violation_line, violation_text as text_of_violation};
ghost use Rattle.abt_shell.specs.declared.status.Stop.TheVariants.{CannotRead};

use crate::fetching::fetch;
use crate::prepared::{Prepared, without_run};
use crate::status::Conclusion;
use abt_flow::{Flow, Violation, find_flow, first_violation};
use abt_lines::{end_line, push_number};
use abt_machine::{Op, Want, Workload};
use abt_orderly::is_orderly;
use abt_report::outputs_text;
use abt_shell::Stop;
use abt_source::Files;
use abt_work::Work;
use abt_workload::push_operation;
use std::alloc::Global;

/// What each unit of a file's workload prints, if that does not depend on the schedule.
#[tactic(auto, using(crate::proofs::Storing::stores_calls, crate::proofs::FlowWords::violation_declared))]
pub(crate) fn prepare_flow<F: Files, P: Work>(
    alloc: Global,
    file: &str,
    files: &mut F,
    work: &P,
) -> Result<Prepared, Stop>
    requires calls { function_limit ≤ P.count work.now }
    ensures done { (file_of : Text → Option Text) → Agree (F.seen files.old) (F.seen files.new) file_of
        → (keep : Keep) (words : List Text) (stored : Stored) → stored.returns ≡ P.returns work.now → Says words (command.Flow file.now)
        → IfOk result (λ p. Prints (given words stored file_of) keep p.conclusion p.journal p.text.items) }
    ensures stop { (file_of : Text → Option Text) → Agree (F.seen files.old) (F.seen files.new) file_of
        → (words : List Text) (stored : Stored) → stored.returns ≡ P.returns work.now → Says words (command.Flow file.now)
        → IfErr result (StopsCommand (given words stored file_of) (F.faults files.old, F.faults files.new)) }
    ensures absent { F.absent files.old file.now → IsErrOf result CannotRead }
    ensures faulty { F.faults files.new ≢ F.faults files.old → IsErrOf result CannotRead }
    ensures begun { IfSome (F.begun files.new) (λ name. name ≡ file.now) }
    ensures later { F.faults files.old ≤ F.faults files.new }
{
    let w = fetch(alloc, file, files)?;
    w.known();
    if let Some(violation) = first_violation(alloc, &w)? {
        let text = violation_text(alloc, &w, violation)?;
        return Ok(without_run(text, Conclusion::NotConfluent));
    }
    match find_flow(alloc, &w, work)? {
        Some(flow) => {
            let text = flow_text(alloc, &w, &flow)?;
            Ok(without_run(text, Conclusion::Flows))
        }
        None => {
            let text = Vec::from_slice(alloc, b"undefined\n")?;
            Ok(without_run(text, Conclusion::Undefined))
        }
    }
}

// Appends a number after a text.
fn push_after(out: &mut Vec<u8>, before: &[u8], n: u32) -> Result<(), Want>
    ensures { OnOk result (out.new.items ≡ out.old.items ++ (before.now ++ decimal n)) }
{
    out.extend_from_slice(before)?;
    push_number(out, u64::from(n))
}

// Appends the operation by which a workload is not confluent, to the end of its line.
fn push_violating(out: &mut Vec<u8>, w: &Workload, op: Op) -> Result<(), Want>
    requires { IsDeclared w.now op }
    ensures { OnOk result (out.new.items ≡ out.old.items ++ (codes ": " ++ ended (line_of (op_words w.now op)))) }
{
    out.extend_from_slice(b": ")?;
    push_operation(out, w, op)?;
    end_line(out)
}

// Appends the line of an operation by which a workload is not confluent.
fn push_violation(out: &mut Vec<u8>, w: &Workload, violation: Violation) -> Result<(), Want>
    requires { IsDeclared w.now violation.operation }
    ensures { OnOk result (out.new.items ≡ out.old.items ++ violation_line w.now violation) }
{
    push_after(out, b"unit ", violation.unit.0)?;
    push_after(out, b" operation ", violation.position)?;
    push_violating(out, w, violation.operation)
}

// That a workload is not confluent, and the first operation by which it is not.
fn violation_text(alloc: Global, w: &Workload, violation: Violation) -> Result<Vec<u8>, Want>
    requires { IsDeclared w.now violation.operation }
    ensures { IfOk result (λ text. text.items ≡ text_of_violation w.now violation) }
{
    let mut text = Vec::from_slice(alloc, b"not confluent\n")?;
    push_violation(&mut text, w, violation)?;
    Ok(text)
}

// The outputs of a flow, and a last line if each run of the workload finishes.
fn flow_text(alloc: Global, w: &Workload, flow: &Flow) -> Result<Vec<u8>, Want>
    requires confluent { Confluent w.now }
    requires words { All (All (IsPieceOf w.now)) flow.now }
    ensures { IfOk result (λ text. ShowsFlow w.now flow.now text.items) }
{
    let mut text = outputs_text(alloc, w, flow.items())?;
    if is_orderly(alloc, w)? {
        text.extend_from_slice(b"finishes\n")?;
    }
    Ok(text)
}
