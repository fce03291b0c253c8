//! The outputs of runs in files: a journal, and a report after it.

ghost use Rattle.std.specs.Prelude.{◌≡◌, ◌≢◌, ◌≤◌, ◌++◌, ℕ, List, Option, All, IfErr, IfOk, IfSome, IsErrOf, length};
ghost use Rattle.abt_machine.specs.Words.{Text};
ghost use Rattle.abt_report.specs.Journals.{IsCause, IsEvent, IsTextOf};
ghost use Rattle.abt_shell.specs.Outputs.{HasNoOutput, IsOutputOf, journal_part, report_part};
ghost use Rattle.abt_shell.specs.declared.status.Stop.TheVariants.{CannotRead};
ghost use Rattle.abt_source.specs.Seen.{Agree, Grows};

use crate::fetching::bytes_of;
use crate::status::{Stop, Wrong};
use abt_machine::Journal;
use abt_report::{JOURNAL_LIMIT, TextFault, read_journal};
use abt_source::Files;
use abt_workload::line_hint;
use std::alloc::Global;

/// The output of a run: its journal, and the report, as the bytes after the journal have it.
#[derive(Drop)]
pub struct Output {
    pub journal: Journal,
    pub report: Vec<u8>,
}

// What a text has from its first line on that does not begin with a digit.
fn report_in(text: &[u8]) -> &[u8]
    ensures report { result.now ≡ report_part text.now }
    ensures bound { length result.now ≤ length text.now }
{
    let mut begins = true;
    let mut rest = text;
    while let Some((byte, more)) = rest.split_first() {
        if begins && !byte.is_ascii_digit() {
            return rest;
        }
        begins = *byte == b'\n';
        rest = more;
    }
    rest
}

// The two parts of an output: what stands before the report, and the report.
fn parts(text: &[u8]) -> (&[u8], &[u8])
    ensures journal { result.0.now ≡ journal_part text.now }
    ensures report { result.1.now ≡ report_part text.now }
{
    let report = report_in(text);
    (&text[..text.len() - report.len()], report)
}

/// The output in a file.
///
/// # Errors
///
/// `BadLine` if what stands before the report is not a journal's text, with line 0 if the bytes are too many, `CannotRead` if they cannot be
/// read, `OutOfMemory` if memory is refused.
pub fn fetch_output<F: Files>(alloc: Global, file: &str, files: &mut F) -> Result<Output, Stop>
    ensures reads { (file_of : Text → Option Text) → Agree (F.seen files.old) (F.seen files.new) file_of
        → IfOk result (λ output. IfSome (file_of file.now) (IsOutputOf output.journal output.report.items)) }
    ensures grows { Grows (F.seen files.old) (F.seen files.new) }
    ensures events { IfOk result (λ output. All IsEvent output.journal) }
    ensures stop { (file_of : Text → Option Text) → Agree (F.seen files.old) (F.seen files.new) file_of
        → IfErr result (HasNoOutput (file_of file.now) (F.faults files.old, F.faults files.new)) }
    ensures absent { F.absent files.old file.now → IsErrOf result CannotRead }
    ensures faulty { F.faults files.new ≢ F.faults files.old → IsErrOf result CannotRead }
    ensures begun { IfSome (F.begun files.new) (λ name. name ≡ file.now) }
    ensures later { F.faults files.old ≤ F.faults files.new }
{
    let bytes = bytes_of(alloc, file, files, JOURNAL_LIMIT)?;
    if bytes.len() > JOURNAL_LIMIT {
        return Err(Stop::BadLine(0, Wrong::Journal(b"")));
    }
    let (events, report) = parts(&bytes);
    match read_journal(alloc, events) {
        Ok(journal) => {
            let report = Vec::from_slice(alloc, report)?;
            Ok(Output { journal, report })
        }
        Err(TextFault::Bad { line }) => {
            Err(Stop::BadLine(line, Wrong::Journal(line_hint(events, line))))
        }
        Err(TextFault::Memory) => Err(Stop::OutOfMemory),
    }
}
