//! The bytes of files, and the journals in them.

ghost use Rattle.std.specs.Prelude.{◌≡◌, ◌≢◌, ◌<◌, ◌≤◌, ◌+◌, ℕ, List, All, IfErr, IfOk, IfSome, IsErrOf, length, take, Option};
ghost use Rattle.abt_machine.specs.Words.{Text};
ghost use Rattle.abt_report.specs.Journals.{IsEvent, IsTextOf};
ghost use Rattle.abt_shell.specs.Fetched.{HasNoJournal, Unread};
ghost use Rattle.abt_shell.specs.declared.status.Stop.TheVariants.{CannotRead};
ghost use Rattle.abt_source.specs.Seen.{Agree, Grows};

use crate::status::{Stop, Wrong};
use abt_machine::Journal;
use abt_report::{JOURNAL_LIMIT, TextFault, read_journal};
use abt_source::{Files, NotFetched, read_all};
use abt_workload::line_hint;
use std::alloc::Global;

/// The bytes of a file, or one more than the most if it has more.
///
/// # Errors
///
/// `CannotRead` if they cannot be read, `OutOfMemory` if memory is refused.
pub fn bytes_of<F: Files>(
    alloc: Global,
    file: &str,
    files: &mut F,
    most: usize,
) -> Result<Vec<u8>, Stop>
    requires { most < usize.MAX }
    ensures bytes { (file_of : Text → Option Text) → Agree (F.seen files.old) (F.seen files.new) file_of
        → IfOk result (λ v. IfSome (file_of file.now) (λ xs. v.items ≡ take (most + 1) xs)) }
    ensures bound { IfOk result (λ v. length v.items ≤ most + 1) }
    ensures stop { IfErr result (Unread (F.faults files.old, F.faults files.new)) }
    ensures absent { F.absent files.old file.now → IsErrOf result CannotRead }
    ensures faulty { F.faults files.new ≢ F.faults files.old → IsErrOf result CannotRead }
    ensures grows { Grows (F.seen files.old) (F.seen files.new) }
    ensures missing { (name : List ℕ) → F.absent files.old name → F.absent files.new name }
    ensures begun { IfSome (F.begun files.new) (λ name. name ≡ file.now) }
    ensures later { F.faults files.old ≤ F.faults files.new }
{
    match read_all(alloc, files, file, most) {
        Ok(bytes) => Ok(bytes),
        Err(NotFetched::Failed) => Err(Stop::CannotRead),
        Err(NotFetched::Memory) => Err(Stop::OutOfMemory),
    }
}

/// The journal of a file.
///
/// # Errors
///
/// `BadLine` if the bytes are not a journal's text, with line 0 if they are too many, `CannotRead` if they cannot be read, `OutOfMemory`
/// if memory is refused.
pub fn fetch_journal<F: Files>(alloc: Global, file: &str, files: &mut F) -> Result<Journal, Stop>
    ensures reads { (file_of : Text → Option Text) → Agree (F.seen files.old) (F.seen files.new) file_of
        → IfOk result (λ journal. IfSome (file_of file.now) (IsTextOf journal)) }
    ensures grows { Grows (F.seen files.old) (F.seen files.new) }
    ensures events { IfOk result (All IsEvent) }
    ensures stop { (file_of : Text → Option Text) → Agree (F.seen files.old) (F.seen files.new) file_of
        → IfErr result (HasNoJournal (file_of file.now) (F.faults files.old, F.faults files.new)) }
    ensures absent { F.absent files.old file.now → IsErrOf result CannotRead }
    ensures faulty { F.faults files.new ≢ F.faults files.old → IsErrOf result CannotRead }
    ensures begun { IfSome (F.begun files.new) (λ name. name ≡ file.now) }
    ensures later { F.faults files.old ≤ F.faults files.new }
{
    let bytes = bytes_of(alloc, file, files, JOURNAL_LIMIT)?;
    if bytes.len() > JOURNAL_LIMIT {
        return Err(Stop::BadLine(0, Wrong::Journal(b"")));
    }
    match read_journal(alloc, &bytes) {
        Ok(journal) => Ok(journal),
        Err(TextFault::Bad { line }) => {
            Err(Stop::BadLine(line, Wrong::Journal(line_hint(&bytes, line))))
        }
        Err(TextFault::Memory) => Err(Stop::OutOfMemory),
    }
}
