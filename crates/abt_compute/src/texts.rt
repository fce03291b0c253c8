//! The texts of files.

ghost use Rattle.std.specs.Prelude.{◌≡◌, ◌≢◌, ◌≤◌, ◌⊎◌, IfErr, IfOk, IfSome, IsErrAnd, IsErrOf, Option};
ghost use Rattle.abt_machine.specs.Words.{Text};
ghost use Rattle.abt_shell.specs.Fetched.{HasNot};
ghost use Rattle.abt_shell.specs.declared.status.Stop.TheVariants.{CannotRead};
ghost use Rattle.abt_compute.specs.Files.{AreBadTexts, Has, HasNumbers, IsBadList, IsUnread, text_limit};
ghost use Rattle.abt_source.specs.Seen.{Agree};

use crate::numbers::read_numbers;
use abt_machine::Fault;
use abt_shell::{Stop, Wrong, bytes_of};
use abt_source::Files;
use std::alloc::Global;

// The maximum number of bytes of each of two texts that are compared, and of a text that lists numbers.
const TEXT_LIMIT: usize = 65_536;

const LIST_LIMIT: usize = 16_777_216;

// A text that is too long.
const TOO_LONG: Stop = Stop::BadLine(0, Wrong::Workload(Fault::Limit, b""));

/// The bytes of two files. Both are read before one is refused.
///
/// # Errors
///
/// `BadLine` if one is too long, `CannotRead` if one cannot be read, `OutOfMemory` if memory is refused.
pub(crate) fn two_texts<F: Files>(
    alloc: Global,
    first: &str,
    second: &str,
    files: &mut F,
) -> Result<(Vec<u8>, Vec<u8>), Stop>
    ensures first { (file_of : Text → Option Text) → Agree (F.seen files.old) (F.seen files.new) file_of
        → IfOk result (λ texts. Has (file_of first.now) text_limit texts.0.items) }
    ensures second { (file_of : Text → Option Text) → Agree (F.seen files.old) (F.seen files.new) file_of
        → IfOk result (λ texts. Has (file_of second.now) text_limit texts.1.items) }
    ensures stop { (file_of : Text → Option Text) → Agree (F.seen files.old) (F.seen files.new) file_of
        → IfErr result (HasNot (AreBadTexts (file_of first.now) (file_of second.now)) (F.faults files.old, F.faults files.new)) }
    ensures absent { F.absent files.old first.now → IsErrOf result CannotRead }
    ensures missing { F.absent files.old second.now → IsErrAnd result IsUnread }
    ensures faulty { F.faults files.new ≢ F.faults files.old → IsErrOf result CannotRead }
    ensures begun { IfSome (F.begun files.new) (λ name. (name ≡ first.now) ⊎ (name ≡ second.now)) }
    ensures later { F.faults files.old ≤ F.faults files.new }
{
    let one = bytes_of(alloc, first, files, TEXT_LIMIT)?;
    let other = bytes_of(alloc, second, files, TEXT_LIMIT)?;
    if one.len() > TEXT_LIMIT || other.len() > TEXT_LIMIT {
        return Err(TOO_LONG);
    }
    Ok((one, other))
}

/// The numbers that a file lists.
///
/// # Errors
///
/// `BadLine` if it is too long or a line is no number, `CannotRead` if it cannot be read, `OutOfMemory` if memory is refused.
pub(crate) fn numbers_in<F: Files>(
    alloc: Global,
    file: &str,
    files: &mut F,
) -> Result<Vec<u64>, Stop>
    ensures lists { (file_of : Text → Option Text) → Agree (F.seen files.old) (F.seen files.new) file_of
        → IfOk result (λ numbers. HasNumbers (file_of file.now) numbers.items) }
    ensures stop { (file_of : Text → Option Text) → Agree (F.seen files.old) (F.seen files.new) file_of
        → IfErr result (HasNot (IsBadList (file_of file.now)) (F.faults files.old, F.faults files.new)) }
    ensures absent { F.absent files.old file.now → IsErrOf result CannotRead }
    ensures faulty { F.faults files.new ≢ F.faults files.old → IsErrOf result CannotRead }
    ensures begun { IfSome (F.begun files.new) (λ name. name ≡ file.now) }
    ensures later { F.faults files.old ≤ F.faults files.new }
{
    let bytes = bytes_of(alloc, file, files, LIST_LIMIT)?;
    if bytes.len() > LIST_LIMIT {
        return Err(TOO_LONG);
    }
    read_numbers(alloc, &bytes)
}
