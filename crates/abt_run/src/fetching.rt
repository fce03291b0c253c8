//! The workloads of files.

ghost use Rattle.std.specs.Prelude.{◌≡◌, ◌≢◌, ◌≤◌, ℕ, List, IfErr, IfOk, IfSome, IsErrAnd, IsErrOf, Some, Option};
ghost use Rattle.abt_machine.specs.Grammar.{Reads};
ghost use Rattle.abt_machine.specs.Words.{Text};
ghost use Rattle.abt_run.specs.Prepared.{HasNoRun, HasNoWorkload};
ghost use Rattle.abt_run.specs.Steps.{ExceedsKnown, LetsStreams, StopsAtNoLine};
ghost use Rattle.abt_shell.specs.declared.status.Stop.TheVariants.{CannotRead};
ghost use Rattle.abt_source.specs.Seen.{Agree, Grows};

use abt_machine::{Format, Workload};
use abt_shell::{Stop, Wrong, bytes_of};
use abt_source::Files;
use abt_words::allowed_steps;
use abt_workload::{NotRead, format_of, hint, read};
use std::alloc::Global;

/// The workload of a file.
///
/// # Errors
///
/// `BadLine` if the bytes are not a workload's text, `CannotRead` if they cannot be read, `OutOfMemory` if memory is refused.
pub fn fetch<F: Files>(alloc: Global, file: &str, files: &mut F) -> Result<Workload, Stop>
    ensures reads { (file_of : Text → Option Text) → Agree (F.seen files.old) (F.seen files.new) file_of
        → IfOk result (λ w. IfSome (file_of file.now) (λ bytes. Reads bytes w)) }
    ensures stop { (file_of : Text → Option Text) → Agree (F.seen files.old) (F.seen files.new) file_of
        → IfErr result (HasNoWorkload (file_of file.now) (F.faults files.old, F.faults files.new)) }
    ensures absent { F.absent files.old file.now → IsErrOf result CannotRead }
    ensures faulty { F.faults files.new ≢ F.faults files.old → IsErrOf result CannotRead }
    ensures grows { Grows (F.seen files.old) (F.seen files.new) }
    ensures missing { (name : List ℕ) → F.absent files.old name → F.absent files.new name }
    ensures begun { IfSome (F.begun files.new) (λ name. name ≡ file.now) }
    ensures later { F.faults files.old ≤ F.faults files.new }
{
    let bytes = bytes_of(alloc, file, files, Format::Three.text_limit())?;
    workload_in(alloc, &bytes)
}

/// The workload of a file, and how many steps each of its streams may make, if the words ask for this many, or for none.
///
/// # Errors
///
/// `BadWords` if the format of the text allows fewer; then the text is not read further. Otherwise as `fetch`.
pub fn fetch_run<F: Files>(
    alloc: Global,
    file: &str,
    asked: Option<u64>,
    files: &mut F,
) -> Result<(Workload, u64), Stop>
    ensures reads { (file_of : Text → Option Text) → Agree (F.seen files.old) (F.seen files.new) file_of
        → IfOk result (λ found. IfSome (file_of file.now) (λ bytes. Reads bytes found.0)) }
    ensures steps { (file_of : Text → Option Text) → Agree (F.seen files.old) (F.seen files.new) file_of
        → IfOk result (λ found. LetsStreams (file_of file.now) asked found.1) }
    ensures stop { (file_of : Text → Option Text) → Agree (F.seen files.old) (F.seen files.new) file_of
        → IfErr result (HasNoRun (file_of file.now) asked (F.faults files.old, F.faults files.new)) }
    ensures exceeds { (file_of : Text → Option Text) → Agree (F.seen files.old) (F.seen files.new) file_of
        → ExceedsKnown (file_of file.now) asked → IsErrAnd result (StopsAtNoLine (F.faults files.old, F.faults files.new)) }
    ensures absent { F.absent files.old file.now → IsErrOf result CannotRead }
    ensures faulty { F.faults files.new ≢ F.faults files.old → IsErrOf result CannotRead }
    ensures grows { Grows (F.seen files.old) (F.seen files.new) }
    ensures missing { (name : List ℕ) → F.absent files.old name → F.absent files.new name }
    ensures begun { IfSome (F.begun files.new) (λ name. name ≡ file.now) }
    ensures later { F.faults files.old ≤ F.faults files.new }
{
    let bytes = bytes_of(alloc, file, files, Format::Three.text_limit())?;
    let Some(steps) = allowed_steps(format_of(&bytes), asked) else {
        return Err(Stop::BadWords);
    };
    let w = workload_in(alloc, &bytes)?;
    Ok((w, steps))
}

// The workload whose text these bytes are.
fn workload_in(alloc: Global, bytes: &[u8]) -> Result<Workload, Stop>
    ensures reads { IfOk result (Reads bytes.now) }
    ensures stop { IfErr result (λ stop. (faults : ℕ × ℕ) → HasNoWorkload (Some bytes.now) faults stop) }
{
    match read(alloc, bytes) {
        Ok(w) => Ok(w),
        Err(NotRead::Refused { line, fault }) => {
            let said = hint(alloc, bytes, line, fault)?;
            Err(Stop::BadLine(line, Wrong::Workload(fault, said)))
        }
        Err(NotRead::Memory) => Err(Stop::OutOfMemory),
    }
}
