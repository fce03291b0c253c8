//! The top call.

ghost use Rattle.std.specs.Prelude.{◌≡◌, ◌≢◌, ◌≤◌, ◌⊎◌, IfErr, IfOk, IfSome, IsErrAnd, IsErrOf, List, None, Option, Some, map, string_bytes};
ghost use Rattle.abt_machine.specs.Words.{Text};
ghost use Rattle.abt_run.specs.Prepared.{LacksSecond};
ghost use Rattle.abt_shell.specs.Calls.{left};
ghost use Rattle.abt_shell.specs.Fetched.{HasNoJournal};
ghost use Rattle.abt_shell.specs.declared.status.Stop.TheVariants.{CannotRead, OutOfMemory};
ghost use Rattle.abt_source.specs.Seen.{Agree};
ghost use Rattle.abt_view.specs.Call.{IsAnswered, IsFileView, IsNamed, IsViewOf, LacksJournal, Prints, StopsView};
ghost use Rattle.abt_view.specs.Views.{Asks, AsksNoTopic, Request, request, topic_text};

use crate::about::{Topic, asked_topic};
use crate::views::{Conclusion, View, asked, conclude, view_text};
use abt_check::put_out;
use abt_run::fetch;
use abt_shell::{Stop, fetch_journal, more_of, stop_by, write_out};
use abt_source::{Files, Sink};
use std::alloc::Global;

/// The name of the program.
pub const NAME: &[u8] = b"abtview";

// How a view is asked for.
const USAGE: &[u8] = b"abtview svg|trace JOURNAL [WORKLOAD]\n";

// What a call prints, and to what it comes.
#[derive(Drop)]
struct Prepared {
    text: Vec<u8>,
    conclusion: Conclusion,
}

// The view of the journal in a file.
fn prepare_view<F: Files>(
    alloc: Global,
    view: View,
    file: &str,
    files: &mut F,
) -> Result<Prepared, Stop>
    ensures done { (file_of : Text → Option Text) → Agree (F.seen files.old) (F.seen files.new) file_of
        → IfOk result (λ it. IsFileView (request view file.now None) file_of it.conclusion it.text.items) }
    ensures stop { (file_of : Text → Option Text) → Agree (F.seen files.old) (F.seen files.new) file_of
        → IfErr result (HasNoJournal (file_of file.now) (F.faults files.old, F.faults files.new)) }
    ensures absent { F.absent files.old file.now → IsErrOf result CannotRead }
    ensures faulty { F.faults files.new ≢ F.faults files.old → IsErrOf result CannotRead }
    ensures begun { IfSome (F.begun files.new) (λ name. name ≡ file.now) }
    ensures later { F.faults files.old ≤ F.faults files.new }
{
    let journal = fetch_journal(alloc, file, files)?;
    let text = view_text(alloc, view, &None, journal.items(), &[])?;
    Ok(Prepared {
        text,
        conclusion: conclude(view, journal.items()),
    })
}

// The view of the journal in a file, with the operations of the workload in another one, which is read first, and what they put out.
fn prepare_named<F: Files>(
    alloc: Global,
    view: View,
    journal: &str,
    workload: &str,
    files: &mut F,
) -> Result<Prepared, Stop>
    ensures done { (file_of : Text → Option Text) → Agree (F.seen files.old) (F.seen files.new) file_of
        → IfOk result (λ it. IsFileView (request view journal.now (Some workload.now)) file_of it.conclusion it.text.items) }
    ensures stop { (file_of : Text → Option Text) → Agree (F.seen files.old) (F.seen files.new) file_of
        → (words : List Text) → Asks words (request view journal.now (Some workload.now))
        → IfErr result (StopsView words file_of (F.faults files.old, F.faults files.new)) }
    ensures absent { F.absent files.old workload.now → IsErrOf result CannotRead }
    ensures missing { (file_of : Text → Option Text) → Agree (F.seen files.old) (F.seen files.new) file_of
        → F.absent files.old journal.now → IsErrAnd result (LacksSecond (file_of workload.now) (F.faults files.old, F.faults files.new)) }
    ensures faulty { F.faults files.new ≢ F.faults files.old → IsErrOf result CannotRead }
    ensures begun { IfSome (F.begun files.new) (λ name. (name ≡ workload.now) ⊎ (name ≡ journal.now)) }
    ensures later { F.faults files.old ≤ F.faults files.new }
{
    let w = fetch(alloc, workload, files)?;
    let journal = fetch_journal(alloc, journal, files)?;
    let pieces = put_out(alloc, &w, journal.items())?;
    let text = view_text(alloc, view, &Some(w), journal.items(), &pieces)?;
    Ok(Prepared {
        text,
        conclusion: conclude(view, journal.items()),
    })
}

// What the program says of itself.
fn prepare_topic(alloc: Global, topic: Topic) -> Result<Prepared, Stop>
    ensures done { IfOk result (λ it. (it.text.items ≡ topic_text topic) × (it.conclusion ≡ Conclusion.Told)) }
    ensures stop { IfErr result (λ stop. stop ≡ OutOfMemory) }
{
    let text = Vec::from_slice(alloc, topic.text())?;
    Ok(Prepared {
        text,
        conclusion: Conclusion::Told,
    })
}

// The view that the words ask for.
fn prepare_asked<F: Files>(alloc: Global, words: &[String], files: &mut F) -> Result<Prepared, Stop>
    requires { AsksNoTopic (map string_bytes words.now) }
    ensures done { (file_of : Text → Option Text) → Agree (F.seen files.old) (F.seen files.new) file_of
        → IfOk result (λ it. IsViewOf (map string_bytes words.now) file_of it.conclusion it.text.items) }
    ensures stop { (file_of : Text → Option Text) → Agree (F.seen files.old) (F.seen files.new) file_of
        → IfErr result (StopsView (map string_bytes words.now) file_of (F.faults files.old, F.faults files.new)) }
    ensures missing { (q : Request) (file : Text) → Asks (map string_bytes words.now) q → q.workload ≡ Some file → F.absent files.old file → IsErrOf result CannotRead }
    ensures absent { (file_of : Text → Option Text) → Agree (F.seen files.old) (F.seen files.new) file_of
        → (q : Request) → Asks (map string_bytes words.now) q → F.absent files.old q.journal
        → IsErrAnd result (LacksJournal q.workload file_of (F.faults files.old, F.faults files.new)) }
    ensures faulty { F.faults files.new ≢ F.faults files.old → IsErrOf result CannotRead }
    ensures named { IfErr result (λ stop. stop ≡ CannotRead → IfSome (F.begun files.new) (IsNamed (map string_bytes words.now))) }
    ensures later { F.faults files.old ≤ F.faults files.new }
{
    match asked(words) {
        Some((view, journal, None)) => prepare_view(alloc, view, journal, files),
        Some((view, journal, Some(workload))) => {
            prepare_named(alloc, view, journal, workload, files)
        }
        None => Err(Stop::BadWords),
    }
}

// What the words ask for: all of a call except its writes.
fn prepare<F: Files>(alloc: Global, words: &[String], files: &mut F) -> Result<Prepared, Stop>
    ensures done { (file_of : Text → Option Text) → Agree (F.seen files.old) (F.seen files.new) file_of
        → IfOk result (λ it. Prints (map string_bytes words.now) file_of it.conclusion it.text.items) }
    ensures stop { (file_of : Text → Option Text) → Agree (F.seen files.old) (F.seen files.new) file_of
        → IfErr result (StopsView (map string_bytes words.now) file_of (F.faults files.old, F.faults files.new)) }
    ensures missing { (q : Request) (file : Text) → Asks (map string_bytes words.now) q → q.workload ≡ Some file → F.absent files.old file → IsErrOf result CannotRead }
    ensures absent { (file_of : Text → Option Text) → Agree (F.seen files.old) (F.seen files.new) file_of
        → (q : Request) → Asks (map string_bytes words.now) q → F.absent files.old q.journal
        → IsErrAnd result (LacksJournal q.workload file_of (F.faults files.old, F.faults files.new)) }
    ensures faulty { F.faults files.new ≢ F.faults files.old → IsErrOf result CannotRead }
    ensures named { IfErr result (λ stop. stop ≡ CannotRead → IfSome (F.begun files.new) (IsNamed (map string_bytes words.now))) }
    ensures later { F.faults files.old ≤ F.faults files.new }
{
    match asked_topic(words) {
        Some(topic) => prepare_topic(alloc, topic),
        None => prepare_asked(alloc, words, files),
    }
}

/// Runs the program's command: reads the workload in a file, if the words name one, and the journal in another, and writes the
/// journal's view, or writes what the program says of itself.
///
/// Exit statuses: 0 all is written, 2 bad command line, 3 a file is not a workload's or a journal's text or is too long, 5 cannot
/// read, 6 cannot write, 7 out of memory, 8 the journal is too large to be drawn, and the svg that says so is written.
pub fn abtview<F: Files, K: Sink, E: Sink>(
    alloc: Global,
    words: &[String],
    files: &mut F,
    out: &mut K,
    err: &mut E,
) -> u8
    ensures { (file_of : Text → Option Text) → Agree (F.seen files.old) (F.seen files.new) file_of
        → IsAnswered result (record {
          words = map string_bytes words.now;
          file = file_of;
          absent = λ name. F.absent files.old name;
          left = left (F.faults files.old, F.faults files.new) (K.taken out.old, K.taken out.new) (K.faults out.old, K.faults out.new) (E.taken err.old, E.taken err.new) (E.faults err.old, E.faults err.new);
        }) }
{
    match prepare(alloc, words, files) {
        Ok(it) => write_out(NAME, out, err, &it.text, it.conclusion.number()),
        Err(stop) => {
            let more = more_of(stop, USAGE, files.fault());
            stop_by(alloc, NAME, err, stop, more).number()
        }
    }
}
