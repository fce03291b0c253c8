//! The top call.

ghost use Rattle.std.specs.Prelude.{◌≡◌, ◌≢◌, ◌≤◌, ◌⊎◌, if◌then◌else◌, List, IfErr, IfOk, IfSome, IsErrAnd, IsErrOf, Option, [], length, map, string_bytes};
ghost use Rattle.abt_machine.specs.Limits.{function_limit};
ghost use Rattle.abt_machine.specs.Texts.{journal_text as text_of_journal};
ghost use Rattle.abt_machine.specs.Words.{Text};
ghost use Rattle.abt_order.specs.Stored.{stored_of};
ghost use Rattle.abt_report.specs.Pictures.{IsPictureOf};
ghost use Rattle.abt_run.specs.Given.{Given, given};
ghost use Rattle.abt_run.specs.Steps.{ExceedsKnown, LetsStreams, StopsAtNoLine};
ghost use Rattle.abt_shell.specs.Calls.{left};
ghost use Rattle.abt_shell.specs.declared.status.Stop.TheVariants.{CannotRead, OutOfMemory};
ghost use Rattle.abt_source.specs.Seen.{Agree, Grows};
ghost use Rattle.abt_words.specs.About.{AsksAbout};
ghost use Rattle.abt_words.specs.Lives.{SaysLives};
ghost use Rattle.abt_lives.specs.Asked.{AsksRun, IsNamed, LacksLives, MayMake};
ghost use Rattle.abt_lives.specs.Call.{IsAnswered, PrintsLives, StopsLives, waves_output};
ghost use Rattle.abt_lives.specs.Lives.{HasNoLives, ReadsLives};
ghost use Rattle.abt_lives.specs.declared.status.Conclusion.TheVariants as conclusion;
ghost use Rattle.abt_sizes.specs.Laws.{IsSmall};
ghost use Rattle.abt_streams.specs.Lives.{AreLives};
ghost use Rattle.abt_streams.specs.Waves.{HasRunOn};

use crate::status::{Conclusion, NAME, USAGE, about_text};
use crate::waves::push_waves;
use abt_machine::{Ended, Journal, Want, Workload};
use abt_order::StoredOrder;
use abt_report::{TextFault, append_report, count_steps, journal_text};
use abt_run::fetch_run;
use abt_shell::{Stop, Wrong, bytes_of, conclude_run, more_of, stop_without_run};
use abt_source::{Files, Sink};
use abt_streams::{Lives, LivesRun, read_lives, run_lives};
use abt_words::{DEFAULT_STEPS, Topic, WordFault, about, lives_words};
use abt_work::Work;
use abt_workload::line_hint;
use std::alloc::Global;
use std::sync::Wait;
use std::thread::Threads;

// The maximum number of bytes of a lives text.
const LIVES_LIMIT: usize = 65_536;

// What a call writes, its journal, and what it came to.
#[derive(Drop)]
struct Prepared {
    journal: Journal,
    text: Vec<u8>,
    conclusion: Conclusion,
}

impl Prepared {
    // Of a run, and what it prints.
    fn new(run: LivesRun, text: Vec<u8>) -> Prepared
        ensures journal { result.journal ≡ run.journal }
        ensures conclusion { result.conclusion ≡ conclusion.Ended run.outcome }
        ensures text { result.text.items ≡ text.items }
    {
        let LivesRun {
            journal,
            waves: _,
            picture: _,
            outcome,
        } = run;
        Prepared {
            journal,
            text,
            conclusion: Conclusion::Ended(outcome),
        }
    }
}

// The text of a run's journal, if it is asked for.
fn asked_journal(alloc: Global, run: &LivesRun, with_journal: bool) -> Result<Vec<u8>, Want>
    ensures { IfOk result (λ text. text.items ≡ (if with_journal then text_of_journal run.now.journal else [])) }
{
    if with_journal {
        journal_text(alloc, &run.journal)
    } else {
        Ok(Vec::new(alloc))
    }
}

// The output of a run: its journal, if it is asked for, its report, and its waves.
fn output(alloc: Global, w: &Workload, run: &LivesRun, with_journal: bool) -> Result<Vec<u8>, Want>
    requires picture { IsPictureOf w.now run.now.journal run.now.picture }
    ensures { IfOk result (λ text. text.items ≡ waves_output with_journal w.now run.now.journal run.now.waves run.now.outcome) }
{
    let mut text = asked_journal(alloc, run, with_journal)?;
    let steps = count_steps(run.journal.items());
    append_report(&mut text, w, &run.picture, run.outcome, steps)?;
    push_waves(&mut text, run.waves.items())?;
    Ok(text)
}

// The lives in a file.
fn fetch_lives<F: Files>(
    alloc: Global,
    w: &Workload,
    file: &str,
    files: &mut F,
) -> Result<Lives, Stop>
    ensures grows { Grows (F.seen files.old) (F.seen files.new) }
    ensures are { IfOk result (λ lives. AreLives w.now lives) }
    ensures reads { (file_of : Text → Option Text) → Agree (F.seen files.old) (F.seen files.new) file_of
        → IfOk result (λ lives. IfSome (file_of file.now) (λ bytes. ReadsLives w.now bytes lives)) }
    ensures stop { (file_of : Text → Option Text) → Agree (F.seen files.old) (F.seen files.new) file_of
        → IfErr result (HasNoLives w.now (file_of file.now) (F.faults files.old, F.faults files.new)) }
    ensures absent { F.absent files.old file.now → IsErrOf result CannotRead }
    ensures faulty { F.faults files.new ≢ F.faults files.old → IsErrOf result CannotRead }
    ensures begun { IfSome (F.begun files.new) (λ name. name ≡ file.now) }
    ensures later { F.faults files.old ≤ F.faults files.new }
{
    let bytes = bytes_of(alloc, file, files, LIVES_LIMIT)?;
    if bytes.len() > LIVES_LIMIT {
        return Err(Stop::BadLine(0, Wrong::Lives(b"")));
    }
    match read_lives(alloc, w, &bytes) {
        Ok(lives) => Ok(lives),
        Err(TextFault::Bad { line }) => {
            Err(Stop::BadLine(line, Wrong::Lives(line_hint(&bytes, line))))
        }
        Err(TextFault::Memory) => Err(Stop::OutOfMemory),
    }
}

// How many steps each stream may make, if the words ask for this many, or for none, and the format of the workload's text allows this many.
fn steps_made(asked: Option<u64>, allowed: u64) -> u64
    ensures { (told : Option Text) → LetsStreams told asked allowed → MayMake told asked result }
{
    match asked {
        Some(_) => allowed,
        None => DEFAULT_STEPS,
    }
}

// The run of a workload on lives, in which each stream may make so many steps.
#[tactic(auto, using(crate::proofs::Storing::stores_calls))]
fn run_on<R: Threads + Wait + Sync, P: Work + Sync>(
    rt: &R,
    alloc: Global,
    w: &Workload,
    lives: &Lives,
    orders: &[StoredOrder],
    work: &P,
    steps: u64,
) -> Result<LivesRun, Want>
    requires orders { 2 ≤ length orders.now }
    requires calls { function_limit ≤ P.count work.now }
    requires lives { AreLives w.now lives.now }
    ensures run { IfOk result (λ run. HasRunOn w.now (stored_of orders.now (P.returns work.now)) steps lives.now run.journal run.waves run.outcome) }
    ensures small { IfOk result (λ run. IsSmall w.now run.journal) }
    ensures picture { IfOk result (λ run. IsPictureOf w.now run.journal run.picture) }
{
    w.known();
    run_lives(rt, alloc, w, lives, orders, work, steps)
}

// The run of a file's workload on another file's lives, and what it prints.
fn prepare_files<R: Threads + Wait + Sync, F: Files, P: Work + Sync>(
    rt: &R,
    alloc: Global,
    workload: &str,
    lives: &str,
    asked: Option<u64>,
    with_journal: bool,
    files: &mut F,
    work: &P,
    orders: &[StoredOrder],
) -> Result<Prepared, Stop>
    requires orders { 2 ≤ length orders.now }
    requires calls { function_limit ≤ P.count work.now }
    ensures done { (file_of : Text → Option Text) → Agree (F.seen files.old) (F.seen files.new) file_of
        → (words : List Text) → SaysLives words (record { workload = workload.now; lives = lives.now; steps = asked; journal = with_journal })
        → IfOk result (λ p. PrintsLives (given words (stored_of orders.now (P.returns work.now)) file_of) p.journal p.conclusion p.text.items) }
    ensures stop { (file_of : Text → Option Text) → Agree (F.seen files.old) (F.seen files.new) file_of
        → (words : List Text) → SaysLives words (record { workload = workload.now; lives = lives.now; steps = asked; journal = with_journal })
        → IfErr result (StopsLives (given words (stored_of orders.now (P.returns work.now)) file_of) (F.faults files.old, F.faults files.new)) }
    ensures absent { F.absent files.old workload.now → IsErrOf result CannotRead }
    ensures missing { (file_of : Text → Option Text) → Agree (F.seen files.old) (F.seen files.new) file_of
        → F.absent files.old lives.now
        → IsErrAnd result (LacksLives (file_of workload.now) asked (F.faults files.old, F.faults files.new)) }
    ensures exceeds { (file_of : Text → Option Text) → Agree (F.seen files.old) (F.seen files.new) file_of
        → ExceedsKnown (file_of workload.now) asked
        → IsErrAnd result (StopsAtNoLine (F.faults files.old, F.faults files.new)) }
    ensures faulty { F.faults files.new ≢ F.faults files.old → IsErrOf result CannotRead }
    ensures begun { IfSome (F.begun files.new) (λ name. (name ≡ workload.now) ⊎ (name ≡ lives.now)) }
    ensures later { F.faults files.old ≤ F.faults files.new }
{
    let (w, allowed) = fetch_run(alloc, workload, asked, files)?;
    let lives = fetch_lives(alloc, &w, lives, files)?;
    let steps = steps_made(asked, allowed);
    let ran = run_on(rt, alloc, &w, &lives, orders, work, steps)?;
    let text = output(alloc, &w, &ran, with_journal)?;
    Ok(Prepared::new(ran, text))
}

// What the program says of itself.
fn prepare_about(alloc: Global, asked: Topic) -> Result<Prepared, Stop>
    ensures done { (g : Given) → AsksAbout g.words asked → IfOk result (λ p. PrintsLives g p.journal p.conclusion p.text.items) }
    ensures stop { IfErr result (λ stop. stop ≡ OutOfMemory) }
{
    let text = Vec::from_slice(alloc, about_text(asked))?;
    Ok(Prepared {
        journal: Journal::new(Vec::new(alloc)),
        text,
        conclusion: Conclusion::Explained(asked),
    })
}

// All of a call but its writes.
fn prepare<R: Threads + Wait + Sync, F: Files, P: Work + Sync>(
    rt: &R,
    alloc: Global,
    words: &[String],
    files: &mut F,
    work: &P,
    orders: &[StoredOrder],
) -> Result<Prepared, Stop>
    requires orders { 2 ≤ length orders.now }
    requires calls { function_limit ≤ P.count work.now }
    ensures done { (file_of : Text → Option Text) → Agree (F.seen files.old) (F.seen files.new) file_of
        → IfOk result (λ p. PrintsLives (given (map string_bytes words.now) (stored_of orders.now (P.returns work.now)) file_of) p.journal p.conclusion p.text.items) }
    ensures stop { (file_of : Text → Option Text) → Agree (F.seen files.old) (F.seen files.new) file_of
        → IfErr result (StopsLives (given (map string_bytes words.now) (stored_of orders.now (P.returns work.now)) file_of) (F.faults files.old, F.faults files.new)) }
    ensures absent { (run : AsksRun (map string_bytes words.now)) → F.absent files.old run.asked.workload → IsErrOf result CannotRead ⊎ IsErrOf result OutOfMemory }
    ensures missing { (file_of : Text → Option Text) → Agree (F.seen files.old) (F.seen files.new) file_of
        → (run : AsksRun (map string_bytes words.now)) → F.absent files.old run.asked.lives
        → IsErrAnd result (LacksLives (file_of run.asked.workload) run.asked.steps (F.faults files.old, F.faults files.new)) }
    ensures exceeds { (file_of : Text → Option Text) → Agree (F.seen files.old) (F.seen files.new) file_of
        → (run : AsksRun (map string_bytes words.now)) → ExceedsKnown (file_of run.asked.workload) run.asked.steps
        → IsErrAnd result (StopsAtNoLine (F.faults files.old, F.faults files.new)) }
    ensures faulty { F.faults files.new ≢ F.faults files.old → IsErrOf result CannotRead }
    ensures named { IfErr result (λ stop. stop ≡ CannotRead → IfSome (F.begun files.new) (IsNamed (map string_bytes words.now))) }
    ensures later { F.faults files.old ≤ F.faults files.new }
{
    if let Some(asked) = about(words) {
        return prepare_about(alloc, asked);
    }
    match lives_words(alloc, words) {
        Ok(asked) => {
            prepare_files(
                rt,
                alloc,
                asked.workload.as_str(),
                asked.lives.as_str(),
                asked.steps,
                asked.journal,
                files,
                work,
                orders,
            )
        }
        Err(WordFault::Bad) => Err(Stop::BadWords),
        Err(WordFault::Memory) => Err(Stop::OutOfMemory),
    }
}

/// What the program does: reads the workload in one file and the lives of its streams in another, runs it, and writes the run's
/// journal, if `--journal` asks for it, its report, and its waves. The words are those after the program's name, WORKLOAD and LIVES with
/// options, or `--help` or `--version`, which ask what the program says of itself. User schedulers name the stored orders by number. Each
/// stream may make 10,000 steps, or as many as `--steps` asks for; `work` is called before each, and has the functions that units call,
/// all outside every lock.
///
/// Exit statuses: 0 finished, or the words ask about the program, 1 stuck, 2 bad command line, also if it asks for more steps than the
/// format of the workload allows, 3 one of the files is refused, 4 a stream made all the steps that it may make, 5 cannot read, 6 cannot
/// write, 7 out of memory. The journal is that of the run that was made, and otherwise empty.
pub fn abtwaves<R: Threads + Wait + Sync, F: Files, K: Sink, E: Sink, P: Work + Sync>(
    rt: &R,
    alloc: Global,
    words: &[String],
    files: &mut F,
    out: &mut K,
    err: &mut E,
    work: &P,
    orders: &[StoredOrder],
) -> Ended
    requires orders { 2 ≤ length orders.now }
    requires calls { function_limit ≤ P.count work.now }
    ensures { (file_of : Text → Option Text) → Agree (F.seen files.old) (F.seen files.new) file_of
        → IsAnswered result.status (record {
          given = given (map string_bytes words.now) (stored_of orders.now (P.returns work.now)) file_of;
          absent = λ name. F.absent files.old name;
          left = left (F.faults files.old, F.faults files.new) (K.taken out.old, K.taken out.new) (K.faults out.old, K.faults out.new) (E.taken err.old, E.taken err.new) (E.faults err.old, E.faults err.new);
          journal = result.journal;
        }) }
{
    match prepare(rt, alloc, words, files, work, orders) {
        Ok(done) => {
            let Prepared {
                journal,
                text,
                conclusion,
            } = done;
            conclude_run(NAME, out, err, &text, conclusion.number(), journal)
        }
        Err(stop) => {
            let more = more_of(stop, USAGE, files.fault());
            stop_without_run(alloc, NAME, err, stop, more)
        }
    }
}
