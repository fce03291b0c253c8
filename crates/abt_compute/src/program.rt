//! The top call.

ghost use Rattle.std.specs.Prelude.{◌≡◌, Option, map, string_bytes};
ghost use Rattle.abt_machine.specs.Words.{Text};
ghost use Rattle.abt_shell.specs.Calls.{left};
ghost use Rattle.abt_compute.specs.Program.{AsksNoTopic, IsAnswered, about_text};
ghost use Rattle.abt_source.specs.Seen.{Agree};

use crate::answers::answer;
use crate::words::read_words;
use abt_shell::{More, Stop, more_of, stop_by, write_out};
use abt_source::{Files, Sink};
use abt_words::{Program, Topic, about, version};
use std::alloc::Global;
use std::sync::Wait;
use std::thread::Threads;

/// The name of the program.
pub const NAME: &[u8] = b"abtwork";

// How it is called.
const USAGE: &[u8] =
    b"abtwork primes N | queens N | lcs FILE FILE | mergesort FILE | mandelbrot WIDTH HEIGHT | turns NODES TURNS [--streams S]\n";

// The program's words.
const HELP: &[u8] =
    b"abtwork primes N [--streams S]\nabtwork queens N [--streams S]\nabtwork lcs FILE FILE [--streams S]\nabtwork mergesort FILE [--streams S]\nabtwork mandelbrot WIDTH HEIGHT [--streams S]\nabtwork turns NODES TURNS [--streams S]\nabtwork --help\nabtwork --version\n";

// What the program says of itself.
fn about_text(topic: Topic) -> &'static [u8]
    ensures { result.now ≡ about_text topic }
{
    match topic {
        Topic::Help => HELP,
        Topic::Version => version(Program::Work),
    }
}

// Computes what the words ask for on threads, and writes the answer.
fn compute<R: Threads + Wait + Sync, F: Files, K: Sink, E: Sink>(
    rt: &R,
    alloc: Global,
    words: &[String],
    files: &mut F,
    out: &mut K,
    err: &mut E,
) -> u8
    requires { AsksNoTopic (map string_bytes words.now) }
    ensures { (file_of : Text → Option Text) → Agree (F.seen files.old) (F.seen files.new) file_of
        → IsAnswered result (record {
          words = map string_bytes words.now;
          file = file_of;
          absent = λ name. F.absent files.old name;
          left = left (F.faults files.old, F.faults files.new) (K.taken out.old, K.taken out.new) (K.faults out.old, K.faults out.new) (E.taken err.old, E.taken err.new) (E.faults err.old, E.faults err.new);
        }) }
{
    match read_words(words) {
        None => stop_by(alloc, NAME, err, Stop::BadWords, More::Usage(USAGE)).number(),
        Some((asked, streams)) => match answer(rt, alloc, asked, streams, files) {
            Ok(text) => write_out(NAME, out, err, &text, 0),
            Err(stop) => {
                let more = more_of(stop, USAGE, files.fault());
                stop_by(alloc, NAME, err, stop, more).number()
            }
        },
    }
}

/// Runs the program's command: computes what the words ask for on threads, and writes the answer; `--help` and `--version` ask what the
/// program says of itself.
///
/// Exit statuses: 0 the answer is written, 2 bad command line, 3 a line of a file is not as it should be or the file is too long, 5
/// cannot read, 6 cannot write, 7 out of memory.
pub fn abtwork<R: Threads + Wait + Sync, F: Files, K: Sink, E: Sink>(
    rt: &R,
    alloc: Global,
    words: &[String],
    files: &mut F,
    out: &mut K,
    err: &mut E,
) -> u8
    ensures { (file_of : Text → Option Text) → Agree (F.seen files.old) (F.seen files.new) file_of
        → IsAnswered result (record {
          words = map string_bytes words.now;
          file = file_of;
          absent = λ name. F.absent files.old name;
          left = left (F.faults files.old, F.faults files.new) (K.taken out.old, K.taken out.new) (K.faults out.old, K.faults out.new) (E.taken err.old, E.taken err.new) (E.faults err.old, E.faults err.new);
        }) }
{
    match about(words) {
        Some(topic) => write_out(NAME, out, err, about_text(topic), 0),
        None => compute(rt, alloc, words, files, out, err),
    }
}
