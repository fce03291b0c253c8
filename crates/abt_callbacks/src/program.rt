//! The top call of the program.

ghost use Rattle.std.specs.Prelude.{◌≡◌, ◌≤◌, ℕ, IfOk, MatchOption, map, string_bytes};
ghost use Rattle.abt_machine.specs.Spelling.{SaysNumber};
ghost use Rattle.abt_shell.specs.Calls.{left};
ghost use Rattle.abt_callbacks.specs.declared.fold.FoldShape.TheVariants as shape;
ghost use Rattle.abt_callbacks.specs.Folding.{number_limit};
ghost use Rattle.abt_callbacks.specs.Program.{Asks, AsksNoSum, IsAnswered, IsLineOf, about_text};

use crate::fold::Fold;
use crate::folding::fold_on_threads;
use abt_lines::{end_line, push_number};
use abt_machine::Want;
use abt_shell::{More, Stop, stop_by, write_out};
use abt_source::Sink;
use abt_words::{Program, Topic, about, version};
use std::alloc::Global;
use std::sync::Wait;
use std::thread::Threads;

/// The name of the program.
pub const NAME: &[u8] = b"abtfold";

// How a sum is asked for.
const USAGE: &[u8] = b"abtfold W N\n";

// The program's words.
const HELP: &[u8] = b"abtfold W N\nabtfold --help\nabtfold --version\n";

// The maximum number of workers.
const WORKER_LIMIT: u32 = 8;

// The maximum number of numbers.
const NUMBER_LIMIT: u32 = 4096;

/// What the command of the program does: folds the numbers from 1 to N with W workers on threads, and writes the sum. The words
/// are W, from 1 to 8, and N, from 1 to 4,096; or `--help` or `--version`, which ask what the program says of itself.
///
/// Exit statuses: 0 the sum, or what the program says of itself, is written, 2 bad command line, 6 cannot write, 7 out of memory.
pub fn abtfold<R: Threads + Wait + Sync, K: Sink, E: Sink, F: Fold + Send + Drop>(
    rt: &R,
    alloc: Global,
    words: &[String],
    out: &mut K,
    err: &mut E,
    fold: F,
) -> u8
    requires { F.shape fold ≡ shape.Sum }
    ensures { IsAnswered F.shape F.may_return fold result (record {
      words = map string_bytes words.now;
      left = left (0, 0) (K.taken out.old, K.taken out.new) (K.faults out.old, K.faults out.new) (E.taken err.old, E.taken err.new) (E.faults err.old, E.faults err.new);
    }) }
{
    if let Some(topic) = about(words) {
        return write_out(NAME, out, err, about_text(topic), 0);
    }
    let Some((workers, n)) = asked(words) else {
        return stop_by(alloc, NAME, err, Stop::BadWords, More::Usage(USAGE)).number();
    };
    let Ok(line) = line(rt, alloc, workers, n, fold) else {
        return stop_by(alloc, NAME, err, Stop::OutOfMemory, More::Nothing).number();
    };
    write_out(NAME, out, err, &line, 0)
}

// What the program says of itself.
fn about_text(topic: Topic) -> &'static [u8]
    ensures { result.now ≡ about_text topic }
{
    match topic {
        Topic::Help => HELP,
        Topic::Version => version(Program::Fold),
    }
}

// How many workers and numbers the words ask for.
fn asked(words: &[String]) -> Option<(u32, u32)>
    ensures { MatchOption result (AsksNoSum (map string_bytes words.now)) (λ asked. Asks (map string_bytes words.now) asked.0 asked.1) }
{
    let [workers, n] = words else {
        return None;
    };
    let workers = number(workers.as_str(), WORKER_LIMIT)?;
    let n = number(n.as_str(), NUMBER_LIMIT)?;
    Some((workers, n))
}

// The number that one or more ASCII digits write, if it is from 1 to `most`. `parse` alone would take a plus.
fn number(text: &str, most: u32) -> Option<u32>
    ensures { MatchOption result ((n : ℕ) → SaysNumber most text.now n → ⊥) (λ n. SaysNumber most text.now n) }
{
    if text.as_bytes().first() == Some(&b'+') {
        return None;
    }
    match text.parse::<u32>() {
        Ok(n) if 1 <= n && n <= most => Some(n),
        _ => None,
    }
}

// The line of the sum, which the workers made.
fn line<R: Threads + Wait + Sync, F: Fold + Send + Drop>(
    rt: &R,
    alloc: Global,
    workers: u32,
    n: u32,
    fold: F,
) -> Result<Vec<u8>, Want>
    requires workers { 1 ≤ workers }
    requires numbers { (1 ≤ n) × (n ≤ number_limit) }
    requires fold { F.shape fold ≡ shape.Sum }
    ensures { IfOk result (λ text. IsLineOf F.shape F.may_return fold workers n text.items) }
{
    let closed = fold_on_threads(rt, alloc, workers, n, fold)?;
    let Some(value) = closed.object.value() else {
        unreachable!()
    };
    let mut text = Vec::from_slice(alloc, b"sum ")?;
    push_number(&mut text, value)?;
    end_line(&mut text)?;
    Ok(text)
}
