//! The answers to questions.

ghost use Rattle.std.specs.Prelude.{◌≡◌, ◌≢◌, ◌<◌, ◌≤◌, IfErr, IfOk, IfSome, IsErrAnd, IsErrOf, Option, codes};
ghost use Rattle.abt_functions.specs.Primes.{primes_below};
ghost use Rattle.abt_kernels.specs.Queens.{queens};
ghost use Rattle.abt_kernels.specs.Sorting.{in_order};
ghost use Rattle.abt_kernels.specs.Turns.{turned_sum};
ghost use Rattle.abt_machine.specs.Words.{Text};
ghost use Rattle.abt_shell.specs.declared.status.Stop.TheVariants.{CannotRead};
ghost use Rattle.abt_compute.specs.Answers.{Answers, Prevents, common_line, count_line, picture_text};
ghost use Rattle.abt_compute.specs.Files.{IsUnread};
ghost use Rattle.abt_compute.specs.Numbers.{number_lines};
ghost use Rattle.abt_compute.specs.Questions.{IsWithin, Names, Subsequence, Sort, queen_limit, side_limit, streams_limit, turn_limit, question_of};
ghost use Rattle.abt_source.specs.Seen.{Agree};

use crate::numbers::lines_of_numbers;
use crate::texts::{numbers_in, two_texts};
use crate::words::Asked;
use abt_kernels::{
    count_primes, count_queens, longest_common_subsequence, mandelbrot_rows, merge_sort, picture,
    sum_turns,
};
use abt_lines::{end_line, push_number};
use abt_machine::Want;
use abt_shell::Stop;
use abt_source::Files;
use std::alloc::Global;
use std::sync::Wait;
use std::thread::Threads;

// The line of a count.
fn count_line(alloc: Global, name: &[u8], n: u64) -> Result<Vec<u8>, Want>
    ensures { IfOk result (λ text. text.items ≡ count_line name.now n) }
{
    let mut text = Vec::from_slice(alloc, name)?;
    text.extend_from_slice(b" ")?;
    push_number(&mut text, n)?;
    end_line(&mut text)?;
    Ok(text)
}

// How many primes are below n.
fn primes<R: Threads + Wait + Sync>(
    rt: &R,
    alloc: Global,
    n: u32,
    streams: u32,
) -> Result<Vec<u8>, Want>
    requires streams { (0 < streams) × (streams ≤ streams_limit) }
    ensures { IfOk result (λ text. text.items ≡ count_line (codes "primes") (primes_below n)) }
{
    let primes = count_primes(rt, alloc, n, streams)?;
    count_line(alloc, b"primes", primes)
}

// In how many ways n queens stand on a board.
fn queens<R: Threads + Wait + Sync>(
    rt: &R,
    alloc: Global,
    n: u32,
    streams: u32,
) -> Result<Vec<u8>, Want>
    requires few { (0 < n) × (n ≤ queen_limit) }
    requires streams { (0 < streams) × (streams ≤ streams_limit) }
    ensures { IfOk result (λ text. text.items ≡ count_line (codes "queens") (queens n)) }
{
    let ways = count_queens(rt, alloc, n, streams)?;
    count_line(alloc, b"queens", ways)
}

// How long the longest common subsequence of two texts is.
fn common<R: Threads + Wait + Sync>(
    rt: &R,
    alloc: Global,
    a: &[u8],
    b: &[u8],
    streams: u32,
) -> Result<Vec<u8>, Want>
    requires streams { (0 < streams) × (streams ≤ streams_limit) }
    ensures { IfOk result (λ text. text.items ≡ common_line a.now b.now) }
{
    let length = longest_common_subsequence(rt, alloc, a, b, streams)?;
    count_line(alloc, b"lcs", length)
}

// The lines of numbers, in order.
fn sorted<R: Threads + Wait + Sync>(
    rt: &R,
    alloc: Global,
    numbers: &[u64],
    streams: u32,
) -> Result<Vec<u8>, Want>
    requires streams { (0 < streams) × (streams ≤ streams_limit) }
    ensures { IfOk result (λ text. text.items ≡ number_lines (in_order numbers.now)) }
{
    let numbers = merge_sort(rt, alloc, numbers, streams)?;
    lines_of_numbers(alloc, &numbers)
}

// A picture of this width and height.
fn drawn<R: Threads + Wait + Sync>(
    rt: &R,
    alloc: Global,
    width: u32,
    height: u32,
    streams: u32,
) -> Result<Vec<u8>, Want>
    requires small { height ≤ side_limit }
    requires streams { (0 < streams) × (streams ≤ streams_limit) }
    ensures { IfOk result (λ text. text.items ≡ picture_text width height) }
{
    let rows = mandelbrot_rows(rt, alloc, width, height, streams)?;
    let text = picture(alloc, width, height, &rows)?;
    Ok(text)
}

// The sum of what so many turns make of the numbers below `nodes`.
fn turned<R: Threads + Wait + Sync>(
    rt: &R,
    alloc: Global,
    nodes: u32,
    turns: u32,
    streams: u32,
) -> Result<Vec<u8>, Want>
    requires few { nodes ≤ turn_limit }
    requires streams { (0 < streams) × (streams ≤ streams_limit) }
    ensures { IfOk result (λ text. text.items ≡ count_line (codes "turns") (turned_sum nodes turns)) }
{
    let sum = sum_turns(rt, alloc, nodes, turns, streams)?;
    count_line(alloc, b"turns", sum)
}

// The answer for the texts of two files.
fn answer_of_two<R: Threads + Wait + Sync, F: Files>(
    rt: &R,
    alloc: Global,
    first: &str,
    second: &str,
    streams: u32,
    files: &mut F,
) -> Result<Vec<u8>, Stop>
    requires streams { (0 < streams) × (streams ≤ streams_limit) }
    ensures done { (file_of : Text → Option Text) → Agree (F.seen files.old) (F.seen files.new) file_of
        → IfOk result (λ text. Answers file_of (Subsequence first.now second.now) text.items) }
    ensures stop { (file_of : Text → Option Text) → Agree (F.seen files.old) (F.seen files.new) file_of
        → IfErr result (Prevents file_of (Subsequence first.now second.now) (F.faults files.old, F.faults files.new)) }
    ensures absent { (file : Text) → Names (Subsequence first.now second.now) file → F.absent files.old file → IsErrAnd result IsUnread }
    ensures faulty { F.faults files.new ≢ F.faults files.old → IsErrOf result CannotRead }
    ensures begun { IfSome (F.begun files.new) (Names (Subsequence first.now second.now)) }
    ensures later { F.faults files.old ≤ F.faults files.new }
{
    let (a, b) = two_texts(alloc, first, second, files)?;
    let text = common(rt, alloc, &a, &b, streams)?;
    Ok(text)
}

// The answer for the numbers of a file.
fn answer_of_list<R: Threads + Wait + Sync, F: Files>(
    rt: &R,
    alloc: Global,
    file: &str,
    streams: u32,
    files: &mut F,
) -> Result<Vec<u8>, Stop>
    requires streams { (0 < streams) × (streams ≤ streams_limit) }
    ensures done { (file_of : Text → Option Text) → Agree (F.seen files.old) (F.seen files.new) file_of
        → IfOk result (λ text. Answers file_of (Sort file.now) text.items) }
    ensures stop { (file_of : Text → Option Text) → Agree (F.seen files.old) (F.seen files.new) file_of
        → IfErr result (Prevents file_of (Sort file.now) (F.faults files.old, F.faults files.new)) }
    ensures absent { (name : Text) → Names (Sort file.now) name → F.absent files.old name → IsErrAnd result IsUnread }
    ensures faulty { F.faults files.new ≢ F.faults files.old → IsErrOf result CannotRead }
    ensures begun { IfSome (F.begun files.new) (Names (Sort file.now)) }
    ensures later { F.faults files.old ≤ F.faults files.new }
{
    let numbers = numbers_in(alloc, file, files)?;
    let text = sorted(rt, alloc, &numbers, streams)?;
    Ok(text)
}

/// What is printed for a question, computed on the threads of this many streams.
///
/// # Errors
///
/// `BadLine` if a line of a file is not as it should be, `CannotRead` if a file cannot be read, `OutOfMemory` if memory is refused.
pub(crate) fn answer<R: Threads + Wait + Sync, F: Files>(
    rt: &R,
    alloc: Global,
    asked: Asked,
    streams: u32,
    files: &mut F,
) -> Result<Vec<u8>, Stop>
    requires within { IsWithin (question_of asked) }
    requires streams { (0 < streams) × (streams ≤ streams_limit) }
    ensures done { (file_of : Text → Option Text) → Agree (F.seen files.old) (F.seen files.new) file_of
        → IfOk result (λ text. Answers file_of (question_of asked.entry) text.items) }
    ensures stop { (file_of : Text → Option Text) → Agree (F.seen files.old) (F.seen files.new) file_of
        → IfErr result (Prevents file_of (question_of asked.entry) (F.faults files.old, F.faults files.new)) }
    ensures absent { (file : Text) → Names (question_of asked.entry) file → F.absent files.old file → IsErrAnd result IsUnread }
    ensures faulty { F.faults files.new ≢ F.faults files.old → IsErrOf result CannotRead }
    ensures named { IfErr result (λ stop. stop ≡ CannotRead → IfSome (F.begun files.new) (Names (question_of asked.entry))) }
    ensures later { F.faults files.old ≤ F.faults files.new }
{
    match asked {
        Asked::Primes(n) => {
            let text = primes(rt, alloc, n, streams)?;
            Ok(text)
        }
        Asked::Queens(n) => {
            let text = queens(rt, alloc, n, streams)?;
            Ok(text)
        }
        Asked::Subsequence(first, second) => {
            answer_of_two(rt, alloc, first, second, streams, files)
        }
        Asked::Sort(file) => answer_of_list(rt, alloc, file, streams, files),
        Asked::Picture(width, height) => {
            let text = drawn(rt, alloc, width, height, streams)?;
            Ok(text)
        }
        Asked::Turns(nodes, turns) => {
            let text = turned(rt, alloc, nodes, turns, streams)?;
            Ok(text)
        }
    }
}
