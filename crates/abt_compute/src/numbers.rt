//! Numbers in a text, one a line.

ghost use Rattle.std.specs.Prelude.{◌≡◌, ◌<◌, ◌≤◌, ◌∷◌, ◌++◌, ◌==◌, ℕ, [], true, false, length, slice_index, IfErr, IfOk, OnOk};
ghost use Rattle.abt_machine.specs.Spelling.{lines_of};
ghost use Rattle.abt_shell.specs.Fetched.{HasNot};
ghost use Rattle.abt_workload.specs.Slots.{number_in};
ghost use Rattle.abt_compute.specs.Files.{IsWrongLine, list_limit};
ghost use Rattle.abt_compute.specs.Numbers.{Lists, number_lines};

use abt_lines::{end_line, push_number};
use abt_machine::{Fault, Want};
use abt_shell::{Stop, Wrong};
use abt_workload::line_hint;
use std::alloc::Global;

// The place of the first line feed, or the length if there is none.
fn line_end(text: &[u8]) -> usize
    ensures bound { result ≤ length text.now }
    ensures at { result < length text.now → (slice_index text.now result == 10) ≡ true }
    ensures before { (j : ℕ) → j < result → (slice_index text.now j == 10) ≡ false }
{
    for (k, b) in text.iter().enumerate() {
        if *b == b'\n' {
            return k;
        }
    }
    text.len()
}

// The first line, and what follows its line feed.
fn first_line(text: &[u8]) -> (&[u8], &[u8])
    requires { 0 < length text.now }
    ensures line { lines_of text.now ≡ result.0.now ∷ lines_of result.1.now }
    ensures shorter { length result.1.now < length text.now }
{
    let end = line_end(text);
    if end < text.len() {
        (&text[..end], &text[end + 1..])
    } else {
        (text, &[])
    }
}

// The number that a line is, if it is one.
fn number(line: &[u8]) -> Option<u64>
    ensures { result ≡ number_in line.now }
{
    if line.is_empty() {
        return None;
    }
    let mut n: u64 = 0;
    for b in line {
        if !b.is_ascii_digit() {
            return None;
        }
        let digit = u64::from(*b - b'0');
        if n > (u64::MAX - digit) / 10 {
            return None;
        }
        n = n * 10 + digit;
    }
    Some(n)
}

// Appends a number.
fn keep(numbers: &mut Vec<u64>, n: u64) -> Result<(), Want>
    ensures { OnOk result (numbers.new.items ≡ numbers.old.items ++ n ∷ []) }
{
    numbers.push(n)?;
    Ok(())
}

/// The numbers that a text lists.
///
/// # Errors
///
/// `BadLine` if a line is no number, `OutOfMemory` if memory is refused.
pub(crate) fn read_numbers(alloc: Global, text: &[u8]) -> Result<Vec<u64>, Stop>
    requires few { length text.now ≤ list_limit }
    ensures lists { IfOk result (λ numbers. Lists text.now numbers.items) }
    ensures stop { IfErr result (λ stop. (faults : ℕ × ℕ) → HasNot (IsWrongLine text.now) faults stop) }
{
    let mut numbers = Vec::new(alloc);
    let mut rest = text;
    let mut count: u32 = 0;
    while !rest.is_empty() {
        let (line, after) = first_line(rest);
        let Some(n) = number(line) else {
            let said = line_hint(text, count + 1);
            return Err(Stop::BadLine(count + 1, Wrong::Workload(Fault::Number, said)));
        };
        keep(&mut numbers, n)?;
        rest = after;
        count += 1;
    }
    Ok(numbers)
}

/// The lines of numbers.
pub(crate) fn lines_of_numbers(alloc: Global, numbers: &[u64]) -> Result<Vec<u8>, Want>
    ensures { IfOk result (λ text. text.items ≡ number_lines numbers.now) }
{
    let mut text = Vec::new(alloc);
    for n in numbers {
        push_number(&mut text, *n)?;
        end_line(&mut text)?;
    }
    Ok(text)
}
