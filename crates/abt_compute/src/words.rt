//! What the words of the program ask for.

ghost use Rattle.std.specs.Prelude.{◌≡◌, ◌<◌, ◌≤◌, ℕ, List, MatchOption, map, string_bytes};
ghost use Rattle.abt_machine.specs.Words.{Text};
ghost use Rattle.abt_compute.specs.Questions.{Asks, AsksNothing, AsksStreams, Begins, IsNoKernel, IsWithin, Lacks, SaysFiles, SaysOne, SaysTwo, kernel_of as kernel_of_question, kernel_word, streams_limit, question_of};

use abt_words::number;

/// The computations of the program.
#[derive(Clone, Copy, Debug, PartialEq, Eq)]
pub enum Kernel {
    Primes,
    Queens,
    Subsequence,
    Sort,
    Picture,
    Turns,
}

/// A computation and its data.
#[derive(Clone, Copy, Debug, PartialEq, Eq)]
pub enum Asked<'a> {
    /// How many primes are below a number.
    Primes(u32),
    /// In how many ways so many queens stand on a board.
    Queens(u32),
    /// How long the longest common subsequence of the bytes of two files is.
    Subsequence(&'a str, &'a str),
    /// The numbers of a file, in order.
    Sort(&'a str),
    /// A picture of the Mandelbrot set, of this width and height.
    Picture(u32, u32),
    /// The sum of the words that so many turns make of the numbers below a number: first that number, then how many turns.
    Turns(u32, u32),
}

// The greatest number below which primes are counted.
const PRIME_LIMIT: u64 = 10_000_000;

// The greatest number of queens.
const QUEEN_LIMIT: u64 = 12;

// The greatest width and height of a picture.
const SIDE_LIMIT: u64 = 4096;

// The greatest number of words that turns are made of, and of turns of each.
const TURN_LIMIT: u64 = 65_536;

// The greatest number of streams, and how many there are if the words do not say.
const STREAM_LIMIT: u64 = 64;

const DEFAULT_STREAMS: u32 = 4;

// The computation of that name.
fn kernel_of(word: &str) -> Option<Kernel>
    ensures { MatchOption result (IsNoKernel word.now) (λ kernel. kernel_word kernel ≡ word.now) }
{
    match word {
        "primes" => Some(Kernel::Primes),
        "queens" => Some(Kernel::Queens),
        "lcs" => Some(Kernel::Subsequence),
        "mergesort" => Some(Kernel::Sort),
        "mandelbrot" => Some(Kernel::Picture),
        "turns" => Some(Kernel::Turns),
        _ => None,
    }
}

// The number that the first word is, if it is from 1 to `most`, and the words after it.
fn one_number(words: &[String], most: u64) -> Option<(u32, &[String])>
    requires { most < 4294967296 }
    ensures { MatchOption result
        ((n : ℕ) (more : List Text) → SaysOne most (map string_bytes words.now) n more → ⊥)
        (λ found. SaysOne most (map string_bytes words.now) found.0 (map string_bytes found.1.now)) }
{
    let (digits, more) = words.split_first()?;
    let n = number(digits.as_str(), most)?;
    Some((n as u32, more))
}

// The same for two numbers.
fn two_numbers(words: &[String], most: u64) -> Option<(u32, u32, &[String])>
    requires { most < 4294967296 }
    ensures { MatchOption result
        ((n m : ℕ) (more : List Text) → SaysTwo most (map string_bytes words.now) n m more → ⊥)
        (λ found. SaysTwo most (map string_bytes words.now) found.0 found.1 (map string_bytes found.2.now)) }
{
    let (first, more) = words.split_first()?;
    let (second, more) = more.split_first()?;
    let n = number(first.as_str(), most)?;
    let m = number(second.as_str(), most)?;
    Some((n as u32, m as u32, more))
}

// The names of two files that the first two words are, unless both are the standard input, and the words after them.
fn two_files(words: &[String]) -> Option<(&str, &str, &[String])>
    ensures { MatchOption result
        ((first second : Text) (more : List Text) → SaysFiles (map string_bytes words.now) first second more → ⊥)
        (λ found. SaysFiles (map string_bytes words.now) found.0.now found.1.now (map string_bytes found.2.now)) }
{
    let (first, more) = words.split_first()?;
    let (second, more) = more.split_first()?;
    if first.as_str() == "-" && second.as_str() == "-" {
        return None;
    }
    Some((first.as_str(), second.as_str(), more))
}

// What the words after the name of a computation begin with, and the words after that.
fn begin<'a>(kernel: Kernel, words: &'a [String]) -> Option<(Asked<'a>, &'a [String])>
    ensures { MatchOption result
        (Lacks kernel (map string_bytes words.now))
        (λ found. (kernel_of_question (question_of found.0) ≡ kernel) × Begins (map string_bytes words.now) (question_of found.0) (map string_bytes found.1.now)) }
{
    match kernel {
        Kernel::Primes => {
            let (n, words) = one_number(words, PRIME_LIMIT)?;
            Some((Asked::Primes(n), words))
        }
        Kernel::Queens => {
            let (n, words) = one_number(words, QUEEN_LIMIT)?;
            Some((Asked::Queens(n), words))
        }
        Kernel::Subsequence => {
            let (first, second, words) = two_files(words)?;
            Some((Asked::Subsequence(first, second), words))
        }
        Kernel::Sort => match words {
            [file, words @ ..] => Some((Asked::Sort(file.as_str()), words)),
            _ => None,
        },
        Kernel::Picture => {
            let (width, height, words) = two_numbers(words, SIDE_LIMIT)?;
            Some((Asked::Picture(width, height), words))
        }
        Kernel::Turns => {
            let (nodes, turns, words) = two_numbers(words, TURN_LIMIT)?;
            Some((Asked::Turns(nodes, turns), words))
        }
    }
}

// How many streams these words ask for.
fn streams_of(words: &[String]) -> Option<u32>
    ensures { MatchOption result
        ((streams : ℕ) → AsksStreams (map string_bytes words.now) streams → ⊥)
        (λ streams. AsksStreams (map string_bytes words.now) streams) }
{
    let Some((option, words)) = words.split_first() else {
        return Some(DEFAULT_STREAMS);
    };
    let (digits, words) = words.split_first()?;
    if option.as_str() != "--streams" || !words.is_empty() {
        return None;
    }
    let streams = number(digits.as_str(), STREAM_LIMIT)?;
    Some(streams as u32)
}

/// What the words ask for, and how many streams.
pub fn read_words(words: &[String]) -> Option<(Asked, u32)>
    ensures asks { MatchOption result
        (AsksNothing (map string_bytes words.now))
        (λ asked. Asks (map string_bytes words.now) (question_of asked.0) asked.1) }
{
    let (name, words) = words.split_first()?;
    let kernel = kernel_of(name.as_str())?;
    let (asked, words) = begin(kernel, words)?;
    let streams = streams_of(words)?;
    Some((asked, streams))
}
