//! The functions, by number.

ghost use Rattle.std.specs.Prelude.{◌≡◌};
ghost use Rattle.abt_machine.specs.Limits.{function_limit};
ghost use Rattle.abt_functions.specs.Functions.{text_function, text_functions};

use crate::keys::{greatest, sum_of};
use crate::primes::{greatest_prime_factor, primes_below};
use crate::series::{collatz, fibonacci, square_root};
use abt_machine::{StreamNo, UnitNo};
use abt_work::Work;

// Where a function's time grows with its number, the number is taken modulo this.
const RANGE_LIMIT: u64 = 1_048_576;

/// The functions that a workload text may call, as many as a text can name:
///
/// | number | returns |
/// |---|---|
/// | 0 | the number of terms of Collatz's sequence from the accumulator down to 1, counted to 1,000 at most; 0 for 0 |
/// | 1 | the number of primes below the accumulator modulo 1,048,576 |
/// | 2 | the square root of the accumulator, rounded down |
/// | 3 | the greatest prime factor of the accumulator modulo 1,048,576; 0 for 0 and 1 |
/// | 4 | the Fibonacci number of the accumulator modulo 1,048,576, modulo 2^64 |
/// | 5 | how many bits of the accumulator are 1 |
/// | 6 | the sum of the keys, modulo 2^64 |
/// | 7 | the greatest key; 0 without keys |
#[derive(Clone, Copy, Debug, PartialEq, Eq)]
pub struct TextFunctions;

impl Work for TextFunctions {
    ghost count = { λ _. function_limit };

    ghost returns = { λ _. text_functions };

    fn before_step(&self, _stream: StreamNo, _unit: UnitNo, _at: u32) {}

    fn watches(&self) -> bool {
        false
    }

    fn call(&self, function: u32, _unit: UnitNo, acc: u64, keys: &[u64]) -> u64 {
        text_function(function, acc, keys)
    }

    fn accepts(&self, function: u32, _unit: UnitNo, acc: u64, keys: &[u64], value: u64) -> bool {
        text_function(function, acc, keys) == value
    }
}

fn text_function(function: u32, acc: u64, keys: &[u64]) -> u64
    ensures { result ≡ text_function function acc keys.now }
{
    match function {
        0 => collatz(acc),
        1 => primes_below(acc % RANGE_LIMIT),
        2 => square_root(acc),
        3 => greatest_prime_factor(acc % RANGE_LIMIT),
        4 => fibonacci(acc % RANGE_LIMIT),
        5 => u64::from(acc.count_ones()),
        6 => sum_of(keys),
        7 => greatest(keys),
        _ => 0,
    }
}
