//! Numbers that a rule leads to, a term at a time.

ghost use Rattle.std.specs.Prelude.{◌≡◌, ◌≤◌, ◌%◌, ◌^◌};
ghost use Rattle.abt_functions.specs.Series.{collatz, collatz_next, fibonacci, square_root, terms_to_one};

/// The number of terms of Collatz's sequence from this number down to 1, counted to 1,000 at most, and 0 for 0.
pub(crate) fn collatz(n: u64) -> u64
    ensures { result ≡ collatz n }
{
    if n == 0 { 0 } else { terms_to_one(1_000, n) }
}

fn collatz_next(n: u64) -> u64
    ensures { result ≡ collatz_next n }
{
    if n % 2 == 0 {
        n / 2
    } else {
        n.wrapping_mul(3).wrapping_add(1)
    }
}

// How many terms lead to 1, at most this many.
fn terms_to_one(limit: u64, n: u64) -> u64
    ensures terms { result ≡ terms_to_one limit n }
    ensures few { result ≤ limit }
{
    if limit == 0 {
        0
    } else if n == 1 {
        1
    } else {
        1 + terms_to_one(limit - 1, collatz_next(n))
    }
}

/// The Fibonacci number of this number, modulo 2^64.
pub(crate) fn fibonacci(n: u64) -> u64
    ensures { result ≡ fibonacci n % 2 ^ 64 }
{
    let mut term: u64 = 0;
    let mut next: u64 = 1;
    for _ in 0..n {
        let after = term.wrapping_add(next);
        term = next;
        next = after;
    }
    term
}

/// The greatest number whose square is at most this number.
pub(crate) fn square_root(n: u64) -> u64
    ensures { result ≡ square_root n }
{
    n.isqrt()
}
