//! The functions that the programs store for units of workload texts.
#![tactic(auto)]

mod functions;
mod keys;
mod primes;
mod series;
#[cfg(test)]
mod tests;

pub use functions::TextFunctions;
pub use primes::is_prime;
