//! Computations on threads, each by a graph of calls, with answers that are the textbook's.
#![tactic(auto)]

mod mandelbrot;
mod pictures;
mod primes;
mod queens;
mod sorting;
mod subsequences;
mod tiles;
mod turns;

pub use mandelbrot::{escape_times, mandelbrot_rows};
pub use pictures::picture;
pub use primes::count_primes;
pub use queens::count_queens;
pub use sorting::merge_sort;
pub use subsequences::longest_common_subsequence;
pub use turns::sum_turns;
