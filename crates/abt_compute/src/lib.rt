//! The top call of a program that computes on threads: how many primes are below a number, in how many ways queens stand on a board, how
//! long the longest common subsequence of two files is, the numbers of a file in order, a picture of the Mandelbrot set, and the sum of
//! turned words.
#![tactic(auto)]

mod answers;
mod numbers;
mod program;
mod texts;
mod words;

pub use program::{NAME, abtwork};
pub use words::{Asked, Kernel, read_words};
