//! A caller of graphs, whose answer is known in advance: squares of numbers.
#![tactic(auto)]

mod squares;

pub use squares::{Squares, squares_on_threads};
