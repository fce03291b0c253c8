//! The top call of runs on lives: from words and files to the written output of a run and its waves.
#![tactic(auto)]

mod program;
mod status;
mod waves;

pub use program::abtwaves;
pub use status::{Conclusion, NAME};
