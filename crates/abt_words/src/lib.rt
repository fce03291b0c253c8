//! The words of the command line, read by one `clap` command for each command of the program.
//!
//! `clap` says which word is a file, an option or an option's value, and refuses what is none of these. Its texts, those
//! of its errors among them, are never printed. Numbers are read here, since its parsers of numbers take a plus sign, and
//! so is the test that a file's name is not empty.
#![tactic(auto)]

mod alone;
mod asked;
mod check;
mod command;
mod commands;
mod explore;
mod fault;
mod flow;
mod itself;
mod lives;
mod numbers;
mod options;
mod run;
mod self_run;
mod steps;
mod versions;

pub use command::words;
pub use commands::{CheckWords, Command, ExploreWords, OutputWords, RunWords, Schedule, Shows};
pub use explore::MOST_STATES;
pub use fault::WordFault;
pub use itself::{Topic, about};
pub use lives::{LivesWords, lives_words};
pub use numbers::number;
pub use steps::{DEFAULT_STEPS, allowed_steps, default_steps};
pub use versions::{Program, version};
