//! Callers of a booth, proved from its public contracts: threads that count, and a letter that goes from one
//! seat to another.
#![tactic(auto)]

mod counter;
mod letters;
mod turns;

pub use counter::{Counter, add, add_on_threads, count};
pub use letters::{Ask, Letter, Reply, Tray, deliver, pass_on};
pub use turns::put_and_take;
