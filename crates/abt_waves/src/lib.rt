//! All streams of a workload, each on a thread of its own.
#![tactic(auto)]

mod alone;
mod fleet;
mod listing;
mod locks;
mod puts;
mod run;
mod tally;
mod threads;
mod voyages;
mod watch;
mod wave;

pub use locks::{Locked, Locking, Orders, StoredOrders};
pub use puts::{Puts, noted_turn};
pub use run::{run_over, run_streams};
pub use watch::Starts;
pub use wave::run_wave;
