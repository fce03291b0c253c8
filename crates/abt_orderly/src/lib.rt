//! Whether each run of a confluent workload finishes.
#![tactic(auto)]

mod deciding;
mod listing;
mod needs;
mod passing;
mod placing;
mod scanning;

pub use deciding::is_orderly;
