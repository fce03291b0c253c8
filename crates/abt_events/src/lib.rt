//! Laws of single events: each is a step of its stream with at most one call; how rounds end; and what a look forgets. Each function's
//! contract is a law, and its body is empty.
#![tactic(auto)]

mod requests;
mod rounds;
mod steps;

pub use requests::looks_forget;
pub use rounds::{misses_end_rounds, takes_end_rounds};
pub use steps::{events_are_steps, named_sites_are_called, others_call_nothing};
