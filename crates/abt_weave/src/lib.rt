//! Booths and merging: what booths promise of their calls is what merging supposes of logs and histories. Each function's
//! contract is a law, and its body is empty.
#![tactic(auto)]

mod calls;
mod closing;
mod seats;

pub use calls::{answers_show, worn_shows};
pub use closing::{all_are_left, one_is_left};
pub use seats::seats_know;
