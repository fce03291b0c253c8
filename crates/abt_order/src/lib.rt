//! Rounds: in which order a scheduler visits its pools, and the orders that users store.
#![tactic(auto)]

mod places;
mod rounds;
mod shapes;
mod stored;

pub use rounds::Scheduler;
pub use shapes::{mirror, rotate};
pub use stored::{OrderFunction, StoredOrder};
