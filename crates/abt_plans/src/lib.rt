//! What an operation makes its stream do, and what is due for the unit in its hand, by the unit's number, position and
//! accumulator. It serves units of any type.
#![tactic(auto)]

mod acts;
mod dues;
mod plans;
mod pools;

pub use acts::{Asking, Giving};
pub use dues::{HandDue, Mark, hand_due};
pub use plans::{Plan, planned, step_site};
pub use pools::side;
