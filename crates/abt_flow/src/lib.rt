//! Confluent workloads, whose outputs do not depend on the schedule, and these outputs by a recursion over units.
#![tactic(auto)]

mod beginning;
mod confluence;
mod finding;
mod laws;
mod memory;
mod naming;
mod reaching;
mod role;
mod table;

pub use confluence::{Violation, first_violation};
pub use finding::{Flow, FlowRow, find_flow};
pub use laws::{flow_is_one, flow_is_put_out, orderly_end, orderly_finish, outputs_are_flow};
