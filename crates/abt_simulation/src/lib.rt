//! Laws that tie the machine to what its streams and objects hold: each function's contract is a law, and its body is empty.
#![tactic(auto)]

mod growing;
mod journals;
mod meeting;
mod merging;
mod simulation;

pub use growing::{histories_split, turns_extend, waves_join};
pub use journals::{journals_count, journals_exist, nothing_is_worn};
pub use meeting::meeting_merges;
pub use merging::{is_machine, logs_merge, merged_is_lamport, merged_is_stamped};
pub use simulation::steps_are_events;
