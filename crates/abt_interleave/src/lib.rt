//! Logs and histories, of any machine: each function's contract is a law, and its body is empty.
#![tactic(auto)]

mod bounds;
mod carrying;
mod entries;
mod example;
mod machine;
mod merges;
mod merging;
mod passes;
mod stamps;
mod ticking;
mod turns;
mod waves;
mod weaving;

pub use bounds::{never_worn, stamped_stays_low, stamps_are_few};
pub use carrying::{none_meets_worn, times_go_on, waves_go_on};
pub use entries::{Entry, entries_pass};
pub use example::{counters_merge, locks_for_each, one_lock_for_both};
pub use machine::AnyMachine;
pub use merges::{
    merges_count, merges_exist, merges_have_members, merging_goes_on, sorted_as_is_merge,
    sorted_is_merge,
};
pub use merging::{events_lift, history_splits, logs_merge};
pub use passes::{AnyPass, turns_are_gone, turns_go_on};
pub use stamps::{stamps_are_lamports, stamps_close};
pub use ticking::{next_stamps, no_gap_grows, timed_grows, timed_leaves_no_gap};
pub use turns::{course_grows, gathered_grows, legal_grows, matched_grows};
pub use waves::{courses_join, gathered_join, histories_join, matched_join};
pub use weaving::{idle_locks_leave, streams_go, waves_weave};
