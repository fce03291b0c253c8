//! Laws of how runs end: each function's contract is a law, and its body is empty.
#![tactic(auto)]

mod example;
mod measured;
mod one_stream;
mod orders;
mod rotations;
mod values;

pub use example::{late_unit_is_left, pair_rotates};
pub use measured::{
    frames_are_seen, seen_rotations_fall, turns_left_are_seen, weight_is_seen, work_is_seen,
};
pub use one_stream::{
    empty_rounds_end, stamps_count, stops_are_last, stops_are_one, stops_grow, stops_have_outcomes,
};
pub use orders::orders_are_stored;
pub use rotations::{
    emptied_grows, missed_rotations_end, misses_end, numbers_are_bounded, others_raise_none,
    rotations_fall, rotations_lower, rounds_begin_fresh, steps_begin_fresh, steps_fall, turns_fall,
};
pub use values::{
    ends_are_seen, outcome_is_seen, outcomes_are_one, outcomes_come, parts_decide, quiet_is_seen,
    spent_is_seen,
};
