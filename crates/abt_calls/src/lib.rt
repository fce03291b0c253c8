//! Laws of single calls on objects, over the machine's definitions: each function's contract is a law, and its body is empty.
#![tactic(auto)]

mod allowed;
mod answers;
mod asking;
mod desks;
mod example;
mod holders;
mod keeps;
mod starts;
mod streams;
mod units;

pub use allowed::{allowed_is_answered, allowed_stays, one_answer};
pub use answers::answers_suit;
pub use asking::{ends_may_call, looks_may_call, plans_may_call, puts_may_call, takes_may_call};
pub use desks::{entries_come_back, hands_are_out, steps_bring_back};
pub use example::{unsuited_are_lost, waits_are_lost};
pub use holders::{all_units_once, rows_are_the_states, units_are_held_once, units_have_rows};
pub use keeps::{effects_fit, objects_keep_what_fits, own_steps_fit, start_fits};
pub use starts::{conditions_are_counted, conditions_are_numbered, objects_start, parts_start};
pub use streams::{events_fit, events_hold_one, events_keep_units, streams_hold_one};
pub use units::{calls_keep_units, effects_keep_units, own_steps_keep_units, steps_keep_units};
