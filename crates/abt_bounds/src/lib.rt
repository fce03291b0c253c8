//! Laws that bound the machine from above: each function's contract is a law, and its body is empty.
#![tactic(auto)]

mod budget;
mod choice;
mod clock;
mod reach;
mod texts;

pub use budget::{lives_are_few, steps_are_few, steps_are_of_lives, steps_bound_budgets};
pub use choice::{
    free_orders_are_free, nothing_wider, one_at_each_pool, one_next, one_run_of_turns,
    orders_are_one, some_after, some_next, some_run_of_turns,
};
pub use clock::{stamps_fit_length, stamps_fit_places};
pub use reach::{
    births_need_access, denied_are_refused, events_keep_access, homes_need_access,
    requests_need_access, runs_keep_access, start_has_access, takers_have_access,
};
pub use texts::{
    journal_texts_differ, long_numbers_coincide, run_texts_differ, runs_name_declared,
    tallies_add_up,
};
