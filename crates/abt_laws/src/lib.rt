//! Laws of the written machine: each function's contract is a law, and its body is empty.
#![tactic(auto)]

mod footprint;
mod lives;
mod measure;
mod mutexes;
mod outcome;
mod rwlocks;
mod sound;

pub use footprint::{events_are_local, events_commute};
pub use lives::{ends_are_the_journals, life_is_the_journals, runs_live};
pub use measure::events_fall;
pub use mutexes::owners_alone;
pub use outcome::{ended_is_quiet, one_after, quiet_runs_miss, quiet_stays, spent_is_not_quiet};
pub use rwlocks::reads_stay;
pub use sound::{events_keep_sound, runs_are_sound, start_is_sound};
