//! All interleavings of a workload, searched breadth first.
#![tactic(auto)]

mod exploration;
mod exploring;
mod laws;
mod named;
mod orders;
mod paths;
mod same;
mod search;
mod seen;
mod texts;

pub use exploration::{End, Exploration};
pub use exploring::explore;
pub use laws::{
    counted_are_stamped, done_is_reached, ends_are_met, ends_have_no_rounds, reached_are_after,
    runs_are_seen, start_is_reached,
};
pub use orders::first_changing;
pub use texts::{explored_text, shown_text};
