//! A lock round one object, with a seat for each caller: all calls together are one legal history, and each
//! seat knows the part of it that it has seen.
#![tactic(auto)]

mod booth;
mod calls;
mod close;
mod holder;
mod holding;
mod made;
mod make;
mod object;
mod plays;
mod rule;

pub use booth::{Booth, Called, Closed, Gathered, Seat};
pub use calls::LAST_STAMP;
pub use holder::Holder;
pub use object::Object;
