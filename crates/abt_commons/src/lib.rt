//! The objects that streams share.
#![tactic(auto)]

mod acts;
mod answering;
mod commons;
mod gathering;
mod groups;
mod habits;
mod hall;
mod locking;
mod objects;
mod one;
mod owners;
mod place;
mod plain;
mod readers;
mod shared;
mod sites;
mod split;
mod taking;
mod turn;
mod unlocking;
mod waiting;

pub use acts::{Act, Answer, Ask, Reply};
pub use commons::Commons;
pub use groups::Group;
pub use hall::{Hall, HallPass};
pub use objects::Objects;
pub use one::One;
pub use plain::{Plain, PlainPass};
pub use shared::Shared;
pub use split::{Split, SplitPass};
