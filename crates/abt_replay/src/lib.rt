//! Units, objects and streams over plain lists: what a call of an object answers, and what an event makes of a stream.
#![tactic(auto)]

mod acts;
mod barriers;
mod counts;
mod desks;
mod eventuals;
mod frames;
mod hearing;
mod keys;
mod lanes;
mod monitors;
mod objects;
mod pools;
mod rounds;
mod rwlocks;
mod tags;
mod unit;

pub use acts::{Act, Answer};
pub use barriers::Barrier;
pub use desks::{Desk, Phase};
pub use eventuals::{Eventual, Future};
pub use frames::Frame;
pub use keys::{Keyed, lanes_are_told, objects_are_told, write_list};
pub use lanes::Lane;
pub use monitors::{Monitor, Waiters};
pub use objects::{Kept, Objects, Slot};
pub use pools::Pool;
pub use rounds::{Next, pool_at};
pub use rwlocks::RwLock;
pub use unit::Unit;
