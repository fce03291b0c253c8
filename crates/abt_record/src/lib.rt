//! Records of events, which contracts see as lists, and which take memory only where their events are kept.
#![tactic(auto)]

mod past;
mod record;

pub use record::Record;
