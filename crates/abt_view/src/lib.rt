//! Views of a journal: the stretches of time for which units are in a stream's hand, the frames of stacked schedulers, and the ways of
//! units through pools, drawn as an svg or listed as a trace.
#![tactic(auto)]

mod about;
mod args;
mod arrows;
mod bands;
mod frames;
mod kinds;
mod labels;
mod named;
mod notes;
mod pictures;
mod program;
mod shapes;
mod stretches;
mod style;
mod texts;
mod traces;
mod views;

pub use about::{HELP, Topic, asked_topic};
pub use arrows::{Arrow, Spot, all_arrows};
pub use frames::{Frame, all_frames};
pub use notes::{Note, take_notes};
pub use pictures::{is_drawn, svg};
pub use program::{NAME, abtview};
pub use stretches::{Jump, Stretch, all_stretches};
pub use traces::trace;
pub use views::{Conclusion, View, asked, conclude, view_text};
