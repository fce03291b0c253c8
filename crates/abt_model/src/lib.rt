//! All streams and objects of a workload over plain lists: which events may come, and what each leads to.
#![tactic(auto)]

mod choices;
mod copies;
mod ends;
mod hints;
mod model;
mod orders;
mod pictures;
mod starts;
mod turns;
mod visits;

pub use choices::Choices;
pub use copies::models_are_told;
pub use model::Model;
pub use orders::shapes;
pub use pictures::runs_say_own_words;
