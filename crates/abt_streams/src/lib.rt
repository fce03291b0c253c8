//! Streams that units start and end, through two eventuals each.
#![tactic(auto)]

mod journey;
mod life;
mod living;
mod logs;
mod outcome;
mod reading;
mod run;
mod wave;

pub use life::{Life, Lives};
pub use reading::read_lives;
pub use run::{LivesRun, run_lives};
pub use wave::{Numbers, Wave, Waves};
