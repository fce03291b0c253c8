//! The top call: from words and files to the written output of a run.
#![tactic(auto)]

mod checking;
mod differing;
mod explaining;
mod exploring;
mod fetching;
mod following;
mod keeping;
mod prepared;
mod program;
mod reporting;
mod running;
mod status;
mod usage;

pub use fetching::{fetch, fetch_run};
pub use keeping::Keep;
pub use program::{Answer, abtrun};
pub use status::{Conclusion, NAME};
