//! What programs share around their calls: how a call ends, the message about it, its files and output, and what the process passes to it.
#![tactic(auto)]

mod fetching;
mod more;
mod outputs;
mod process;
mod status;
mod writing;

pub use fetching::{bytes_of, fetch_journal};
pub use more::{More, more_of};
pub use outputs::{Output, fetch_output};
pub use process::run;
pub use status::{Stop, Wrong, number_of_outcome};
pub use writing::{conclude_run, stop_by, stop_without_run, write_out};
