//! The texts of runs: journals, both ways, and reports.
#![tactic(auto)]

mod backward;
mod cuts;
mod glances;
mod guesses;
mod journals;
mod outputs;
mod pictures;
mod reading;
mod reports;
mod steps;
mod tallies;
mod text_fault;
mod words;

pub use journals::journal_text;
pub use outputs::outputs_text;
pub use pictures::{Picture, Row};
pub use reading::{JOURNAL_LIMIT, read_journal};
pub use reports::{append_report, report, short_report};
pub use steps::count_steps;
pub use text_fault::TextFault;
pub use words::{name_of_cause, name_of_code};
