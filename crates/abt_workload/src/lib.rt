//! Workload texts: read to a workload, or refused at a line; workloads, written as their canonical text.
#![tactic(auto)]

mod declare;
mod draft;
mod forms;
mod hints;
mod judge;
mod laws;
mod numbers;
mod reading;
mod text;
mod units;
mod writing;

pub use hints::{hint, line_hint};
pub use laws::{each_form_is_said, each_text_has_one_answer, valid_parts_have_a_text};
pub use reading::{NotRead, read};
pub use text::{first_line, format_of, number};
pub use writing::{push_operation, write};
