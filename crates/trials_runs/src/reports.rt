//! The texts of journals, and reports on runs, beside those that are wanted.

ghost use Rattle.std.specs.Prelude.{All};
ghost use Rattle.abt_report.specs.Pictures.{SaysWordsOf};

use abt_machine::{Journal, Outcome, Want, Workload};
use abt_report::{Picture, journal_text, report};
use std::alloc::Global;

/// Whether this is the text of the journal.
pub(crate) fn is_text_of(alloc: Global, journal: &Journal, wanted: &str) -> bool {
    match journal_text(alloc, journal) {
        Ok(text) => text.as_slice() == wanted.as_bytes(),
        Err(Want) => false,
    }
}

/// Whether this is the report on a run with that number of steps.
pub(crate) fn is_reported(
    alloc: Global,
    w: &Workload,
    steps: u64,
    picture: &Picture,
    outcome: Outcome,
    wanted: &str,
) -> bool
    requires words { All (SaysWordsOf w.now) picture.now }
{
    match report(alloc, w, picture, outcome, steps) {
        Ok(text) => text.as_slice() == wanted.as_bytes(),
        Err(Want) => false,
    }
}
