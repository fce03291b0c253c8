//! Verdicts on journals.

/// Whether a journal is a run of its workload with stamps.
#[derive(Clone, Copy, Debug, PartialEq, Eq)]
pub enum Verdict {
    /// It is.
    Run,
    /// It is not: `at` is the greatest number of its first events that are such a run.
    Bad { at: u64 },
}
