//! The commands of the program.

use abt_machine::Text;

/// How the streams of a run take turns.
#[derive(Clone, Copy, Debug, PartialEq, Eq)]
pub enum Schedule {
    /// Each runs on a thread of its own, as the host lets them.
    Threads,
    /// On one thread, in rotation.
    InTurn,
    /// On one thread, in rotations of which each has an order of its own, drawn by a generator with this seed.
    Seed(u64),
}

/// What the words after `run` ask for: a file with a workload, at most how many steps each stream makes, if a word says that, whether
/// the journal is printed, whether it is said what units wait for, and how the streams take turns.
#[derive(Drop)]
pub struct RunWords {
    pub file: Text,
    pub steps: Option<u64>,
    pub journal: bool,
    pub why: bool,
    pub schedule: Schedule,
}

/// What is shown of a journal that is judged.
#[derive(Clone, Copy, Debug, PartialEq, Eq)]
pub enum Shows {
    /// Whether it is a run.
    Verdict,
    /// The same, and how the run ended.
    End,
    /// The report of the run, and what units wait for, if that is asked for.
    Report { why: bool },
}

/// What the words after `check` ask for, or those after `run` of which one names a schedule: a file with a workload, one with a journal,
/// and what is shown of the journal.
#[derive(Drop)]
pub struct CheckWords {
    pub workload: Text,
    pub journal: Text,
    pub shows: Shows,
}

/// What the words after `check` ask for if `--report` is one of them: a file with a workload, one with the output of a run, and whether that
/// says what units wait for.
#[derive(Drop)]
pub struct OutputWords {
    pub workload: Text,
    pub output: Text,
    pub why: bool,
}

/// What the words after `explore` ask for: a file with a workload, at most how many states are searched, if a word says that, and the
/// number of an end, if only that one is printed, and whether a journal that leads to it is.
#[derive(Drop)]
pub struct ExploreWords {
    pub file: Text,
    pub states: Option<u64>,
    pub end: Option<u64>,
    pub journal: bool,
}

/// What the words after the program's name ask for.
#[derive(Drop)]
pub enum Command {
    /// Runs the workload in a file.
    Run(RunWords),
    /// Runs the workload that is generated for this many units.
    SelfRun { units: u32 },
    /// Judges the journal in a file as a run of the workload in another.
    Check(CheckWords),
    /// Judges what is in a file as the output of a run of the workload in another: its journal and its report.
    CheckOutput(OutputWords),
    /// What each unit of the workload in a file prints, whatever the schedule.
    Flow { file: Text },
    /// The ways in which the workload in a file can end.
    Explore(ExploreWords),
    /// What the words of the program are.
    Help,
    /// Which version of the program this is.
    Version,
}
