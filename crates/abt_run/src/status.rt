//! What commands come to.

ghost use Rattle.std.specs.Prelude.{◌≡◌};
ghost use Rattle.abt_run.specs.Status.{number_of_conclusion};

use abt_check::Verdict;
use abt_machine::Outcome;
use abt_shell::number_of_outcome;

/// The name of the program.
pub const NAME: &[u8] = b"abtrun";

/// What a command that was carried out came to.
#[derive(Clone, Copy, Debug, PartialEq, Eq)]
pub enum Conclusion {
    /// A run ended this way.
    Ended(Outcome),
    /// A journal was judged.
    Judged(Verdict),
    /// A journal is a run, and it was asked how that ended: so, or, if none is given, it could go on.
    Ends(Option<Outcome>),
    /// A journal is a run, which was followed to its end, if one is given, and else to where it could go on.
    Followed(Option<Outcome>),
    /// A journal that was followed is no run: `at` is the greatest number of its first events that are one.
    Strays { at: u64 },
    /// An output is that of a run, which ended this way.
    Belongs(Outcome),
    /// An output is not that of a run.
    Differs,
    /// A workload is confluent, and its flow was found.
    Flows,
    /// A workload is not confluent.
    NotConfluent,
    /// A workload is confluent and has no flow.
    Undefined,
    /// Each end of a workload, or the one that was asked for, is finished.
    Finishes,
    /// Some end of a workload, or the one that was asked for, is stuck.
    Sticks,
    /// No run of a workload ends.
    GoesOn,
    /// A workload was not searched whole, or has no end of the number that was asked for.
    Unexplored,
    /// The program's words were asked for.
    Helps,
    /// The program's version was asked for.
    NamesVersion,
}

impl Conclusion {
    /// The exit status, if all that the command prints was written.
    pub fn number(self) -> u8
        ensures { result ≡ number_of_conclusion self }
    {
        match self {
            Conclusion::Ended(outcome) => number_of_outcome(outcome),
            Conclusion::Judged(Verdict::Run) | Conclusion::Flows => 0,
            Conclusion::Judged(Verdict::Bad { at: _ }) => 1,
            Conclusion::Ends(Some(_)) => 0,
            Conclusion::Ends(None) => 1,
            Conclusion::Followed(Some(outcome)) => number_of_outcome(outcome),
            Conclusion::Followed(None) => 8,
            Conclusion::Strays { at: _ } => 3,
            Conclusion::Belongs(_) => 0,
            Conclusion::Differs => 1,
            Conclusion::NotConfluent | Conclusion::Undefined => 1,
            Conclusion::Finishes => 0,
            Conclusion::Sticks => 1,
            Conclusion::GoesOn => 4,
            Conclusion::Unexplored => 8,
            Conclusion::Helps | Conclusion::NamesVersion => 0,
        }
    }
}
