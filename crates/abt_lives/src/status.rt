//! What calls come to.

ghost use Rattle.std.specs.Prelude.{◌≡◌};
ghost use Rattle.abt_lives.specs.Status.{about_text, number_of_conclusion};

use abt_machine::Outcome;
use abt_shell::number_of_outcome;
use abt_words::{Program, Topic, version};

/// The name of the program.
pub const NAME: &[u8] = b"abtwaves";

/// How the program is called for a run.
pub(crate) const USAGE: &[u8] = b"abtwaves WORKLOAD LIVES [--steps V] [--journal]\n";

// The program's words.
const HELP: &[u8] =
    b"abtwaves WORKLOAD LIVES [--steps V] [--journal]\nabtwaves --help\nabtwaves --version\n";

/// What a call that was carried out came to.
#[derive(Clone, Copy, Debug, PartialEq, Eq)]
pub enum Conclusion {
    /// A run ended this way.
    Ended(Outcome),
    /// The program was asked about itself.
    Explained(Topic),
}

impl Conclusion {
    /// The exit status, if all that the call prints was written.
    pub fn number(self) -> u8
        ensures { result ≡ number_of_conclusion self }
    {
        match self {
            Conclusion::Ended(outcome) => number_of_outcome(outcome),
            Conclusion::Explained(_) => 0,
        }
    }
}

/// What the program prints of itself.
pub(crate) fn about_text(asked: Topic) -> &'static [u8]
    ensures { result.now ≡ about_text asked }
{
    match asked {
        Topic::Help => HELP,
        Topic::Version => version(Program::Waves),
    }
}
