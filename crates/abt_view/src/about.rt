//! What the program says of itself.

ghost use Rattle.std.specs.Prelude.{◌≡◌, ◌∷◌, [], MatchOption, map, string_bytes};
ghost use Rattle.abt_view.specs.Views.{AsksNoTopic, IsNoTopic, topic_text, topic_word};

use abt_words::{Program, version};

/// How the program is called.
pub const HELP: &[u8] = b"abtview draws the journal of a run, or lists it as a trace.

usage:
  abtview svg JOURNAL [WORKLOAD]    a picture, for a browser
  abtview trace JOURNAL [WORKLOAD]  JSON for a trace viewer
  abtview --help
  abtview --version

JOURNAL has only the lines of events, as of abtrun run FILE --journal | grep '^[0-9]'.
With WORKLOAD each step has its operation. One of the files may be -, the standard input.

exit statuses: 0 written, 2 bad command line, 3 a file is refused, 5 cannot read,
6 cannot write, 7 out of memory, 8 the journal is too large to be drawn
";

/// What the program says of itself: how it is called, or its version.
#[derive(Clone, Copy, Debug, PartialEq, Eq)]
pub enum Topic {
    Help,
    Version,
}

impl Topic {
    /// What it says.
    pub fn text(self) -> &'static [u8]
        ensures { result.now ≡ topic_text self }
    {
        match self {
            Topic::Help => HELP,
            Topic::Version => version(Program::View),
        }
    }
}

// The topic of that word.
fn topic_of(word: &str) -> Option<Topic>
    ensures { MatchOption result (IsNoTopic word.now) (λ t. topic_word t ≡ word.now) }
{
    match word {
        "--help" => Some(Topic::Help),
        "--version" => Some(Topic::Version),
        _ => None,
    }
}

/// What the words ask the program to say of itself, if that is what they ask.
pub fn asked_topic(words: &[String]) -> Option<Topic>
    ensures { MatchOption result
        (AsksNoTopic (map string_bytes words.now))
        (λ topic. map string_bytes words.now ≡ topic_word topic ∷ []) }
{
    match words {
        [word] => Some(topic_of(word.as_str())?),
        _ => None,
    }
}
