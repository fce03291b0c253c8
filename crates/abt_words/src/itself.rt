//! What a program is asked about itself.

ghost use Rattle.std.specs.Prelude.{MatchOption, map, string_bytes};
ghost use Rattle.abt_words.specs.declared.itself.Topic.{Topic};
ghost use Rattle.abt_words.specs.About.{AsksAbout};

/// What a program may be asked about itself.
#[derive(Clone, Copy, Debug, PartialEq, Eq)]
pub enum Topic {
    /// What its words are.
    Help,
    /// Which version it is.
    Version,
}

/// What the words ask about the program, if they are `--help` or `--version` alone.
pub fn about(words: &[String]) -> Option<Topic>
    ensures { MatchOption result
        ((a : Topic) → AsksAbout (map string_bytes words.now) a → ⊥)
        (λ a. AsksAbout (map string_bytes words.now) a) }
{
    let [word] = words else {
        return None;
    };
    match word.as_str() {
        "--help" => Some(Topic::Help),
        "--version" => Some(Topic::Version),
        _ => None,
    }
}
