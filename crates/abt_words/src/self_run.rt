//! The words after `self`.

ghost use Rattle.std.specs.Prelude.{◌≡◌, ℕ, IfOk, MatchOption, map, string_bytes, codes};
ghost use Rattle.abt_words.specs.declared.commands.Command.{Command};
ghost use Rattle.abt_words.specs.Asked.{rest_found};
ghost use Rattle.abt_words.specs.Commands.{SaysBy, SaysSelf};

use crate::WordFault;
use crate::asked::one_word;
use crate::commands::Command;
use crate::numbers::number;
use crate::options::read;
use clap::ArgMatches;
use std::alloc::Global;

// The greatest number of units that the program generates.
const MOST_UNITS: u64 = 126;

// The number of units that the words found ask for.
fn units_asked(found: &ArgMatches) -> Option<u32>
    ensures { MatchOption result ((n : ℕ) → SaysSelf (rest_found found.now) n → ⊥) (λ n. SaysSelf (rest_found found.now) n) }
{
    let word = one_word(found)?;
    match number(word, MOST_UNITS) {
        Some(units) => Some(units as u32),
        None => None,
    }
}

/// The command that the words after `self` say.
pub(crate) fn self_run(alloc: Global, rest: &[String]) -> Result<Command, WordFault>
    ensures said { IfOk result (λ c. SaysBy (codes "self") (map string_bytes rest.now) c) }
    ensures bad { result ≡ Err WordFault.Bad → (c : Command) → SaysBy (codes "self") (map string_bytes rest.now) c → ⊥ }
{
    let found = read(alloc, &[], rest)?;
    match units_asked(&found) {
        Some(units) => Ok(Command::SelfRun { units }),
        None => Err(WordFault::Bad),
    }
}
