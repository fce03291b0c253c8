//! The commands that are a name alone.

ghost use Rattle.std.specs.Prelude.{◌≡◌, IfOk, map, string_bytes, codes};
ghost use Rattle.abt_words.specs.declared.commands.Command.{Command};
ghost use Rattle.abt_words.specs.Commands.{SaysBy};

use crate::WordFault;
use crate::commands::Command;

/// The command that the words after `--help` say.
pub(crate) fn help(rest: &[String]) -> Result<Command, WordFault>
    ensures said { IfOk result (λ c. SaysBy (codes "--help") (map string_bytes rest.now) c) }
    ensures bad { result ≡ Err WordFault.Bad → (c : Command) → SaysBy (codes "--help") (map string_bytes rest.now) c → ⊥ }
{
    match rest {
        [] => Ok(Command::Help),
        [_, ..] => Err(WordFault::Bad),
    }
}

/// The command that the words after `--version` say.
pub(crate) fn version(rest: &[String]) -> Result<Command, WordFault>
    ensures said { IfOk result (λ c. SaysBy (codes "--version") (map string_bytes rest.now) c) }
    ensures bad { result ≡ Err WordFault.Bad → (c : Command) → SaysBy (codes "--version") (map string_bytes rest.now) c → ⊥ }
{
    match rest {
        [] => Ok(Command::Version),
        [_, ..] => Err(WordFault::Bad),
    }
}
