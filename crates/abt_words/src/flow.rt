//! The words after `flow`.

ghost use Rattle.std.specs.Prelude.{◌≡◌, IfOk, MatchOption, map, string_bytes, codes};
ghost use Rattle.abt_machine.specs.Words.{Text};
ghost use Rattle.abt_words.specs.declared.commands.Command.{Command};
ghost use Rattle.abt_words.specs.Asked.{rest_found};
ghost use Rattle.abt_words.specs.Commands.{SaysBy, SaysFile};

use crate::WordFault;
use crate::asked::one_word;
use crate::commands::Command;
use crate::options::read;
use abt_machine::Text;
use clap::ArgMatches;
use std::alloc::Global;

/// The one file that the words found name.
pub(crate) fn file_asked<'a>(found: &ArgMatches<'a>) -> Option<&'a str>
    ensures { MatchOption result ((file : Text) → SaysFile (rest_found found.now) file → ⊥) (λ file. SaysFile (rest_found found.now) file.now) }
{
    let file = one_word(found)?;
    if file.is_empty() { None } else { Some(file) }
}

/// The command that the words after `flow` say.
pub(crate) fn flow(alloc: Global, rest: &[String]) -> Result<Command, WordFault>
    ensures said { IfOk result (λ c. SaysBy (codes "flow") (map string_bytes rest.now) c) }
    ensures bad { result ≡ Err WordFault.Bad → (c : Command) → SaysBy (codes "flow") (map string_bytes rest.now) c → ⊥ }
{
    let found = read(alloc, &[], rest)?;
    let Some(file) = file_asked(&found) else {
        return Err(WordFault::Bad);
    };
    Ok(Command::Flow {
        file: Text::new(String::from_str(alloc, file)?),
    })
}
