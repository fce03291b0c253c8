//! The words after `explore`.

ghost use Rattle.std.specs.Prelude.{◌≡◌, IfOk, MatchOption, map, string_bytes, codes};
ghost use Rattle.abt_words.specs.declared.commands.Command.{Command};
ghost use Rattle.abt_words.specs.declared.commands.ExploreWords.{ExploreWords};
ghost use Rattle.abt_words.specs.Asked.{explore_words, rest_found};
ghost use Rattle.abt_words.specs.Commands.{SaysBy, SaysExplore};

use crate::WordFault;
use crate::asked::{at_most_one, flag};
use crate::commands::{Command, ExploreWords};
use crate::flow::file_asked;
use crate::options::{OptionForm, read};
use abt_machine::Text;
use clap::ArgMatches;
use std::alloc::Global;

/// The greatest number of states that are explored, and so of ends.
pub const MOST_STATES: u64 = 1_000_000;

static OPTIONS: [OptionForm; 3] = [
    OptionForm {
        name: "states",
        takes_value: true,
    },
    OptionForm {
        name: "end",
        takes_value: true,
    },
    OptionForm {
        name: "journal",
        takes_value: false,
    },
];

/// What the words after `explore` ask for, as they stand there.
#[derive(Clone, Copy)]
pub(crate) struct ExploreAsked<'a> {
    pub(crate) file: &'a str,
    pub(crate) states: Option<u64>,
    pub(crate) end: Option<u64>,
    pub(crate) journal: bool,
}

// What the words found ask for.
fn explore_asked<'a>(found: &ArgMatches<'a>) -> Option<ExploreAsked<'a>>
    ensures { MatchOption result
        ((w : ExploreWords) → SaysExplore (rest_found found.now) w → ⊥)
        (λ asked. SaysExplore (rest_found found.now) (explore_words asked)) }
{
    let file = file_asked(found)?;
    let states = at_most_one(found, "states", MOST_STATES)?;
    let end = at_most_one(found, "end", MOST_STATES)?;
    let journal = flag(found, "journal")?;
    if end.is_none() && journal {
        return None;
    }
    Some(ExploreAsked {
        file,
        states,
        end,
        journal,
    })
}

/// The command that the words after `explore` say.
pub(crate) fn explore(alloc: Global, rest: &[String]) -> Result<Command, WordFault>
    ensures said { IfOk result (λ c. SaysBy (codes "explore") (map string_bytes rest.now) c) }
    ensures bad { result ≡ Err WordFault.Bad → (c : Command) → SaysBy (codes "explore") (map string_bytes rest.now) c → ⊥ }
{
    let found = read(alloc, &OPTIONS, rest)?;
    let Some(asked) = explore_asked(&found) else {
        return Err(WordFault::Bad);
    };
    Ok(Command::Explore(ExploreWords {
        file: Text::new(String::from_str(alloc, asked.file)?),
        states: asked.states,
        end: asked.end,
        journal: asked.journal,
    }))
}
