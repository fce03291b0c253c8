//! The words of the program that runs on lives.

ghost use Rattle.std.specs.Prelude.{◌≡◌, IfOk, None, MatchOption, map, string_bytes};
ghost use Rattle.abt_words.specs.declared.lives.LivesWords.{LivesWords};
ghost use Rattle.abt_words.specs.Asked.{rest_found};
ghost use Rattle.abt_words.specs.Lives.{SaysLives, SaysLivesRest, lives_words};

use crate::WordFault;
use crate::asked::{are_files, at_most_one, flag, two_words};
use crate::options::{OptionForm, read};
use crate::steps::MOST_STEPS;
use abt_machine::Text;
use clap::ArgMatches;
use std::alloc::Global;

static OPTIONS: [OptionForm; 2] = [
    OptionForm {
        name: "steps",
        takes_value: true,
    },
    OptionForm {
        name: "journal",
        takes_value: false,
    },
];

/// What the words ask for: a file with a workload, one with lives, at most how many steps each stream makes, if a word says that, and
/// whether the journal is printed.
#[derive(Drop)]
pub struct LivesWords {
    pub workload: Text,
    pub lives: Text,
    pub steps: Option<u64>,
    pub journal: bool,
}

/// What the words ask for, as they stand there.
#[derive(Clone, Copy)]
pub(crate) struct LivesAsked<'a> {
    pub(crate) workload: &'a str,
    pub(crate) lives: &'a str,
    pub(crate) steps: Option<u64>,
    pub(crate) journal: bool,
}

// What the words found ask for.
fn lives_asked<'a>(found: &ArgMatches<'a>) -> Option<LivesAsked<'a>>
    ensures { MatchOption result
        ((w : LivesWords) → SaysLivesRest (rest_found found.now) w → ⊥)
        (λ asked. SaysLivesRest (rest_found found.now) (lives_words asked)) }
{
    let (workload, lives) = two_words(found)?;
    if !are_files(workload, lives) {
        return None;
    }
    let steps = at_most_one(found, "steps", MOST_STEPS)?;
    let journal = flag(found, "journal")?;
    Some(LivesAsked {
        workload,
        lives,
        steps,
        journal,
    })
}

/// What the words after the program's name ask for: `WORKLOAD LIVES [--steps V] [--journal]`, with the options in any order.
pub fn lives_words(alloc: Global, list: &[String]) -> Result<LivesWords, WordFault>
    ensures said { IfOk result (λ w. SaysLives (map string_bytes list.now) w) }
    ensures only { IfOk result (λ w. (x : LivesWords) → SaysLives (map string_bytes list.now) x → x ≡ w) }
    ensures bad { result ≡ Err WordFault.Bad → (w : LivesWords) → SaysLives (map string_bytes list.now) w → ⊥ }
{
    let found = read(alloc, &OPTIONS, list)?;
    let Some(asked) = lives_asked(&found) else {
        return Err(WordFault::Bad);
    };
    Ok(LivesWords {
        workload: Text::new(String::from_str(alloc, asked.workload)?),
        lives: Text::new(String::from_str(alloc, asked.lives)?),
        steps: asked.steps,
        journal: asked.journal,
    })
}
