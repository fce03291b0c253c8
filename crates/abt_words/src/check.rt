//! The words after `check`.

ghost use Rattle.std.specs.Prelude.{◌≡◌, IfOk, MatchOption, map, string_bytes, codes};
ghost use Rattle.abt_words.specs.declared.commands.CheckWords.{CheckWords};
ghost use Rattle.abt_words.specs.declared.commands.Command.{Command};
ghost use Rattle.abt_words.specs.declared.commands.OutputWords.{OutputWords};
ghost use Rattle.abt_words.specs.declared.commands.Shows.{Shows};
ghost use Rattle.abt_words.specs.Asked.{check_words, found_values, output_words, rest_found};
ghost use Rattle.abt_words.specs.Commands.{SaysBy, SaysCheck, SaysEnd, SaysOutput};

use crate::WordFault;
use crate::asked::{absent, are_files, flag, two_words};
use crate::commands::{CheckWords, Command, OutputWords, Shows};
use crate::options::{HowOften, OptionForm, given, read};
use abt_machine::Text;
use clap::ArgMatches;
use std::alloc::{AllocError, Global};

static OPTIONS: [OptionForm; 3] = [
    OptionForm {
        name: "end",
        takes_value: false,
    },
    OptionForm {
        name: "report",
        takes_value: false,
    },
    OptionForm {
        name: "why",
        takes_value: false,
    },
];

/// What words ask for that name a workload and a journal, as they stand there.
#[derive(Clone, Copy)]
pub(crate) struct CheckAsked<'a> {
    pub(crate) workload: &'a str,
    pub(crate) journal: &'a str,
    pub(crate) shows: Shows,
}

/// What words ask for that name a workload and an output, as they stand there.
#[derive(Clone, Copy)]
pub(crate) struct OutputAsked<'a> {
    pub(crate) workload: &'a str,
    pub(crate) output: &'a str,
    pub(crate) why: bool,
}

// What is shown of the journal.
fn shows_asked(found: &ArgMatches) -> Option<Shows>
    ensures { MatchOption result
        ((s : Shows) → SaysEnd (found_values found.now (codes "end")) s → ⊥)
        (λ s. SaysEnd (found_values found.now (codes "end")) s) }
{
    match given(found, "end") {
        HowOften::Never => Some(Shows::Verdict),
        HowOften::Once(_) => Some(Shows::End),
        HowOften::Often => None,
    }
}

// What the words found ask for, if they do not ask for the report to be judged.
fn check_asked<'a>(found: &ArgMatches<'a>) -> Option<CheckAsked<'a>>
    ensures { MatchOption result
        ((w : CheckWords) → SaysCheck (rest_found found.now) w → ⊥)
        (λ asked. SaysCheck (rest_found found.now) (check_words asked)) }
{
    let (workload, journal) = two_words(found)?;
    if !are_files(workload, journal) {
        return None;
    }
    let shows = shows_asked(found)?;
    absent(found, "report")?;
    absent(found, "why")?;
    Some(CheckAsked {
        workload,
        journal,
        shows,
    })
}

// What the words found ask for, if they ask for the report to be judged.
fn output_asked<'a>(found: &ArgMatches<'a>) -> Option<OutputAsked<'a>>
    ensures { MatchOption result
        ((w : OutputWords) → SaysOutput (rest_found found.now) w → ⊥)
        (λ asked. SaysOutput (rest_found found.now) (output_words asked)) }
{
    let (workload, output) = two_words(found)?;
    if !are_files(workload, output) {
        return None;
    }
    let report = flag(found, "report")?;
    if !report {
        return None;
    }
    let why = flag(found, "why")?;
    absent(found, "end")?;
    Some(OutputAsked {
        workload,
        output,
        why,
    })
}

/// The words, with names of their own.
pub(crate) fn named(alloc: Global, asked: &CheckAsked) -> Result<CheckWords, AllocError>
    ensures { IfOk result (λ w. w ≡ check_words asked.now) }
{
    Ok(CheckWords {
        workload: Text::new(String::from_str(alloc, asked.workload)?),
        journal: Text::new(String::from_str(alloc, asked.journal)?),
        shows: asked.shows,
    })
}

// The words, with names of their own.
fn named_output(alloc: Global, asked: &OutputAsked) -> Result<OutputWords, AllocError>
    ensures { IfOk result (λ w. w ≡ output_words asked.now) }
{
    Ok(OutputWords {
        workload: Text::new(String::from_str(alloc, asked.workload)?),
        output: Text::new(String::from_str(alloc, asked.output)?),
        why: asked.why,
    })
}

/// The command that the words after `check` say.
pub(crate) fn check(alloc: Global, rest: &[String]) -> Result<Command, WordFault>
    ensures said { IfOk result (λ c. SaysBy (codes "check") (map string_bytes rest.now) c) }
    ensures bad { result ≡ Err WordFault.Bad → (c : Command) → SaysBy (codes "check") (map string_bytes rest.now) c → ⊥ }
{
    let found = read(alloc, &OPTIONS, rest)?;
    if let Some(asked) = check_asked(&found) {
        let words = named(alloc, &asked)?;
        return Ok(Command::Check(words));
    }
    let Some(asked) = output_asked(&found) else {
        return Err(WordFault::Bad);
    };
    let words = named_output(alloc, &asked)?;
    Ok(Command::CheckOutput(words))
}
