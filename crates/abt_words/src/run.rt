//! The words after `run`.

ghost use Rattle.std.specs.Prelude.{◌≡◌, IfOk, MatchOption, List, map, string_bytes, codes};
ghost use Rattle.abt_machine.specs.Words.{Text};
ghost use Rattle.abt_words.specs.declared.commands.CheckWords.{CheckWords};
ghost use Rattle.abt_words.specs.declared.commands.Command.{Command};
ghost use Rattle.abt_words.specs.declared.commands.RunWords.{RunWords};
ghost use Rattle.abt_words.specs.declared.commands.Schedule.{Schedule};
ghost use Rattle.abt_words.specs.declared.commands.Shows.{Shows};
ghost use Rattle.abt_words.specs.Asked.{IsGiven, check_words, found_values, rest_found, run_words};
ghost use Rattle.abt_words.specs.Commands.{SaysBy, SaysFollow, SaysReport, SaysRun, SaysSchedule};

use crate::WordFault;
use crate::asked::{absent, are_files, at_most_one, flag, one_value, one_word};
use crate::check::{CheckAsked, named};
use crate::commands::{Command, RunWords, Schedule, Shows};
use crate::numbers::seed;
use crate::options::{HowOften, OptionForm, given, read};
use crate::steps::MOST_STEPS;
use abt_machine::Text;
use clap::ArgMatches;
use std::alloc::Global;

static OPTIONS: [OptionForm; 6] = [
    OptionForm {
        name: "steps",
        takes_value: true,
    },
    OptionForm {
        name: "journal",
        takes_value: false,
    },
    OptionForm {
        name: "why",
        takes_value: false,
    },
    OptionForm {
        name: "in-turn",
        takes_value: false,
    },
    OptionForm {
        name: "seed",
        takes_value: true,
    },
    OptionForm {
        name: "schedule",
        takes_value: true,
    },
];

/// What the words after `run` ask for, as they stand there.
#[derive(Clone, Copy)]
pub(crate) struct RunAsked<'a> {
    pub(crate) file: &'a str,
    pub(crate) steps: Option<u64>,
    pub(crate) journal: bool,
    pub(crate) why: bool,
    pub(crate) schedule: Schedule,
}

// How the streams take turns, by the two options that say it.
fn schedule_by(in_turn: HowOften, number: HowOften) -> Option<Schedule>
    ensures { (in_turns seeds : List Text) → IsGiven in_turn.entry in_turns → IsGiven number.entry seeds
        → MatchOption result ((s : Schedule) → SaysSchedule in_turns seeds s → ⊥) (λ s. SaysSchedule in_turns seeds s) }
{
    match (in_turn, number) {
        (HowOften::Never, HowOften::Never) => Some(Schedule::Threads),
        (HowOften::Once(_), HowOften::Never) => Some(Schedule::InTurn),
        (HowOften::Never, HowOften::Once(digits)) => match seed(digits) {
            Some(n) => Some(Schedule::Seed(n)),
            None => None,
        },
        _ => None,
    }
}

// What the words found ask for, if none names a schedule.
fn run_asked<'a>(found: &ArgMatches<'a>) -> Option<RunAsked<'a>>
    ensures { MatchOption result
        ((w : RunWords) → SaysRun (rest_found found.now) w → ⊥)
        (λ asked. SaysRun (rest_found found.now) (run_words asked)) }
{
    let file = one_word(found)?;
    if file.is_empty() {
        return None;
    }
    let steps = at_most_one(found, "steps", MOST_STEPS)?;
    let journal = flag(found, "journal")?;
    let why = flag(found, "why")?;
    let schedule = schedule_by(given(found, "in-turn"), given(found, "seed"))?;
    absent(found, "schedule")?;
    Some(RunAsked {
        file,
        steps,
        journal,
        why,
        schedule,
    })
}

// What is shown of a journal that is followed.
fn report_asked(found: &ArgMatches) -> Option<Shows>
    ensures { MatchOption result
        ((s : Shows) → SaysReport (found_values found.now (codes "why")) s → ⊥)
        (λ s. SaysReport (found_values found.now (codes "why")) s) }
{
    match given(found, "why") {
        HowOften::Never => Some(Shows::Report { why: false }),
        HowOften::Once(_) => Some(Shows::Report { why: true }),
        HowOften::Often => None,
    }
}

// What the words found ask for, if one names a schedule.
fn follow_asked<'a>(found: &ArgMatches<'a>) -> Option<CheckAsked<'a>>
    ensures { MatchOption result
        ((w : CheckWords) → SaysFollow (rest_found found.now) w → ⊥)
        (λ asked. SaysFollow (rest_found found.now) (check_words asked)) }
{
    let workload = one_word(found)?;
    let journal = one_value(found, "schedule")?;
    if !are_files(workload, journal) {
        return None;
    }
    let shows = report_asked(found)?;
    absent(found, "steps")?;
    absent(found, "journal")?;
    absent(found, "in-turn")?;
    absent(found, "seed")?;
    Some(CheckAsked {
        workload,
        journal,
        shows,
    })
}

/// The command that the words after `run` say.
pub(crate) fn run(alloc: Global, rest: &[String]) -> Result<Command, WordFault>
    ensures said { IfOk result (λ c. SaysBy (codes "run") (map string_bytes rest.now) c) }
    ensures bad { result ≡ Err WordFault.Bad → (c : Command) → SaysBy (codes "run") (map string_bytes rest.now) c → ⊥ }
{
    let found = read(alloc, &OPTIONS, rest)?;
    if let Some(asked) = run_asked(&found) {
        return Ok(Command::Run(RunWords {
            file: Text::new(String::from_str(alloc, asked.file)?),
            steps: asked.steps,
            journal: asked.journal,
            why: asked.why,
            schedule: asked.schedule,
        }));
    }
    let Some(asked) = follow_asked(&found) else {
        return Err(WordFault::Bad);
    };
    let words = named(alloc, &asked)?;
    Ok(Command::Check(words))
}
