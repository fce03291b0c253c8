//! The `clap` command that reads the words after a command's name.

ghost use Rattle.std.specs.Prelude.{◌≡◌, IfOk, None, [], true, false, map, string_bytes, codes};
ghost use Rattle.clap.specs.Words.{app_of, fault_of, found_of, is_simple_and_free, matches_of, rows_of, rule_of};
ghost use Rattle.abt_words.specs.Apps.{app_with, option_rule, words_rule};
ghost use Rattle.abt_words.specs.Asked.{IsGiven, found_values, options_of, rest_found};
ghost use Rattle.abt_words.specs.Rests.{rest_of, takes_value};

use crate::WordFault;
use clap::builder::ValueRange;
use clap::{Arg, ArgAction, ArgMatches};
use std::alloc::{AllocError, Global};

/// An option `--name` of a command.
#[derive(Clone, Copy)]
pub(crate) struct OptionForm {
    pub(crate) name: &'static str,
    pub(crate) takes_value: bool,
}

/// The name under which the words that are no options are found.
pub(crate) const WORDS: &str = "words";

// The words that are no options.
fn words_arg<'a>(alloc: Global) -> Arg<'a>
    ensures rule { rule_of result ≡ words_rule }
    ensures own { result.global ≡ false }
{
    Arg::new(alloc, WORDS).action(ArgAction::Append)
}

// An option that may come more than once. One without a value has the empty one each time.
fn option_arg<'a>(alloc: Global, form: &'a OptionForm) -> Arg<'a>
    ensures rule { rule_of result ≡ option_rule form.entry.now.name.now form.entry.now.takes_value }
    ensures own { result.global ≡ false }
{
    let arg = Arg::new(alloc, form.name)
        .long(form.name)
        .action(ArgAction::Append);
    if form.takes_value {
        arg
    } else {
        arg.num_args(ValueRange::EMPTY).default_missing_value("")
    }
}

// The command that reads any words and these options.
fn command_with<'a>(
    alloc: Global,
    options: &'a [OptionForm],
) -> Result<clap::Command<'a>, AllocError>
    ensures { IfOk result (λ c. app_of c ≡ app_with (options_of options.entry.now)) }
{
    let mut command = clap::Command::new(alloc, WORDS)
        .no_binary_name(true)
        .disable_help_flag(true)
        .disable_version_flag(true)
        .arg(words_arg(alloc))?;
    for form in options {
        command = command.arg(option_arg(alloc, form))?;
    }
    Ok(command)
}

// What the command finds in the words, if no argument has a rule on another.
fn found_by<'a>(
    command: clap::Command<'a>,
    words: &'a [String],
) -> Result<ArgMatches<'a>, WordFault>
    requires { is_simple_and_free (app_of command) ≡ true }
    ensures takes { IfOk result (λ found. fault_of (app_of command.entry) (map string_bytes words.entry.now) ≡ []) }
    ensures finds { IfOk result (λ found. rows_of (found_of found) ≡ matches_of (app_of command.entry) (map string_bytes words.entry.now)) }
    ensures bad { result ≡ Err WordFault.Bad → fault_of (app_of command.entry) (map string_bytes words.entry.now) ≡ [] → ⊥ }
{
    let found = command.try_get_matches_from(words)?;
    Ok(found)
}

/// What stands in the words after a command's name, by the command's options.
pub(crate) fn read<'a>(
    alloc: Global,
    options: &'a [OptionForm],
    rest: &'a [String],
) -> Result<ArgMatches<'a>, WordFault>
    requires { takes_value (options_of options.now) (codes "words") ≡ None }
    ensures found { IfOk result (λ m. rest_of (options_of options.entry.now) None (map string_bytes rest.entry.now) ≡ rest_found m) }
    ensures bad { result ≡ Err WordFault.Bad → (rest_of (options_of options.entry.now) None (map string_bytes rest.entry.now)).others ≡ 0 → ⊥ }
{
    let command = command_with(alloc, options)?;
    let found = found_by(command, rest)?;
    Ok(found)
}

/// How often something is given.
#[derive(Clone, Copy)]
pub(crate) enum HowOften<'a> {
    Never,
    Once(&'a str),
    Often,
}

/// How often the option of this name was found, with its value.
pub(crate) fn given<'a>(found: &ArgMatches<'a>, name: &str) -> HowOften<'a>
    ensures { IsGiven result (found_values found.now name.now) }
{
    match found.get_raw(name) {
        None => HowOften::Never,
        Some([]) => HowOften::Never,
        Some([value]) => HowOften::Once(value),
        Some([_, _, ..]) => HowOften::Often,
    }
}
