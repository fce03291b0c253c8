//! What the words and options that were found ask for.

ghost use Rattle.std.specs.Prelude.{◌≡◌, ◌↔◌, ℕ, Bool, IsTrue, MatchOption, Option, [], ◌∷◌, codes};
ghost use Rattle.abt_machine.specs.Words.{Text};
ghost use Rattle.abt_words.specs.Asked.{found_values};
ghost use Rattle.abt_words.specs.Commands.{AreFiles, SaysAtMostOne, SaysFlag};

use crate::numbers::number;
use crate::options::{HowOften, WORDS, given};
use clap::ArgMatches;

/// The one word that is no option.
pub(crate) fn one_word<'a>(found: &ArgMatches<'a>) -> Option<&'a str>
    ensures { MatchOption result ((word : Text) → found_values found.now (codes "words") ≡ word ∷ [] → ⊥) (λ word. found_values found.now (codes "words") ≡ word.now ∷ []) }
{
    one_value(found, WORDS)
}

/// The one value that the option of this name is given.
pub(crate) fn one_value<'a>(found: &ArgMatches<'a>, name: &str) -> Option<&'a str>
    ensures { MatchOption result ((value : Text) → found_values found.now name.now ≡ value ∷ [] → ⊥) (λ value. found_values found.now name.now ≡ value.now ∷ []) }
{
    match given(found, name) {
        HowOften::Never => None,
        HowOften::Once(value) => Some(value),
        HowOften::Often => None,
    }
}

/// That the option of this name is not given.
pub(crate) fn absent(found: &ArgMatches, name: &str) -> Option<()>
    ensures { MatchOption result (found_values found.now name.now ≡ [] → ⊥) (λ _. found_values found.now name.now ≡ []) }
{
    match given(found, name) {
        HowOften::Never => Some(()),
        HowOften::Once(_) => None,
        HowOften::Often => None,
    }
}

/// The two words that are no options.
pub(crate) fn two_words<'a>(found: &ArgMatches<'a>) -> Option<(&'a str, &'a str)>
    ensures { MatchOption result
        ((first second : Text) → found_values found.now (codes "words") ≡ first ∷ second ∷ [] → ⊥)
        (λ words. found_values found.now (codes "words") ≡ words.0.now ∷ words.1.now ∷ []) }
{
    let words = found.get_raw(WORDS)?;
    match words {
        [first, second] => Some((first, second)),
        _ => None,
    }
}

/// Whether the option of this name is given, which takes no value, and may be given once.
pub(crate) fn flag(found: &ArgMatches, name: &str) -> Option<bool>
    ensures { MatchOption result
        ((is_given : Bool) → SaysFlag (found_values found.now name.now) is_given → ⊥)
        (λ is_given. SaysFlag (found_values found.now name.now) is_given) }
{
    match given(found, name) {
        HowOften::Never => Some(false),
        HowOften::Once(_) => Some(true),
        HowOften::Often => None,
    }
}

/// The number from 1 to `most` that the option of this name asks for, if it is given, which it may be once.
pub(crate) fn at_most_one(found: &ArgMatches, name: &str, most: u64) -> Option<Option<u64>>
    ensures { MatchOption result
        ((asked : Option ℕ) → SaysAtMostOne most (found_values found.now name.now) asked → ⊥)
        (λ asked. SaysAtMostOne most (found_values found.now name.now) asked) }
{
    match given(found, name) {
        HowOften::Never => Some(None),
        HowOften::Once(value) => match number(value, most) {
            Some(n) => Some(Some(n)),
            None => None,
        },
        HowOften::Often => None,
    }
}

/// Whether these name two files, of which at most one is standard input.
pub(crate) fn are_files(first: &str, second: &str) -> bool
    ensures { IsTrue result ↔ AreFiles first.now second.now }
{
    if first.is_empty() || second.is_empty() {
        return false;
    }
    first != "-" || second != "-"
}
