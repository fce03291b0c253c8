//! The numbers among the words.

ghost use Rattle.std.specs.Prelude.{ℕ, MatchOption};
ghost use Rattle.abt_machine.specs.Spelling.{SaysNumber};
ghost use Rattle.abt_words.specs.Commands.{SaysSeed};

/// The number that one or more ASCII digits write, if it has at most 64 bits. Leading zeros are allowed, signs are not:
/// `parse` alone would take a plus.
pub(crate) fn seed(text: &str) -> Option<u64>
    ensures { MatchOption result ((n : ℕ) → SaysSeed text.now n → ⊥) (λ n. SaysSeed text.now n) }
{
    if text.as_bytes().first() == Some(&b'+') {
        return None;
    }
    text.parse::<u64>().ok()
}

/// The number that one or more ASCII digits write, if it is from 1 to `most`. Leading zeros are allowed, signs are not.
pub fn number(text: &str, most: u64) -> Option<u64>
    ensures { MatchOption result ((n : ℕ) → SaysNumber most text.now n → ⊥) (λ n. SaysNumber most text.now n) }
{
    match seed(text) {
        Some(n) if 1 <= n && n <= most => Some(n),
        _ => None,
    }
}
