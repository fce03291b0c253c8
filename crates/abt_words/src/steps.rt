//! How many steps each stream may make.

ghost use Rattle.std.specs.Prelude.{◌≡◌, MatchOption};
ghost use Rattle.abt_words.specs.Steps.{AsksTooMany, LetsMake, default_steps_of, step_limit_of};

use abt_machine::Format;

/// The number of steps that each stream may make by the first two formats, if no word asks for one.
pub const DEFAULT_STEPS: u64 = 10_000;

// The maximum number of steps that a word may ask for by the first two formats.
const STEP_LIMIT: u64 = 100_000;

/// The maximum number of steps that a word may ask for by the third format, and as many as each stream may make if no word does.
pub(crate) const MOST_STEPS: u64 = 16_777_216;

/// The number of steps that each stream may make by a text of this format, if no word asks for one.
pub fn default_steps(format: Format) -> u64
    ensures { result ≡ default_steps_of format }
{
    match format {
        Format::One | Format::Two => DEFAULT_STEPS,
        Format::Three => MOST_STEPS,
    }
}

// The maximum number of steps that a word may ask for by a text of this format.
fn step_limit(format: Format) -> u64
    ensures { result ≡ step_limit_of format }
{
    match format {
        Format::One | Format::Two => STEP_LIMIT,
        Format::Three => MOST_STEPS,
    }
}

/// The number of steps that each stream may make by a text of this format, if a word asks for this many, or none does; none if that is
/// more than the format allows.
pub fn allowed_steps(format: Format, asked: Option<u64>) -> Option<u64>
    ensures { MatchOption result (AsksTooMany format asked) (λ n. LetsMake format asked n) }
{
    match asked {
        None => Some(default_steps(format)),
        Some(steps) if steps <= step_limit(format) => Some(steps),
        Some(_) => None,
    }
}
