//! What is written about waves.

ghost use Rattle.std.specs.Prelude.{◌≡◌, ◌++◌, OnOk, decimal, map};
ghost use Rattle.abt_machine.specs.Words.{ended, line_of, spaced};
ghost use Rattle.abt_lives.specs.Lives.{wave_words, waves_text};

use abt_lines::{end_line, push_decimal, push_word};
use abt_machine::Want;
use abt_streams::Wave;

// Appends numbers, each with a space before it.
fn push_numbers(out: &mut Vec<u8>, numbers: &[u32]) -> Result<(), Want>
    ensures { OnOk result (out.new.items ≡ out.old.items ++ spaced (map decimal numbers.now)) }
{
    for number in numbers {
        push_decimal(out, u64::from(*number))?;
    }
    Ok(())
}

// Appends the line of wave i.
fn push_wave(out: &mut Vec<u8>, i: usize, wave: &Wave) -> Result<(), Want>
    ensures { OnOk result (out.new.items ≡ out.old.items ++ ended (line_of (wave_words i wave.now))) }
{
    out.extend_from_slice(b"wave")?;
    push_decimal(out, i as u64)?;
    push_word(out, b"from")?;
    push_decimal(out, wave.from)?;
    push_word(out, b"streams")?;
    push_numbers(out, wave.streams.items())?;
    end_line(out)
}

/// Appends the lines of all waves.
pub(crate) fn push_waves(out: &mut Vec<u8>, waves: &[Wave]) -> Result<(), Want>
    ensures { OnOk result (out.new.items ≡ out.old.items ++ waves_text waves.now) }
{
    for (i, wave) in waves.iter().enumerate() {
        push_wave(out, i, wave)?;
    }
    Ok(())
}
