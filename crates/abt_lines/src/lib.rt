//! Lines of words and numbers, appended to the bytes of a text: no call takes memory but the text's own.
#![tactic(auto)]

ghost use Rattle.std.specs.Prelude.{◌≡◌, ◌++◌, ◌∷◌, [], OnOk, decimal};
ghost use Rattle.abt_machine.specs.Words.{ended, spaced};

use abt_machine::Want;
use itoa::Buffer;

/// Appends a number.
pub fn push_number(out: &mut Vec<u8>, n: u64) -> Result<(), Want>
    ensures { OnOk result (out.new.items ≡ out.old.items ++ decimal n) }
{
    let mut buffer = Buffer::new();
    out.extend_from_slice(buffer.format(n).as_bytes())?;
    Ok(())
}

/// Appends a space and a word.
pub fn push_word(out: &mut Vec<u8>, word: &[u8]) -> Result<(), Want>
    ensures { OnOk result (out.new.items ≡ out.old.items ++ spaced (word.now ∷ [])) }
{
    out.extend_from_slice(b" ")?;
    out.extend_from_slice(word)?;
    Ok(())
}

/// Appends a space and a number.
pub fn push_decimal(out: &mut Vec<u8>, n: u64) -> Result<(), Want>
    ensures { OnOk result (out.new.items ≡ out.old.items ++ spaced (decimal n ∷ [])) }
{
    out.extend_from_slice(b" ")?;
    push_number(out, n)
}

/// Appends a line feed.
pub fn end_line(out: &mut Vec<u8>) -> Result<(), Want>
    ensures { OnOk result (out.new.items ≡ ended out.old.items) }
{
    out.extend_from_slice(b"\n")?;
    Ok(())
}
