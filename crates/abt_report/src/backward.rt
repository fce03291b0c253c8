//! Lines that are written from their end to their start into a block of fixed length, as the digits of a number come from its end: each
//! piece goes to its place at once, and a text takes the whole line by one call.

ghost use Rattle.std.specs.Prelude.{◌≡◌, ◌+◌, ◌<◌, ◌≤◌, ◌++◌, ◌∷◌, [], length, drop, decimal};
ghost use Rattle.abt_machine.specs.Words.{spaced};

use itoa::write_digits;

/// How many bytes a block has: more than any line of a journal.
pub(crate) const BLOCK_LENGTH: usize = 128;

/// Bytes of which the last are those of a line.
pub(crate) type Block = [u8; BLOCK_LENGTH];

/// Writes a line feed at the end of the block. A line with its line feed begins at the number that is returned, as of the calls below.
#[inline(always)]
pub(crate) fn feed_at_end(block: &mut Block) -> usize
    ensures place { result ≡ 127 }
    ensures written { drop result block.new ≡ 10 ∷ [] }
{
    block[BLOCK_LENGTH - 1] = b'\n';
    BLOCK_LENGTH - 1
}

/// Writes a number before what begins at `end`.
#[inline(always)]
pub(crate) fn number_before(block: &mut Block, end: usize, n: u64) -> usize
    requires room { (20 ≤ end) × (end ≤ 128) }
    ensures place { (result < end) × (end ≤ result + 20) }
    ensures written { drop result block.new ≡ decimal n ++ drop end block.old }
{
    write_digits(n, block, end)
}

// Writes a space before what begins at `end`.
#[inline(always)]
fn space_before(block: &mut Block, end: usize) -> usize
    requires room { (0 < end) × (end ≤ 128) }
    ensures place { result + 1 ≡ end }
    ensures written { drop result block.new ≡ 32 ∷ drop end block.old }
{
    block[end - 1] = b' ';
    end - 1
}

/// Writes a space and a number before what begins at `end`.
#[inline(always)]
pub(crate) fn decimal_before(block: &mut Block, end: usize, n: u64) -> usize
    requires room { (21 ≤ end) × (end ≤ 128) }
    ensures place { (result < end) × (end ≤ result + 21) }
    ensures written { drop result block.new ≡ spaced (decimal n ∷ []) ++ drop end block.old }
{
    let start = number_before(block, end, n);
    space_before(block, start)
}

/// Writes a space and a word before what begins at `end`.
#[inline(always)]
pub(crate) fn word_before(block: &mut Block, end: usize, word: &[u8]) -> usize
    requires room { (length word.now < end) × (end ≤ 128) }
    ensures place { result + 1 + length word.now ≡ end }
    ensures written { drop result block.new ≡ spaced (word.now ∷ []) ++ drop end block.old }
{
    let start = end - word.len();
    block[start..end].copy_from_slice(word);
    space_before(block, start)
}
