//! What many rounds of one piece of work took.
#![tactic(auto)]

ghost use Rattle.std.specs.Prelude.{◌≡◌, ◌*◌, ◌/◌, ◌%◌, ◌-◌, ◌^◌, min, max, ◌∷◌, ◌++◌, length, Some, IfOk, OnOk, slice_index};
ghost use Rattle.std.specs.Duration.{as_nanos};
ghost use Rattle.std.specs.Fmt.{decimal};
ghost use Rattle.std.specs.Ordering.{nat_cmp};
ghost use Rattle.std.specs.List.Sorted.{IsPermutation, IsSorted};

use std::alloc::AllocError;
use std::fmt::{self, Display, Formatter, Write};
use std::time::Duration;

/// Sorts the times, and returns the least and the middle one; of an even number the middle one is the first of the greater
/// half, and of no times both are 0.
pub fn least_and_middle(times: &mut Vec<u128>) -> Result<(u128, u128), AllocError>
    ensures permutation { IsPermutation times.old.items times.new.items }
    ensures sorted { OnOk result (IsSorted nat_cmp times.new.items) }
    ensures least { IfOk result (λ both. both.0 ≡ slice_index times.new.items 0) }
    ensures middle { IfOk result (λ both. both.1 ≡ slice_index times.new.items (length times.new.items / 2)) }
{
    times.sort()?;
    let least = times.first().copied().unwrap_or(0);
    let middle = times.get(times.len() / 2).copied().unwrap_or(0);
    Ok((least, middle))
}

/// A number of hundredths, written with two places.
#[derive(Clone, Copy)]
pub struct Hundredths(pub u128);

impl Display for Hundredths {
    ghost output = { λ h. Some (decimal (h.0 / 100) ++ 46 ∷ decimal (h.0 / 10 % 10) ++ decimal (h.0 % 10)) };

    fn fmt<W: Write>(&self, f: &mut Formatter<W>) -> fmt::Result {
        let whole = self.0 / 100;
        let tenths = self.0 / 10 % 10;
        let hundredths = self.0 % 10;
        write!(f, "{whole}.{tenths}{hundredths}")
    }
}

/// Hundredths of a nanosecond for each of this many calls, rounded down; no call counts as one.
pub fn each(took: Duration, calls: u128) -> u128
    ensures { result ≡ as_nanos took * 100 / max calls 1 }
{
    took.as_nanos().saturating_mul(100) / calls.max(1)
}

/// How many times as long one time is as the other, in hundredths, rounded down. A time of 0 counts as 1, and a hundred times
/// the first is at most the greatest number.
pub fn ratio(time: u128, other: u128) -> Hundredths
    ensures { result.0 ≡ min (time * 100) (2 ^ 128 - 1) / max other 1 }
{
    Hundredths(time.saturating_mul(100) / other.max(1))
}
