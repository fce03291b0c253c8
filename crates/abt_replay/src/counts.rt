//! How often each unit reads.

ghost use Rattle.std.specs.Prelude.{◌≡◌, ◌<◌, ◌^◌, ◌==◌, IfOk, length, replicate, slice_index, slice_set};
ghost use Rattle.std.specs.List.{sum};

use crate::keys::{Keyed, write_list};
use abt_machine::{UnitNo, Want};
use std::alloc::{AllocError, Global};
use std::marker::Model;

/// A count of each unit, and the sum of all counts.
#[derive(Drop)]
pub(crate) struct Counts {
    each: Vec<u32>,
    total: u64,
}

impl Model for Counts {
    ghost use Rattle.std.specs.Prelude.{ℕ, ◌≡◌, ◌<◌, ◌^◌, List, length};
    ghost use Rattle.std.specs.List.{sum};

    ghost Value = { List ℕ };

    ghost view = { λ c. c.each.items };

    ghost invariant = { λ c. (c.total ≡ sum c.each.items) × (length c.each.items < 2 ^ 32) };
}

impl Clone for Counts {
    ghost is_clone = { λ counts copy. copy ≡ counts };

    fn clone(&self) -> Result<Counts, AllocError> {
        Ok(Counts {
            each: self.each.clone()?,
            total: self.total,
        })
    }
}

impl Keyed for Counts {
    ghost use Rattle.abt_replay.specs.Keys.{list_key, number_key};

    ghost key = { list_key number_key };

    fn write(&self, out: &mut Vec<u8>) -> Result<(), Want> {
        write_list(self.each.as_slice(), out)
    }
}

impl Counts {
    /// The counts of that many units, all 0. Out of memory is the only error.
    pub(crate) fn new(alloc: Global, units: u32) -> Result<Counts, Want>
        ensures { IfOk result (λ counts. counts ≡ replicate units 0) }
    {
        Ok(Counts {
            each: vec![in alloc; 0; units as usize]?,
            total: 0,
        })
    }

    /// The count of the unit, 0 if it has none.
    pub(crate) fn of(&self, who: UnitNo) -> u32
        ensures { result ≡ slice_index self.now who.0 }
    {
        self.each.get(who.0 as usize).copied().unwrap_or(0)
    }

    /// Whether all counts are 0.
    pub(crate) fn are_zero(&self) -> bool
        ensures { result ≡ (sum self.now == 0) }
    {
        self.total == 0
    }

    /// Sets the count of the unit, if it has one.
    pub(crate) fn set(&mut self, who: UnitNo, count: u32)
        ensures { self.new ≡ slice_set self.old who.0 count }
    {
        let at = who.0 as usize;
        if at < self.each.len() {
            self.total = total_with(self.total, &self.each, at, count);
            self.each[at] = count;
        }
    }
}

// The sum of the counts once the one at that place is this.
fn total_with(total: u64, counts: &[u32], at: usize, count: u32) -> u64
    requires total { total ≡ sum counts.now }
    requires place { at < length counts.now }
    requires few { length counts.now < 2 ^ 32 }
    ensures { result ≡ sum (slice_set counts.now at count) }
{
    let others = total - u64::from(counts[at]);
    others + u64::from(count)
}
