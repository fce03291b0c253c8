//! Conditions, counted by their mutexes.

ghost use Rattle.std.specs.Prelude.{◌≡◌, ◌≤◌, ◌<◌, ◌+◌, ◌^◌, ℕ, IfOk, Some, get_or, length, slice_get, slice_set};
ghost use Rattle.abt_machine.specs.Counting.{AreCounted};
ghost use Rattle.abt_machine.specs.Limits.{object_limit};
ghost use Rattle.abt_machine.specs.Valid.{IsThing};
ghost use Rattle.abt_machine.specs.declared.grammar.Format.TheVariants as format;
ghost use Rattle.abt_machine.specs.declared.operations.Thing.{Thing};

use crate::operations::Thing;
use crate::program::Want;
use std::alloc::Global;

/// At each mutex how many conditions it has, and at each condition how many of its mutex are declared before it, in time linear in
/// the number of objects. At all others it is 0.
pub(crate) fn counted(alloc: Global, things: &[Thing]) -> Result<Vec<u32>, Want>
    requires few { length things.now ≤ object_limit format.Three }
    requires valid { (x : ℕ) (t : Thing) → slice_get things.now x ≡ Some t → IsThing things.now x t }
    ensures { IfOk result (λ counts. AreCounted things.now (length things.now) counts.items) }
{
    let mut counts = vec![in alloc; 0; things.len()]?;
    count_all(things, &mut counts);
    Ok(counts)
}

// Counts all conditions.
fn count_all(things: &[Thing], counts: &mut [u32])
    requires few { length things.now ≤ object_limit format.Three }
    requires valid { (x : ℕ) (t : Thing) → slice_get things.now x ≡ Some t → IsThing things.now x t }
    requires starts { AreCounted things.now 0 counts.old }
    ensures { AreCounted things.now (length things.now) counts.new }
{
    for x in 0..things.len() {
        if let Thing::Cond(mutex) = things[x] {
            count_one(counts, x, mutex.0 as usize);
        }
    }
}

// Counts a condition at its mutex, and keeps at the condition how many there were.
fn count_one(counts: &mut [u32], condition: usize, mutex: usize)
    requires condition { condition < length counts.old }
    requires mutex { mutex < length counts.old }
    requires few { get_or counts.old mutex 0 + 1 < 2 ^ 32 }
    ensures { counts.new ≡ slice_set (slice_set counts.old condition (get_or counts.old mutex 0)) mutex (get_or counts.old mutex 0 + 1) }
{
    let before = counts[mutex];
    counts[condition] = before;
    counts[mutex] = before + 1;
}
