//! Closing the locks of all objects.

ghost use Rattle.std.specs.Prelude.{◌≡◌, ◌+◌, ◌<◌, ◌≤◌, length, max, slice_index, slice_set, vec_capacity};
ghost use Rattle.std.specs.List.{All};
ghost use Rattle.abt_booth.specs.Seats.{seats_of};
ghost use Rattle.abt_commons.specs.Closing.{AllClosed, AllUnlocked, HaveTurns};

use crate::gathering::closed;
use crate::one::One;
use crate::split::SplitPass;
use abt_booth::{Booth, Closed};

/// Closes all booths with the turns of the passes. Returns their objects in order, followed by those in the room, from its end on; and
/// the clocks, each raised to the last stamp of its booth.
pub(crate) fn unlocked<'w>(
    booths: Vec<Booth<One<'w>>>,
    passes: &mut [SplitPass<'w>],
    mut room: Vec<One<'w>>,
    mut clocks: Vec<u64>,
) -> (Vec<One<'w>>, Vec<u64>)
    requires some { 0 < length passes.old }
    requires seated { All (λ booth. seats_of booth ≡ length passes.old) booths.items }
    requires turns { HaveTurns booths.items passes.old }
    requires room { length room.items + length booths.items ≤ vec_capacity room }
    requires clocks { length booths.items ≤ length clocks.items }
    ensures { AllUnlocked booths.entry.items passes.old clocks.items room.entry.items result.0.items result.1.items }
{
    unlock_all(booths, passes, &mut room, clocks.as_mut_slice());
    room.reverse();
    (room, clocks)
}

// Closes all booths, from the last to the first, and puts their objects into the room in that order. Each clock is raised to
// the last stamp of its booth.
fn unlock_all<'w>(
    mut booths: Vec<Booth<One<'w>>>,
    passes: &mut [SplitPass<'w>],
    room: &mut Vec<One<'w>>,
    clocks: &mut [u64],
)
    requires some { 0 < length passes.old }
    requires seated { All (λ booth. seats_of booth ≡ length passes.old) booths.items }
    requires turns { HaveTurns booths.items passes.old }
    requires room { length room.old.items + length booths.items ≤ vec_capacity room.old }
    requires clocks { length booths.items ≤ length clocks.old }
    ensures { AllClosed booths.entry.items passes.old clocks.old room.old.items room.new.items clocks.new }
{
    while let Some(booth) = booths.pop() {
        let Closed { object, clock } = closed(booth, passes);
        raise(clocks, booths.len(), clock);
        room.push_reserved(object);
    }
}

// The clock of this number is raised.
fn raise(clocks: &mut [u64], number: usize, clock: u64)
    requires { number < length clocks.old }
    ensures { clocks.new ≡ slice_set clocks.old number (max (slice_index clocks.old number) clock) }
{
    clocks[number] = clocks[number].max(clock);
}
