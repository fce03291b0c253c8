//! Making a lock around each object.

ghost use Rattle.std.specs.Prelude.{ℕ, ◌≡◌, ◌+◌, ◌<◌, ◌≤◌, ◌++◌, ◌∷◌, [], length, map, reverse, slice_index_or, vec_capacity, IfOk, OnOk};
ghost use Rattle.std.specs.List.{All};
ghost use Rattle.abt_booth.specs.Seats.{AreNewSeatsOf, opening_of, seats_of};
ghost use Rattle.abt_commons.specs.declared.split.SplitPass.{SplitPass};
ghost use Rattle.abt_commons.specs.Locking.{AreDealt, HaveGot, IsDealt};

use crate::habits::Habits;
use crate::one::One;
use crate::split::SplitPass;
use crate::turn::Turn;
use abt_booth::{Booth, Seat};
use abt_machine::Want;
use std::alloc::{AllocError, Global};

// Passes with no turn, each with room for that count of turns.
pub(crate) fn turnless<'w>(
    alloc: Global,
    streams: u32,
    count: usize,
) -> Result<Vec<SplitPass<'w>>, AllocError>
    ensures { IfOk result (λ passes. AreDealt [] count streams passes.items) }
{
    let mut passes = Vec::with_capacity(alloc, streams as usize)?;
    for stream in 0..streams {
        passes.push_reserved(without_turns(alloc, stream, count)?);
    }
    Ok(passes)
}

// The pass of this stream.
fn without_turns<'w>(alloc: Global, stream: u32, count: usize) -> Result<SplitPass<'w>, AllocError>
    ensures { IfOk result (λ pass. IsDealt [] count stream pass) }
{
    Ok(SplitPass {
        stream,
        turns: Vec::with_capacity(alloc, count)?,
        habits: Habits::new(alloc, count)?,
    })
}

// Makes a booth around each object in the room, from the room's end on, and deals its seats to the passes as turns. Err: out of memory; the
// room has the objects that are left.
pub(crate) fn lock_all<'w>(
    alloc: Global,
    streams: u32,
    room: &mut Vec<One<'w>>,
    booths: &mut Vec<Booth<One<'w>>>,
    passes: &mut [SplitPass<'w>],
) -> Result<(), Want>
    requires some { 1 ≤ streams }
    requires dealt { AreDealt booths.old.items (length room.old.items) streams passes.old }
    requires seated { All (λ booth. seats_of booth ≡ streams) booths.old.items }
    requires place { length booths.old.items + length room.old.items ≤ vec_capacity booths.old }
    ensures dealt { AreDealt booths.new.items (length room.new.items) streams passes.new }
    ensures seated { All (λ booth. seats_of booth ≡ streams) booths.new.items }
    ensures objects { map opening_of booths.new.items ++ reverse room.new.items ≡ map opening_of booths.old.items ++ reverse room.old.items }
    ensures room { vec_capacity room.new ≡ vec_capacity room.old }
    ensures all { OnOk result (room.new.items ≡ []) }
{
    while let Some(one) = room.pop() {
        match Booth::make(alloc, one, streams) {
            Ok((booth, seats)) => {
                deal(&booth, passes, seats);
                booths.push_reserved(booth);
            }
            Err(one) => {
                room.push_reserved(one);
                return Err(Want);
            }
        }
    }
    Ok(())
}

// Each pass gets the seat of its number, as a turn.
fn deal<'w>(booth: &Booth<One<'w>>, passes: &mut [SplitPass<'w>], mut seats: Vec<Seat<One<'w>>>)
    requires seats { AreNewSeatsOf booth.now seats.items }
    requires many { length seats.items ≡ length passes.old }
    requires room { (k : ℕ) (pass : SplitPass) → k < length passes.old → length (slice_index_or passes.old k pass).turns.items < vec_capacity (slice_index_or passes.old k pass).turns }
    ensures { HaveGot booth.now 0 passes.old passes.new }
{
    let _booth = booth;
    let mut left = passes.len();
    while let Some(seat) = seats.pop() {
        left -= 1;
        give(&mut passes[left], Turn::new(seat));
    }
}

fn give<'w>(pass: &mut SplitPass<'w>, turn: Turn<'w>)
    requires { length pass.old.turns.items < vec_capacity pass.old.turns }
    ensures stream { pass.new.stream ≡ pass.old.stream }
    ensures turns { pass.new.turns.items ≡ pass.old.turns.items ++ turn.entry ∷ [] }
    ensures room { vec_capacity pass.new.turns ≡ vec_capacity pass.old.turns }
{
    pass.turns.push_reserved(turn);
}
