//! Seats in order of their numbers.

ghost use Rattle.std.specs.Prelude.{ℕ, ◌<◌, length, map, slice_index_or, Contains};
ghost use Rattle.abt_booth.specs.Seats.{AreInOrder, known_of, seen_of};

use abt_booth::{Object, Seat};

/// The seat with the number of a stream is known by that number and by what it has seen.
pub fn seats_know<B: Object>(seats: &[Seat<B>])
    requires { AreInOrder seats.now }
    ensures { (s : ℕ) (d : _) → s < length seats.now → Contains (map known_of seats.now) (s, seen_of (slice_index_or seats.now s d)) }
{
    let _seats = seats;
}
