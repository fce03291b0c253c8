//! Making a booth and its seats.
ghost use Rattle.std.specs.Prelude.{vec_len, vec_capacity, ◌≡◌, ◌≤◌, ◌∷◌, [], Some, IfOk, IfErr};
ghost use Rattle.abt_booth.specs.Rule.{keeper};
ghost use Rattle.abt_booth.specs.Seats.{opening_of, seats_of, AreAllSeatsOf, AreNewSeatsOf};

use crate::booth::{Booth, Raw, Seat};
use crate::made::no_calls;
use crate::object::Object;
use crate::plays::Deal;
use crate::rule::{Kept, Lot, Opening, ROOM, WORDS};
use atomic_table::{Refused, Table};
use std::alloc::Global;
use std::snapshot::Snapshot;
use std::sync::atomic::AtomicU64;

impl<O: Object> Booth<O> {
    /// A booth round the object, with seats numbered from 0. Err hands the object back: out of memory.
    pub fn make(alloc: Global, object: O, seats: u32) -> Result<(Booth<O>, Vec<Seat<O>>), O>
        requires { 1 ≤ seats }
        ensures booth { IfOk result (λ made. (opening_of made.0 ≡ object) × (seats_of made.0 ≡ seats)) }
        ensures seats { IfOk result (λ made. AreNewSeatsOf made.0 made.1.items) }
        ensures all { IfOk result (λ made. AreAllSeatsOf made.0 made.1.items) }
        ensures refused { IfErr result (λ back. back ≡ object) }
    {
        let room = match Vec::with_capacity(alloc, seats as usize) {
            Ok(room) => room,
            Err(_) => return Err(object),
        };
        let (booth, first) = Booth::open(alloc, object, seats)?;
        let seats = booth.deal(first, room, seats);
        Ok((booth, seats))
    }

    // The booth, with a seat that has every number.
    fn open(alloc: Global, object: O, seats: u32) -> Result<(Booth<O>, Raw<O>), O>
        requires { 1 ≤ seats }
        ensures booth { IfOk result (λ made. (opening_of made.0 ≡ object) × (seats_of made.0 ≡ seats)) }
        ensures seat { IfOk result (λ made. (made.1.table_id ≡ made.0.table.shared.table_id) × (made.1.me ≡ (keeper object seats, []))) }
        ensures refused { IfErr result (λ back. back ≡ object) }
    {
        let mut slots: Vec<Kept<O>> = match Vec::with_capacity(alloc, ROOM) {
            Ok(slots) => slots,
            Err(_) => return Err(object),
        };
        let opening = Opening {
            object: Snapshot::of(&object),
            seats,
        };
        slots.push_reserved(Some(Lot {
            object,
            clock: 0,
            made: no_calls(),
        }));
        match Table::new(alloc, &[0; WORDS], slots, &opening) {
            Ok((table, first)) => {
                let asleep = AtomicU64::new(0);
                Ok((Booth { table, asleep }, first))
            }
            Err(Refused { slots }) => Err(object_in(slots)),
        }
    }

    // A seat for each number, out of the one that has them all.
    fn deal(&self, mut first: Raw<O>, mut room: Vec<Seat<O>>, seats: u32) -> Vec<Seat<O>>
        requires first { (first.table_id ≡ self.now.table.shared.table_id) × (first.me ≡ (keeper (opening_of self.now) seats, [])) }
        requires seats { (1 ≤ seats) × (seats_of self.now ≡ seats) }
        requires room { (room.items ≡ []) × (vec_len room ≡ 0) × (seats ≤ vec_capacity room) }
        ensures { AreNewSeatsOf self.now result.items }
    {
        for i in 0..seats - 1 {
            let raw = self.table.shared.split_seat::<Deal>(&mut first);
            room.push_reserved(Seat { raw });
        }
        room.push_reserved(Seat { raw: first });
        room
    }
}

// The object out of the one slot of a table that was refused.
fn object_in<O, A, R>(mut slots: Vec<Option<Lot<O, A, R>>>) -> O
    requires { (lot : _) × (slots.items ≡ Some lot ∷ []) }
    ensures { (lot : _) → slots.items ≡ Some lot ∷ [] → result ≡ lot.object }
{
    let Some(
        Some(
            Lot {
                object,
                clock: _,
                made: _,
            },
        ),
    ) = slots.pop()
    else {
        unreachable!()
    };
    slots.destroy_empty();
    object
}
