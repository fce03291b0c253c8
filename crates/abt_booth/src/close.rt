//! Closing a booth, from its seats.
ghost use Rattle.std.specs.Prelude.{◌≡◌, ◌∷◌, ℕ, [], map};
ghost use Rattle.abt_booth.specs.Calls.{IsClosed};
ghost use Rattle.abt_booth.specs.Seats.{opening_of, seats_of, known_of, number_of, gathered_of, IsSeatOf, AreAllSeatsOf, AreGatheredOf, HasEachNumber, HasNumber};

use crate::booth::{Booth, Closed, Gathered, Seat};
use crate::object::Object;
use crate::plays::Gather;
use crate::rule::Lot;

impl<O: Object> Seat<O> {
    /// The seat makes no more calls, and others of its booth can be gathered to it.
    pub fn retire(self) -> Gathered<O>
        ensures seats { gathered_of result ≡ known_of self ∷ [] }
        ensures number { HasNumber (number_of self) (gathered_of result) }
        ensures booth { (booth : _) → IsSeatOf booth self → AreGatheredOf booth result }
    {
        let Seat { raw } = self;
        Gathered { raw }
    }
}

impl<O: Object> Booth<O> {
    /// The object and the clock at the end, from all the booth's seats. Waits for nobody, and takes no memory.
    pub fn close(self, mut seats: Vec<Seat<O>>) -> Closed<O>
        requires { AreAllSeatsOf self seats.items }
        ensures { IsClosed O.does (opening_of self) (seats_of self) (map known_of seats.items) result.object result.clock }
    {
        let Some(last) = seats.pop() else {
            unreachable!()
        };
        let mut gathered = last.retire();
        while let Some(seat) = seats.pop() {
            self.gather(&mut gathered, seat);
        }
        seats.destroy_empty();
        self.finish(gathered)
    }

    /// Gathers one more seat, which makes no more calls. Takes no memory.
    pub fn gather(&self, gathered: &mut Gathered<O>, seat: Seat<O>)
        requires gathered { AreGatheredOf self.now gathered.old }
        requires seat { IsSeatOf self.now seat }
        ensures booth { AreGatheredOf self.now gathered.new }
        ensures seats { gathered_of gathered.new ≡ known_of seat ∷ gathered_of gathered.old }
        ensures number { HasNumber (number_of seat) (gathered_of gathered.new) }
        ensures others { (number : ℕ) → HasNumber number (gathered_of gathered.old) → HasNumber number (gathered_of gathered.new) }
    {
        let Seat { raw } = seat;
        self.table
            .shared
            .join_seat::<Gather>(&mut gathered.raw, raw);
    }

    /// The object and the clock at the end, once all the booth's seats are gathered. Takes no memory.
    pub fn finish(self, gathered: Gathered<O>) -> Closed<O>
        requires booth { AreGatheredOf self gathered }
        requires seats { HasEachNumber (seats_of self) (gathered_of gathered) }
        ensures { IsClosed O.does (opening_of self) (seats_of self) (gathered_of gathered) result.object result.clock }
    {
        let Booth { table, asleep: _ } = self;
        let Gathered { raw } = gathered;
        let mut closed = table.close_with(raw);
        let Some(lot) = closed.take(0) else {
            unreachable!()
        };
        closed.free();
        let Lot {
            object,
            clock,
            made: _,
        } = lot;
        Closed { object, clock }
    }
}
