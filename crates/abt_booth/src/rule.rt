//! What the table under a booth keeps, and what its seats know.

use crate::made::Calls;
use crate::object::Object;
use abt_interleave::Entry;
use atomic_table::TableRule;
use std::collections::LinkedList;
use std::marker::PhantomData;
use std::snapshot::Snapshot;

/// How many words the table has. Three stand on each side of the word of the turn, so that no cache line has two such words.
pub(crate) const WORDS: usize = 7;

/// The word of the turn: an even number while no seat has it, and an odd one while a seat has. It grows with each turn, so that a caller
/// sleeps only through the turn that it found.
pub(crate) const TURN: usize = 3;

/// For how many slots there is room. One is used: the rest keeps what stands behind it out of its cache lines.
pub(crate) const ROOM: usize = 4;

/// What a seat knows. No value of it is made.
/// The seat has the numbers from `number` to before `next`, and those in `taken`, each with the list that its
/// seat had seen.
pub struct View<O, A, R> {
    pub opening: Option<O>,
    pub number: u64,
    pub next: u64,
    pub seen: LinkedList<Entry<A, R>>,
    pub holds: bool,
    pub taken: LinkedList<(u64, LinkedList<Entry<A, R>>)>,
}

/// The object with its clock. The calls that were made in the last turn are for the proof alone and take no bytes.
#[derive(Drop)]
pub struct Lot<O, A, R> {
    pub object: O,
    pub clock: u64,
    pub made: Snapshot<Calls<A, R>>,
}

/// What the table's slot holds.
pub type Kept<O> = Option<Lot<O, <O as Object>::Act, <O as Object>::Answer>>;

/// What a seat of a booth round this object knows.
pub type Knows<O> = View<O, <O as Object>::Act, <O as Object>::Answer>;

/// What a table is made with.
#[derive(Drop)]
pub struct Opening<O> {
    pub object: Snapshot<O>,
    pub seats: u32,
}

/// The rule of a booth's table.
pub struct Turns<O> {
    of: PhantomData<O>,
}

impl<O: Object> TableRule<Option<Lot<O, O::Act, O::Answer>>, View<O, O::Act, O::Answer>, Opening<O>>
    for Turns<O> {
    ghost use Rattle.abt_booth.specs.Rule.{Kept, keeper};

    ghost holds = { λ k. Kept O.does k.object.value k.seats };

    ghost first = { λ k. keeper k.object.value k.seats };
}
