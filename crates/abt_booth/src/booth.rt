//! A booth, its seats, and what its calls answer.
ghost use Rattle.std.specs.Prelude.{◌≡◌, ◌≤◌, suc, [], false};

use crate::object::Object;
use crate::rule::{Kept, Knows, Opening, Turns};
use atomic_table::Table;
use std::alloc::Global;
use std::sync::atomic::AtomicU64;

pub(crate) type Raw<O> = atomic_table::Seat<Kept<O>, Knows<O>>;

/// A lock round an object. Threads share it by reference; each calls with a seat of its own.
#[derive(Drop)]
pub struct Booth<O: Object> {
    pub(crate) table: Table<Kept<O>, Knows<O>, Opening<O>, Turns<O>, Global>,
    // How many callers sleep until the turn is given back, or are about to.
    pub(crate) asleep: AtomicU64,
    ghost shape: { (table.shared.table_id.words ≡ 7) × (table.shared.table_id.slots ≡ 1) },
    ghost seated: { 1 ≤ table.shared.key.seats },
}

/// The right of one caller to call. It takes no bytes, and may go to another thread.
#[derive(Drop)]
pub struct Seat<O: Object> {
    pub(crate) raw: Raw<O>,
    ghost rests: { (raw.me.1 ≡ []) × (raw.me.0.holds ≡ false) × (raw.me.0.next ≡ suc raw.me.0.number) × (raw.me.0.taken ≡ []) },
}

/// Seats that make no more calls, gathered so that the booth can be closed. It takes no bytes.
#[derive(Drop)]
pub struct Gathered<O: Object> {
    pub(crate) raw: Raw<O>,
    ghost rests: { (raw.me.0.holds ≡ false) × (raw.me.0.next ≡ suc raw.me.0.number) },
}

/// What a call answered.
#[derive(Drop)]
pub enum Called<O: Object> {
    /// The object answered, and the call has this stamp.
    Done { stamp: u64, answer: O::Answer },
    /// The clock is at its last stamp. Nothing was done, and the act comes back.
    Worn(O::Act),
}

/// What a booth leaves.
#[derive(Drop)]
pub struct Closed<O> {
    /// The object after all calls.
    pub object: O,
    /// The last stamp, 0 if there was no call.
    pub clock: u64,
}
