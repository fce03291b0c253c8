//! Keys with values, whose functions are called for their last values.

ghost use Rattle.std.specs.Prelude.{◌≡◌, ◌≤◌, length, vec_capacity};
ghost use Rattle.abt_callbacks.specs.declared.ring.TheConstants.{RING_LIMIT};

use crate::end::StoredEnd;

/// How many keys a ring has at most.
pub const RING_LIMIT: usize = 16;

/// A ring of 1 to `RING_LIMIT` keys.
#[derive(Drop)]
pub struct KeyRing<E = StoredEnd> {
    pub(crate) ends: Vec<E>,
    pub(crate) values: Vec<Option<u64>>,
    pub(crate) answers: Vec<u64>,
    ghost limits: { (1 ≤ length ends.items) × (length ends.items ≤ RING_LIMIT) },
    ghost room: { (length values.items ≡ length ends.items) × (length ends.items ≤ vec_capacity answers) },
}
