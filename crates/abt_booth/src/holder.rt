//! A seat that may keep the turn between its calls.
ghost use Rattle.std.specs.Prelude.{◌≡◌, [], suc};

use crate::booth::Raw;
use crate::object::Object;

/// A seat that may keep the turn between its calls. It takes no bytes, and may go to another thread.
///
/// Only `give_back` gives the turn back: if a holder that keeps the turn is dropped, every other caller of its booth waits for ever.
#[derive(Drop)]
pub struct Holder<O: Object> {
    pub(crate) raw: Raw<O>,
    ghost alone: { (raw.me.0.next ≡ suc raw.me.0.number) × (raw.me.0.taken ≡ []) },
}
