//! The waves of a run.

use abt_machine::Items;

/// The numbers of some streams.
pub type Numbers = Items<u32>;

/// One wave: how many events came before it, and its streams, in order of number.
#[derive(Drop)]
pub struct Wave {
    pub from: u64,
    pub streams: Numbers,
}

/// All waves of a run, in their order.
pub type Waves = Items<Wave>;
