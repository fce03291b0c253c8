//! What becomes of a unit that arrives at a barrier.

use abt_chain::Chain;
use abt_unit::Unit;

/// What becomes of a unit that arrives at a barrier.
#[derive(Drop)]
pub enum Arrival {
    /// It waits.
    Rested,
    /// It goes through, and with it those that waited, in order of arrival.
    Through(Box<Unit>, Chain),
}
