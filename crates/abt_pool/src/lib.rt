//! Pools: FIFO and deque pools of ready units.
#![tactic(auto)]

mod laws;
mod pool;

pub use laws::pools_keep_what_fits;
pub use pool::Pool;
