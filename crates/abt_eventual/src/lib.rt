//! Eventuals and futures: values that units wait for.
#![tactic(auto)]

mod eventual;
mod future;
mod laws;
mod waking;

pub use eventual::Eventual;
pub use future::Future;
pub use laws::{
    eventuals_keep_what_fits, futures_keep_what_fits, futures_stay_sound,
    ready_eventuals_have_no_waiters,
};
