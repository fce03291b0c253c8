//! Functions that users store: folds, which a future calls when its last value is set, and ends, which a ring of keys calls for
//! the values of its keys. `abtfold` is the top call of a program that folds the numbers of many threads behind a lock with seats.
#![tactic(auto)]

mod acts;
mod end;
mod fold;
mod folding;
mod future;
mod program;
mod ring;
mod ringing;
mod setting;

pub use acts::{FutureAct, FutureAnswer};
pub use end::{End, EndFunction, StoredEnd};
pub use fold::{Fold, FoldFunction, FoldShape, PlainSum, StoredFold};
pub use folding::fold_on_threads;
pub use future::CalledFuture;
pub use program::{NAME, abtfold};
pub use ring::{KeyRing, RING_LIMIT};
