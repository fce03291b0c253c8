//! To which stream a lock belongs: a guess, on which no clause depends.

ghost use Rattle.std.specs.Prelude.{◌<◌};

use abt_machine::{StreamNo, Workload};
use std::alloc::{AllocError, Global};
use std::sync::atomic::{AtomicU64, Ordering};

// To no stream yet: to the first that calls it.
const NOBODY: u64 = 0;

// To no stream any more.
const SHARED: u64 = u64::MAX;

/// To which stream a lock belongs: one more than its number, if there is one.
#[derive(Drop)]
pub(crate) struct Owner {
    word: AtomicU64,
}

impl Owner {
    /// Whether the lock belongs to the stream, which has its turn.
    #[inline(always)]
    pub(crate) fn is(&self, stream: u32) -> bool {
        let mine = u64::from(stream) + 1;
        let found = self.word.load(Ordering::SeqCst);
        found == mine || found == NOBODY && self.claim(mine)
    }

    // Whether the lock, which belongs to nobody yet, is now the stream's.
    #[inline(never)]
    fn claim(&self, mine: u64) -> bool {
        self.word
            .compare_exchange(NOBODY, mine, Ordering::SeqCst, Ordering::SeqCst)
            .is_ok()
    }

    /// The stream has to wait for the lock's turn. Returns whether another stream may keep that, to which the lock no longer
    /// belongs then.
    pub(crate) fn want(&self, stream: u32) -> bool {
        let found = self.word.load(Ordering::SeqCst);
        if found == SHARED || found == u64::from(stream) + 1 {
            return false;
        }
        self.word.store(SHARED, Ordering::SeqCst);
        true
    }

    // One stream more lists the pool behind the lock.
    fn list(&self, stream: u32) {
        let mine = u64::from(stream) + 1;
        let found = self.word.load(Ordering::SeqCst);
        let owner = if found == NOBODY || found == mine {
            mine
        } else {
            SHARED
        };
        self.word.store(owner, Ordering::SeqCst);
    }
}

/// The owners of that many locks before any call: a pool belongs to the only stream whose main scheduler lists it.
pub(crate) fn first_owners(
    alloc: Global,
    w: &Workload,
    count: usize,
) -> Result<Vec<Owner>, AllocError> {
    let mut owners = Vec::with_capacity(alloc, count)?;
    for _ in 0..count {
        let word = AtomicU64::new(NOBODY);
        owners.push_reserved(Owner { word });
    }
    for s in 0..w.streams() {
        list_pools(&owners, w, StreamNo(s));
    }
    Ok(owners)
}

// The stream lists its pools.
fn list_pools(owners: &[Owner], w: &Workload, s: StreamNo)
    requires { s.0 < w.now.streams }
{
    w.known();
    for p in w.sched(w.main(s)).pools.items() {
        if let Some(owner) = owners.get(p.0 as usize) {
            owner.list(s.0);
        }
    }
}
