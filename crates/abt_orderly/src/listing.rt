//! The pools that main schedulers list.

ghost use Rattle.std.specs.Prelude.{◌+◌, ◌<◌, ◌≡◌, IfOk, length};
ghost use Rattle.abt_orderly.specs.Listing.{AreListed, HasListed};

use abt_machine::{StreamNo, Want, Workload};
use std::alloc::Global;

// Marks the pools that the main scheduler of a stream lists.
fn list_pools(w: &Workload, s: StreamNo, listed: &mut [bool])
    requires stream { s.0 < w.now.streams }
    requires listed { HasListed w.now s.0 listed.old }
    ensures { HasListed w.now (s.0 + 1) listed.new }
{
    w.known();
    for p in w.sched(w.main(s)).pools.items() {
        listed[p.0 as usize] = true;
    }
}

// For each pool whether the main scheduler of some stream lists it.
pub(crate) fn listed_pools(alloc: Global, w: &Workload) -> Result<Vec<bool>, Want>
    ensures { IfOk result (λ listed. AreListed w.now listed.items) }
{
    let mut listed = vec![in alloc; false; w.pools() as usize]?;
    for s in 0..w.streams() {
        list_pools(w, StreamNo(s), &mut listed);
    }
    Ok(listed)
}
