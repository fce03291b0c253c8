//! Which streams list each pool.

ghost use Rattle.std.specs.Prelude.{◌<◌, length};

use abt_machine::{Op, PoolNo, StreamNo, UnitNo, Want, Workload};
use std::alloc::Global;

/// Of each pool the streams whose main schedulers list it, as one bit each.
#[derive(Drop)]
pub(crate) struct Listing {
    streams: Vec<u64>,
}

impl Listing {
    /// The pools and streams of a workload. Err: out of memory.
    pub(crate) fn new(alloc: Global, w: &Workload) -> Result<Listing, Want> {
        let mut streams = vec![in alloc; 0u64; w.pools() as usize]?;
        for s in 0..w.streams() {
            mark(&mut streams, w, StreamNo(s));
        }
        Ok(Listing { streams })
    }

    /// The streams that list the pool.
    #[inline(always)]
    pub(crate) fn of(&self, p: PoolNo) -> u64 {
        match self.streams.get(p.0 as usize) {
            Some(streams) => *streams,
            None => u64::MAX,
        }
    }
}

// One stream more lists its pools.
fn mark(streams: &mut [u64], w: &Workload, s: StreamNo)
    requires { s.0 < w.now.streams }
{
    w.known();
    for p in w.sched(w.main(s)).pools.items() {
        if let Some(listing) = streams.get_mut(p.0 as usize) {
            *listing |= bit(s.0);
        }
    }
}

/// Whether no unit calls a function of the user's.
pub(crate) fn calls_none(w: &Workload) -> bool {
    for u in 0..w.units() {
        if calls(w, UnitNo(u)) {
            return false;
        }
    }
    true
}

// Whether the unit calls one.
fn calls(w: &Workload, u: UnitNo) -> bool
    requires { u.0 < length w.now.units }
{
    for op in w.unit(u).body.ops() {
        if matches!(op, Op::Call(_)) {
            return true;
        }
    }
    false
}

/// The bit of a stream. No workload has more than 64 streams.
pub(crate) fn bit(s: u32) -> u64 {
    1u64.rotate_left(s)
}
