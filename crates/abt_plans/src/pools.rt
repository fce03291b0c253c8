//! Pools that schedulers list.

ghost use Rattle.std.specs.Prelude.{◌≡◌, ◌<◌, Some, length};
ghost use Rattle.std.specs.List.{All, list_all};
ghost use Rattle.abt_machine.specs.Access.{may_take};
ghost use Rattle.abt_machine.specs.Queues.{first};
ghost use Rattle.abt_machine.specs.Fronts.{side_of};
ghost use Rattle.abt_machine.specs.Valid.{IsValid};
ghost use Rattle.abt_machine.specs.Workloads.{main_of, pools_of};
ghost use Rattle.abt_order.specs.Schedulers.{pool_numbers};

use abt_machine::{Kind, PoolNo, Side, StreamNo, Workload};

/// The pool that the main scheduler of a stream lists first.
#[tactic(auto, using(crate::proofs::Listed::first_pool_declared))]
pub(crate) fn first_pool(w: &Workload, r: StreamNo) -> PoolNo
    requires valid { IsValid w.now }
    requires stream { r.0 < w.now.streams }
    ensures first { first (pools_of w.now (main_of w.now r.0)) ≡ Some result.0 }
    ensures declared { result.0 < length w.now.pools }
{
    front_of(w.sched(w.main(r)).pools.items())
}

// The first of some pools.
fn front_of(pools: &[PoolNo]) -> PoolNo
    requires { 0 < length pools.now }
    ensures { first (pool_numbers pools.now) ≡ Some result.0 }
{
    pools[0]
}

/// The end of pool `p` at which stream `s` takes.
pub fn side(w: &Workload, s: StreamNo, p: PoolNo) -> Side
    requires valid { IsValid w.now }
    requires stream { s.0 < w.now.streams }
    requires pool { p.0 < length w.now.pools }
    ensures { result ≡ side_of w.now s.0 p.0 }
{
    match w.pool(p).kind {
        Kind::Fifo => Side::Front,
        Kind::Deque => {
            if first_pool(w, s).0 == p.0 {
                Side::Back
            } else {
                Side::Front
            }
        }
    }
}

/// Whether a stream may take from each of these pools.
#[tactic(auto, using(crate::proofs::Listed::others_declared))]
pub(crate) fn takes_all(w: &Workload, s: StreamNo, pools: &[PoolNo]) -> bool
    requires stream { s.0 < w.now.streams }
    requires pools { All (λ p. p < length w.now.pools) (pool_numbers pools.now) }
    ensures { result ≡ list_all (may_take w.now s.0) (pool_numbers pools.now) }
{
    match pools.split_first() {
        None => true,
        Some((p, others)) => w.may_take(s, *p) && takes_all(w, s, others),
    }
}
