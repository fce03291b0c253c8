//! Which pool a round may visit next.

ghost use Rattle.std.specs.Prelude.{◌≡◌, ◌==◌, ◌↔◌, ℕ, Contains, IfNone, IfSome, IsTrue, Some, length, option_map};
ghost use Rattle.std.specs.List.{list_any};
ghost use Rattle.abt_bounds.specs.Laws.{visited};
ghost use Rattle.abt_machine.specs.Rounds.{IsNextPool, OrdersStored, choice_of};
ghost use Rattle.abt_machine.specs.Sound.{IsUnderWay};
ghost use Rattle.abt_machine.specs.Valid.{IsValid};
ghost use Rattle.abt_order.specs.Schedulers.{pool_numbers};
ghost use Rattle.abt_replay.specs.Nexts.{NextIs};
ghost use Rattle.abt_machine.specs.declared.numbers.PoolNo.{PoolNo};

use abt_machine::{OrderShape, PoolNo, What, Workload};
use abt_replay::{Frame, Next, pool_at};

/// The pool that `named` visits, if the frame's round may visit it next. `z` has the shapes of the stored orders.
pub(crate) fn next_visited(
    w: &Workload,
    z: &[OrderShape],
    frame: &Frame,
    named: &What,
) -> Option<PoolNo>
    requires valid { IsValid w.now }
    requires stored { OrdersStored w.now z.now }
    requires under_way { IsUnderWay w.now z.now frame.now }
    ensures named { IfSome result (λ p. visited named.now ≡ Some p.0) }
    ensures next { IfSome result (λ p. IsNextPool w.now z.now frame.now p.0) }
    ensures none { IfNone result ((p : ℕ) → visited named.now ≡ Some p → IsNextPool w.now z.now frame.now p → ⊥) }
{
    let Some(p) = visited(named) else {
        return None;
    };
    if !may_visit(w, z, frame, p) {
        return None;
    }
    Some(p)
}

// The pool that an event visits, if it is of a round.
fn visited(what: &What) -> Option<PoolNo>
    ensures { option_map (λ (p : PoolNo). p.0) result ≡ visited what.now }
{
    match *what {
        What::Miss(p) | What::Take(p, _) => Some(p),
        _ => None,
    }
}

/// Whether the pool may be the next of the frame's round.
pub(crate) fn may_visit(w: &Workload, z: &[OrderShape], frame: &Frame, p: PoolNo) -> bool
    requires valid { IsValid w.now }
    requires stored { OrdersStored w.now z.now }
    requires under_way { IsUnderWay w.now z.now frame.now }
    ensures { IsTrue result ↔ IsNextPool w.now z.now frame.now p.0 }
{
    match next_pool(w, z, frame) {
        Next::One(next) => next.0 == p.0,
        Next::Any => is_open(w.sched(frame.sched).pools.items(), frame.seen.as_slice(), p),
    }
}

/// The next pool of the frame's round, or any that it has not seen.
pub(crate) fn next_pool(w: &Workload, z: &[OrderShape], frame: &Frame) -> Next
    requires valid { IsValid w.now }
    requires stored { OrdersStored w.now z.now }
    requires under_way { IsUnderWay w.now z.now frame.now }
    ensures { NextIs (choice_of w.now z.now frame.now.sched frame.now.round) (length frame.now.seen) result }
{
    let sched = w.sched(frame.sched);
    let pools = sched.pools.items();
    let seen = frame.seen.as_slice();
    pool_at(
        w,
        z,
        frame.sched,
        frame.round,
        sched.rule,
        pools,
        seen.len(),
    )
}

// Whether the pool is one of the first and none of the others.
fn is_open(pools: &[PoolNo], seen: &[PoolNo], p: PoolNo) -> bool
    ensures { IsTrue result ↔ (Contains (pool_numbers pools.now) p.0 × (Contains (pool_numbers seen.now) p.0 → ⊥)) }
{
    lists(pools, p) && !lists(seen, p)
}

/// Whether the pool is one of these.
pub(crate) fn lists(pools: &[PoolNo], p: PoolNo) -> bool
    ensures { result ≡ list_any (λ (q : PoolNo). q.0 == p.0) pools.now }
{
    pools.iter().any(|q| q.0 == p.0)
}
