//! Whether each scheduler's order is the same in each round.

ghost use Rattle.std.specs.Prelude.{◌≡◌, ◌<◌, ◌↔◌, IfNone, IfSome, IsTrue, length};
ghost use Rattle.abt_explore.specs.Orders.{KeepsOrder, MayChange, turns};
ghost use Rattle.abt_machine.specs.Workloads.{rule_of};
ghost use Rattle.abt_order.specs.Stored.{shapes_of};

use abt_machine::{OrderShape, Rule, SchedNo, Workload};
use abt_order::StoredOrder;

/// The first scheduler that may visit its pools in another order in another round, if there is one: its order is random or
/// rotates, and it lists more than one pool.
pub fn first_changing(w: &Workload, orders: &[StoredOrder]) -> Option<SchedNo>
    ensures keeps { IfNone result (KeepsOrder w.now (shapes_of orders.now)) }
    ensures changes { IfSome result (λ g. MayChange w.now (shapes_of orders.now) g.0) }
{
    for g in 0..w.scheds() {
        if may_change(w, orders, SchedNo(g)) {
            return Some(SchedNo(g));
        }
    }
    None
}

// Whether a scheduler may visit its pools in another order in another round.
fn may_change(w: &Workload, orders: &[StoredOrder], g: SchedNo) -> bool
    requires { g.0 < length w.now.scheds }
    ensures { IsTrue result ↔ MayChange w.now (shapes_of orders.now) g.0 }
{
    let sched = w.sched(g);
    sched.pools.items().len() > 1 && turns(orders, sched.rule)
}

// Whether the order of a round depends on its number.
fn turns(orders: &[StoredOrder], rule: Rule) -> bool
    ensures { result ≡ turns (shapes_of orders.now) rule }
{
    match rule {
        Rule::Basic | Rule::Prio => false,
        Rule::Randws(_) => true,
        Rule::User(k) => match orders.get(k as usize) {
            Some(order) => order.shape() == OrderShape::Rotate,
            None => false,
        },
    }
}
