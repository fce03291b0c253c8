//! The shapes of stored orders, which are all that a model is given of them.

ghost use Rattle.std.specs.Prelude.{◌≡◌, IfOk};
ghost use Rattle.abt_order.specs.Stored.{shapes_of};

use abt_machine::{OrderShape, Want};
use abt_order::StoredOrder;
use std::alloc::Global;

/// The shapes of stored orders. Out of memory is the only error.
pub fn shapes(alloc: Global, orders: &[StoredOrder]) -> Result<Vec<OrderShape>, Want>
    ensures { IfOk result (λ shapes. shapes.items ≡ shapes_of orders.now) }
{
    let mut shapes = Vec::with_capacity(alloc, orders.len())?;
    for order in orders {
        shapes.push(order.shape())?;
    }
    Ok(shapes)
}
