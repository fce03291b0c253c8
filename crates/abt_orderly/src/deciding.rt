//! Whether a workload is orderly.

ghost use Rattle.std.specs.Prelude.{◌↔◌, IfOk, IsTrue};
ghost use Rattle.abt_flow.specs.Confluent.{Confluent};
ghost use Rattle.abt_flow.specs.Finishing.{IsOrderly};

use crate::listing::listed_pools;
use crate::passing::Passing;
use crate::placing::has_placed_units;
use abt_machine::{Want, Workload};
use std::alloc::Global;

/// Whether a confluent workload is orderly: units come only to pools that main schedulers list, no operation waits for a barrier,
/// each join joins a reached unit, and all operations have an order in which each comes behind those before it in its unit, the one
/// that creates its unit, the one of a reached unit that sets the eventual that it waits for, and those of the unit that it joins. By
/// the law `orderly_finish` of abt_flow each run of it that ends has finished, if no function that it calls is free and a stream may
/// make as many steps as there are operations. Each operation is looked at a few times. The error is that memory is refused.
pub fn is_orderly(alloc: Global, w: &Workload) -> Result<bool, Want>
    requires { Confluent w.now }
    ensures { IfOk result (λ is. IsTrue is ↔ IsOrderly w.now) }
{
    w.known();
    let listed = listed_pools(alloc, w)?;
    if !has_placed_units(w, &listed) {
        return Ok(false);
    }
    let mut passing = Passing::make(alloc, w)?;
    passing.pass_all(w)?;
    Ok(passing.is_over(w))
}
