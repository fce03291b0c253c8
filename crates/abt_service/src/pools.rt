//! Laws of pools.

ghost use Rattle.abt_machine.specs.Stored.{Stored};
ghost use Rattle.abt_machine.specs.declared.workload.Parts.{Parts};
ghost use Rattle.abt_service.specs.Pools.{EventsKeepPools, FewAreBefore, PooledKeepOrder, TakenInOrder};

/// By every event who is not taken from a pool stands on in its order, and whoever comes stands
/// behind the others.
pub fn events_keep_pools()
    ensures { (W : Parts) (Z : Stored) → EventsKeepPools W Z }
{}

/// Along a run those that are not taken from a pool keep their order, and whoever comes stands behind
/// them.
pub fn pooled_keep_order()
    ensures { (W : Parts) (Z : Stored) → PooledKeepOrder W Z }
{}

/// From a FIFO pool nobody is taken before a unit that came earlier and stands there still.
pub fn taken_in_order()
    ensures { (W : Parts) (Z : Stored) → TakenInOrder W Z }
{}

/// While a unit stands in a FIFO pool behind k others, at most k units are taken from it.
pub fn few_are_before()
    ensures { (W : Parts) (Z : Stored) → FewAreBefore W Z }
{}
