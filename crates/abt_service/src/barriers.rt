//! Laws of barriers.

ghost use Rattle.abt_machine.specs.Stored.{Stored};
ghost use Rattle.abt_machine.specs.declared.workload.Parts.{Parts};
ghost use Rattle.abt_service.specs.Laws.{BarrierOpens, BarrierWaits};

/// The last party wakes all that wait.
pub fn barrier_opens()
    ensures { (W : Parts) (Z : Stored) → BarrierOpens W Z }
{}

/// A party that is not the last waits behind those that wait.
pub fn barrier_waits()
    ensures { (W : Parts) (Z : Stored) → BarrierWaits W Z }
{}
