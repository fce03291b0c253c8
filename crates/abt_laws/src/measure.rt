//! The law of the numbers that bound a run.

ghost use Rattle.abt_machine.specs.Stored.{Stored};
ghost use Rattle.abt_machine.specs.declared.workload.Parts.{Parts};
ghost use Rattle.abt_laws.specs.Laws.{EventsFall};

/// A step lowers the steps left; every other event keeps them, and lowers the weight of the units
/// or, as a miss that ends the round of a stacked frame empty, the number of open frames.
pub fn events_fall()
    ensures { (W : Parts) (Z : Stored) → EventsFall W Z }
{}
