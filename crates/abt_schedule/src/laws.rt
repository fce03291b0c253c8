//! Laws of runs by a chosen schedule.

ghost use Rattle.abt_machine.specs.Stored.{Stored};
ghost use Rattle.abt_machine.specs.declared.workload.Parts.{Parts};
ghost use Rattle.abt_schedule.specs.Seeds.{OneRunASeed};

/// A seed makes one run, if no order and no function may answer anything.
pub fn one_run_a_seed()
    ensures { (W : Parts) (Z : Stored) → OneRunASeed W Z }
{}
