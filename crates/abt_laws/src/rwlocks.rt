//! The law of reader-writer locks.

ghost use Rattle.abt_machine.specs.Stored.{Stored};
ghost use Rattle.abt_machine.specs.declared.workload.Parts.{Parts};
ghost use Rattle.abt_laws.specs.Laws.{ReadsStay};

/// While a unit reads a lock, no store to it goes through, and its number stays.
pub fn reads_stay()
    ensures { (W : Parts) (Z : Stored) → ReadsStay W Z }
{}
