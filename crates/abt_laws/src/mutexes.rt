//! The law of mutexes.

ghost use Rattle.std.specs.Prelude.{List};
ghost use Rattle.abt_machine.specs.Stored.{Stored};
ghost use Rattle.abt_machine.specs.declared.workload.Parts.{Parts};
ghost use Rattle.abt_laws.specs.Laws.{OwnersAlone};

/// While a unit owns a mutex, only a step of that unit changes its owner or its number.
pub fn owners_alone()
    ensures { (W : Parts) (Z : Stored) → OwnersAlone W Z }
{}
