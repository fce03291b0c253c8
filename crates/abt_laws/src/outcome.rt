//! Laws of determinism, and of states in which nothing is left to do.

ghost use Rattle.abt_machine.specs.Stored.{Stored};
ghost use Rattle.abt_machine.specs.declared.workload.Parts.{Parts};
ghost use Rattle.abt_laws.specs.Laws.{EndedIsQuiet, OneAfter, QuietRunsMiss, QuietStays, SpentIsNotQuiet};

/// A state and an event determine the next state.
pub fn one_after()
    ensures { (W : Parts) (Z : Stored) → OneAfter W Z }
{}

/// If every unit is unborn or ended, nothing is left to do.
pub fn ended_is_quiet()
    ensures { (W : Parts) (Z : Stored) → EndedIsQuiet W Z }
{}

/// If nothing is left to do, a stream misses, and nothing is left to do afterwards.
pub fn quiet_stays()
    ensures { (W : Parts) (Z : Stored) → QuietStays W Z }
{}

/// If a stream has used up its steps and would make another, something is left to do.
pub fn spent_is_not_quiet()
    ensures { (W : Parts) (Z : Stored) → SpentIsNotQuiet W Z }
{}

/// Whatever follows if nothing is left to do is a miss, after which nothing is left to do.
pub fn quiet_runs_miss()
    ensures { (W : Parts) (Z : Stored) → QuietRunsMiss W Z }
{}
