//! Laws of lives.

ghost use Rattle.abt_machine.specs.Stored.{Stored};
ghost use Rattle.abt_machine.specs.declared.workload.Parts.{Parts};
ghost use Rattle.abt_laws.specs.Laws.{EndsAreTheJournals, LifeIsTheJournals, RunsLive};

/// In every run each life of each unit follows the rules of lives.
pub fn runs_live()
    ensures { (W : Parts) (Z : Stored) → RunsLive W Z }
{}

/// Along every run a unit's life in the state is its life by the journal.
pub fn life_is_the_journals()
    ensures { (W : Parts) (Z : Stored) → LifeIsTheJournals W Z }
{}

/// After a run every unit is unborn or ended exactly if each life that a unit began has its one end in the journal.
pub fn ends_are_the_journals()
    ensures { (W : Parts) (Z : Stored) → EndsAreTheJournals W Z }
{}
