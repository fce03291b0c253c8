//! What every run of adders comes to, whatever the schedule.

ghost use Rattle.std.specs.Prelude.{ℕ};
ghost use Rattle.abt_machine.specs.Stored.{Stored};
ghost use Rattle.abt_adders.specs.Laws.{AdderRuns, AddersAreNotStuck, AddersFinish};
ghost use Rattle.abt_adders.specs.Texts.{AddersReport};

/// Once every unit has ended, n adders have made 8n + 4 steps, unit 0 has put out the sum of the
/// numbers 1 to n, no other unit has put out anything, and each was done.
pub fn adder_runs()
    ensures { (n : ℕ) (Z : Stored) → AdderRuns n Z }
{}

/// If nothing is left to do, every unit is unborn or ended.
pub fn adders_are_not_stuck()
    ensures { (n : ℕ) (Z : Stored) → AddersAreNotStuck n Z }
{}

/// A run that ended has finished, if each stream may make 8n + 4 steps.
pub fn adders_finish()
    ensures { (n : ℕ) (Z : Stored) → AddersFinish n Z }
{}

/// Once every unit has ended, the short report has the sum, as many units that are done, and 8n + 4 steps.
pub fn adders_report()
    ensures { (n : ℕ) (Z : Stored) → AddersReport n Z }
{}
