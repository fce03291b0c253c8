//! Laws of the texts of journals and reports.

ghost use Rattle.abt_machine.specs.Stored.{Stored};
ghost use Rattle.abt_machine.specs.declared.workload.Parts.{Parts};
ghost use Rattle.abt_bounds.specs.Laws.{JournalTextsDiffer, LongNumbersCoincide, RunTextsDiffer, RunsNameDeclared, TalliesAddUp};

/// Different journals have different texts.
pub fn journal_texts_differ()
    ensures { JournalTextsDiffer }
{}

/// This does not hold for longer numbers.
pub fn long_numbers_coincide()
    ensures { LongNumbersCoincide }
{}

/// Every event of a run is of a declared stream and names declared things.
pub fn runs_name_declared()
    ensures { (W : Parts) (Z : Stored) → RunsNameDeclared W Z }
{}

/// So different stamped runs have different texts.
pub fn run_texts_differ()
    ensures { (W : Parts) (Z : Stored) → RunTextsDiffer W Z }
{}

/// Each unit of a report is counted once: the numbers of a tally add up to its units.
pub fn tallies_add_up()
    ensures { TalliesAddUp }
{}
