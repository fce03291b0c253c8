//! Rows on mutexes with several conditions.

ghost use Rattle.abt_rows.specs.Rows.{IsWorked, stored};
ghost use Rattle.abt_rows.specs.Conditions.{two_mutexes_text, two_mutexes_journal, two_mutexes_report};

/// Each of two mutexes has its own owner and its own two conditions, wherever they are declared.
pub fn two_mutexes()
    ensures { IsWorked stored 10000 two_mutexes_text two_mutexes_journal two_mutexes_report }
{}
