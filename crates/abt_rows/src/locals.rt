//! Rows on local operations, yields and tasklets.

ghost use Rattle.abt_rows.specs.Rows.{IsReported, IsWorked, stored};
ghost use Rattle.abt_rows.specs.Locals.{empty_text, empty_journal, empty_report, hi_text, hi_journal, hi_report, two_yields_text, two_yields_journal, two_yields_report, wrap_text, wrap_report, keys_text, keys_report, two_keys_text, two_keys_report, tasklet_text, tasklet_journal, tasklet_report, accumulator_stays_text, accumulator_stays_report};

/// No unit: one empty round.
pub fn empty()
    ensures { IsWorked stored 10000 empty_text empty_journal empty_report }
{}

/// One unit says a word.
pub fn hi()
    ensures { IsWorked stored 10000 hi_text hi_journal hi_report }
{}

/// Two units yield to one another.
pub fn two_yields()
    ensures { IsWorked stored 10000 two_yields_text two_yields_journal two_yields_report }
{}

/// A sum is taken modulo 2^64.
pub fn wrap()
    ensures { IsReported stored 10000 wrap_text wrap_report }
{}

/// A key is a unit's own, and 0 if it was not set.
pub fn keys()
    ensures { IsReported stored 10000 keys_text keys_report }
{}

/// Each key has its own value.
pub fn two_keys()
    ensures { IsReported stored 10000 two_keys_text two_keys_report }
{}

/// A tasklet is created, runs to its end, and is joined.
pub fn tasklet()
    ensures { IsWorked stored 10000 tasklet_text tasklet_journal tasklet_report }
{}

/// The operations that take the accumulator leave it as it is.
pub fn accumulator_stays()
    ensures { IsReported stored 10000 accumulator_stays_text accumulator_stays_report }
{}
