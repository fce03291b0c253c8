//! Rows on spent streams.

ghost use Rattle.abt_rows.specs.Rows.{IsReported, stored};
ghost use Rattle.abt_rows.specs.Budgets.{budget_text, budget_report, budget_of_two_text, budget_of_two_report};

/// Two units revive one another until the stream's fifty steps are spent.
pub fn budget()
    ensures { IsReported stored 50 budget_text budget_report }
{}

/// A unit stays in hand if its stream's two steps are spent.
pub fn budget_of_two()
    ensures { IsReported stored 2 budget_of_two_text budget_of_two_report }
{}
