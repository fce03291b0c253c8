//! Rows on births, joins, resumptions, revivals and yields to a unit.

ghost use Rattle.abt_rows.specs.Rows.{IsReported, IsWorked, stored};
ghost use Rattle.abt_rows.specs.Units.{join_text, join_report, join_unborn_text, join_unborn_report, join_self_text, join_self_report, exists_text, exists_report, unborn_refused_text, unborn_refused_report, ended_refused_text, ended_refused_report, resume_too_early_text, resume_too_early_report, yieldto_absent_text, yieldto_absent_report, yieldto_text, yieldto_journal, yieldto_report, revival_text, revival_report, joiners_in_order_text, joiners_in_order_journal, joiners_in_order_report, revived_elsewhere_text, revived_elsewhere_journal, revived_elsewhere_report, resume_joiner_text, resume_joiner_report, resumed_text, resumed_report, yieldto_other_pool_text, yieldto_other_pool_report, yield_keeps_homes_text, yield_keeps_homes_journal, yield_keeps_homes_report, exit_text, exit_journal, exit_report, exit_join_revive_text, exit_join_revive_report};

/// A unit that joins another is woken when that one ends.
pub fn join()
    ensures { IsReported stored 10000 join_text join_report }
{}

/// A join waits, also on a unit that has not been created.
pub fn join_unborn()
    ensures { IsReported stored 10000 join_unborn_text join_unborn_report }
{}

/// A unit that joins itself waits for ever.
pub fn join_self()
    ensures { IsReported stored 10000 join_self_text join_self_report }
{}

/// A unit is created once. One that must not migrate is not asked to.
pub fn exists()
    ensures { IsReported stored 10000 exists_text exists_report }
{}

/// A unit that is unborn cannot be resumed, cancelled, migrated or revived.
pub fn unborn_refused()
    ensures { IsReported stored 10000 unborn_refused_text unborn_refused_report }
{}

/// A unit that has ended cannot be cancelled, migrated or created.
pub fn ended_refused()
    ensures { IsReported stored 10000 ended_refused_text ended_refused_report }
{}

/// Only a suspended unit can be resumed.
pub fn resume_too_early()
    ensures { IsReported stored 10000 resume_too_early_text resume_too_early_report }
{}

/// A unit that is not in the named pool is not yielded to.
pub fn yieldto_absent()
    ensures { IsReported stored 10000 yieldto_absent_text yieldto_absent_report }
{}

/// A unit that is yielded to runs before those that stand before it.
pub fn yieldto()
    ensures { IsWorked stored 10000 yieldto_text yieldto_journal yieldto_report }
{}

/// A revived unit begins again, with accumulator and keys 0; its output is kept.
pub fn revival()
    ensures { IsReported stored 10000 revival_text revival_report }
{}

/// All joiners of a unit are woken when it ends, in the order in which they came.
pub fn joiners_in_order()
    ensures { IsWorked stored 10000 joiners_in_order_text joiners_in_order_journal joiners_in_order_report }
{}

/// A unit that is revived goes to the pool that its revival names.
pub fn revived_elsewhere()
    ensures { IsWorked stored 10000 revived_elsewhere_text revived_elsewhere_journal revived_elsewhere_report }
{}

/// A unit that waits for another is not resumed.
pub fn resume_joiner()
    ensures { IsReported stored 10000 resume_joiner_text resume_joiner_report }
{}

/// A suspended unit that is resumed goes on with its next operation.
pub fn resumed()
    ensures { IsReported stored 10000 resumed_text resumed_report }
{}

/// A unit that is in another pool than the named one is not yielded to.
pub fn yieldto_other_pool()
    ensures { IsReported stored 10000 yieldto_other_pool_text yieldto_other_pool_report }
{}

/// A unit that yields to another goes to its own home, and the other keeps its own.
pub fn yield_keeps_homes()
    ensures { IsWorked stored 10000 yield_keeps_homes_text yield_keeps_homes_journal yield_keeps_homes_report }
{}

/// A thread that ends itself makes no further step.
pub fn exit()
    ensures { IsWorked stored 10000 exit_text exit_journal exit_report }
{}

/// A thread that has ended itself can be joined and revived.
pub fn exit_join_revive()
    ensures { IsReported stored 10000 exit_join_revive_text exit_join_revive_report }
{}
