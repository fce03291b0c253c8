//! Rows on operations that leave the accumulator.

ghost use Rattle.abt_rows.specs.Rows.{IsWorked, stored};
ghost use Rattle.abt_rows.specs.Accumulators.{kept_by_units_text, kept_by_units_journal, kept_by_units_report, kept_where_units_refuse_text, kept_where_units_refuse_journal, kept_where_units_refuse_report, kept_by_mutexes_text, kept_by_mutexes_journal, kept_by_mutexes_report, kept_by_eventuals_text, kept_by_eventuals_journal, kept_by_eventuals_report, kept_at_a_barrier_text, kept_at_a_barrier_journal, kept_at_a_barrier_report, kept_by_a_resumption_text, kept_by_a_resumption_journal, kept_by_a_resumption_report, kept_by_a_lock_text, kept_by_a_lock_journal, kept_by_a_lock_report, kept_at_a_condition_text, kept_at_a_condition_journal, kept_at_a_condition_report};

/// What a unit asks of other units leaves its accumulator.
pub fn kept_by_units()
    ensures { IsWorked stored 10000 kept_by_units_text kept_by_units_journal kept_by_units_report }
{}

/// What is refused of other units leaves the accumulator.
pub fn kept_where_units_refuse()
    ensures { IsWorked stored 10000 kept_where_units_refuse_text kept_where_units_refuse_journal kept_where_units_refuse_report }
{}

/// Locks, stores and signals leave the accumulator, and so do operations that a mutex refuses.
pub fn kept_by_mutexes()
    ensures { IsWorked stored 10000 kept_by_mutexes_text kept_by_mutexes_journal kept_by_mutexes_report }
{}

/// Sets and resets leave the accumulator, also if they are refused, and so does the last party of a
/// barrier.
pub fn kept_by_eventuals()
    ensures { IsWorked stored 10000 kept_by_eventuals_text kept_by_eventuals_journal kept_by_eventuals_report }
{}

/// Each unit keeps its accumulator at a barrier.
pub fn kept_at_a_barrier()
    ensures { IsWorked stored 10000 kept_at_a_barrier_text kept_at_a_barrier_journal kept_at_a_barrier_report }
{}

/// A unit that is resumed keeps its accumulator, and so does the one that resumes it.
pub fn kept_by_a_resumption()
    ensures { IsWorked stored 10000 kept_by_a_resumption_text kept_by_a_resumption_journal kept_by_a_resumption_report }
{}

/// A unit that is handed a lock keeps its accumulator, and so does the one that hands it over.
pub fn kept_by_a_lock()
    ensures { IsWorked stored 10000 kept_by_a_lock_text kept_by_a_lock_journal kept_by_a_lock_report }
{}

/// A unit that waits at a condition keeps its accumulator, and so does the one that signals.
pub fn kept_at_a_condition()
    ensures { IsWorked stored 10000 kept_at_a_condition_text kept_at_a_condition_journal kept_at_a_condition_report }
{}
