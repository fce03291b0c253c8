//! Rows of two streams that share pools, with journals. Each row speaks of one run of its workload.

ghost use Rattle.abt_rows.specs.Rows.{IsWorked, stored};
ghost use Rattle.abt_rows.specs.Sharing.{owner_and_thief_text, owner_and_thief_journal, owner_and_thief_report, migrations_to_both_text, migrations_to_both_journal, migrations_to_both_report, others_pools_text, others_pools_journal, others_pools_report, second_pool_barred_text, second_pool_barred_journal, second_pool_barred_report, cancelled_before_barred_text, cancelled_before_barred_journal, cancelled_before_barred_report, sites_untouched_text, sites_untouched_journal, sites_untouched_report};

/// The stream whose main scheduler lists a deque first takes at its back, also if the scheduler is not
/// of the stream's number; the other takes at its front.
pub fn owner_and_thief()
    ensures { IsWorked stored 10000 owner_and_thief_text owner_and_thief_journal owner_and_thief_report }
{}

/// A unit migrates to the pool that the main scheduler of the named stream lists first.
pub fn migrations_to_both()
    ensures { IsWorked stored 10000 migrations_to_both_text migrations_to_both_journal migrations_to_both_report }
{}

/// All streams take from an SPMC pool, into which its producer alone puts; all put into an MPSC pool,
/// from which its consumer alone takes.
pub fn others_pools()
    ensures { IsWorked stored 10000 others_pools_text others_pools_journal others_pools_report }
{}

/// A scheduler unit ends at once if its stream must not take from its second pool.
pub fn second_pool_barred()
    ensures { IsWorked stored 10000 second_pool_barred_text second_pool_barred_journal second_pool_barred_report }
{}

/// A cancel request goes before a pool that is barred.
pub fn cancelled_before_barred()
    ensures { IsWorked stored 10000 cancelled_before_barred_text cancelled_before_barred_journal cancelled_before_barred_report }
{}

/// A yield and an operation that is refused for lack of access touch no object: an event of another
/// stream at the desk of their unit may have the same stamp.
pub fn sites_untouched()
    ensures { IsWorked stored 10000 sites_untouched_text sites_untouched_journal sites_untouched_report }
{}
