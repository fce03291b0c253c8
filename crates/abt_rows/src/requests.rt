//! Rows on requests to end and to migrate.

ghost use Rattle.abt_rows.specs.Rows.{IsReported, IsWorked, stored};
ghost use Rattle.abt_rows.specs.Requests.{cancel_suspended_text, cancel_suspended_report, cancel_before_migrate_text, cancel_before_migrate_report, migrate_text, migrate_journal, migrate_report, migrate_to_stream_text, migrate_to_stream_journal, migrate_to_stream_report, last_migrate_counts_text, last_migrate_counts_journal, last_migrate_counts_report, migratable_text, migratable_journal, migratable_report, migratable_stays_text, migratable_stays_report, request_before_ban_text, request_before_ban_journal, request_before_ban_report, revived_after_cancel_text, revived_after_cancel_report, requests_forgotten_text, requests_forgotten_journal, requests_forgotten_report, migrate_suspended_text, migrate_suspended_journal, migrate_suspended_report, yieldto_cancelled_text, yieldto_cancelled_journal, yieldto_cancelled_report, yieldto_migrates_text, yieldto_migrates_journal, yieldto_migrates_report, ban_outlives_the_end_text, ban_outlives_the_end_journal, ban_outlives_the_end_report, exit_while_asked_text, exit_while_asked_journal, exit_while_asked_report, asked_before_exit_text, asked_before_exit_journal, asked_before_exit_report};

/// A blocked unit is not woken by a cancel request, and ends at its next look.
pub fn cancel_suspended()
    ensures { IsReported stored 10000 cancel_suspended_text cancel_suspended_report }
{}

/// A cancel request goes before a migrate request.
pub fn cancel_before_migrate()
    ensures { IsReported stored 10000 cancel_before_migrate_text cancel_before_migrate_report }
{}

/// A migrate request is granted at the next look of the unit.
pub fn migrate()
    ensures { IsWorked stored 10000 migrate_text migrate_journal migrate_report }
{}

/// A unit migrates to the pool that a stream's main scheduler lists first.
pub fn migrate_to_stream()
    ensures { IsWorked stored 10000 migrate_to_stream_text migrate_to_stream_journal migrate_to_stream_report }
{}

/// Of two migrate requests the later one counts.
pub fn last_migrate_counts()
    ensures { IsWorked stored 10000 last_migrate_counts_text last_migrate_counts_journal last_migrate_counts_report }
{}

/// A unit migrates only while it is migratable.
pub fn migratable()
    ensures { IsWorked stored 10000 migratable_text migratable_journal migratable_report }
{}

/// Whether a unit may migrate is kept when it is created; a request asks first whether the unit
/// is alive.
pub fn migratable_stays()
    ensures { IsReported stored 10000 migratable_stays_text migratable_stays_report }
{}

/// A migrate request is granted also if the unit is no longer migratable at its look.
pub fn request_before_ban()
    ensures { IsWorked stored 10000 request_before_ban_text request_before_ban_journal request_before_ban_report }
{}

/// A unit that was asked to end can be revived, and then runs.
pub fn revived_after_cancel()
    ensures { IsReported stored 10000 revived_after_cancel_text revived_after_cancel_report }
{}

/// The requests of a unit are forgotten when it ends.
pub fn requests_forgotten()
    ensures { IsWorked stored 10000 requests_forgotten_text requests_forgotten_journal requests_forgotten_report }
{}

/// A suspended unit that is resumed goes to its home, and migrates at its look.
pub fn migrate_suspended()
    ensures { IsWorked stored 10000 migrate_suspended_text migrate_suspended_journal migrate_suspended_report }
{}

/// A unit that is yielded to ends if it was asked to.
pub fn yieldto_cancelled()
    ensures { IsWorked stored 10000 yieldto_cancelled_text yieldto_cancelled_journal yieldto_cancelled_report }
{}

/// A unit that is yielded to migrates if it was asked to.
pub fn yieldto_migrates()
    ensures { IsWorked stored 10000 yieldto_migrates_text yieldto_migrates_journal yieldto_migrates_report }
{}

/// A unit that has ended can be barred from migrating, and stays so when it is revived.
pub fn ban_outlives_the_end()
    ensures { IsWorked stored 10000 ban_outlives_the_end_text ban_outlives_the_end_journal ban_outlives_the_end_report }
{}

/// A thread that ends itself while a cancel request waits has ended itself: requests are granted at
/// looks alone.
pub fn exit_while_asked()
    ensures { IsWorked stored 10000 exit_while_asked_text exit_while_asked_journal exit_while_asked_report }
{}

/// A thread that is asked to end before its look makes no step, and so does not end itself.
pub fn asked_before_exit()
    ensures { IsWorked stored 10000 asked_before_exit_text asked_before_exit_journal asked_before_exit_report }
{}
