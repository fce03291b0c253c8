//! Rows on reader-writer locks.

ghost use Rattle.abt_rows.specs.Rows.{IsWorked, stored};
ghost use Rattle.abt_machine.specs.declared.events.Code.TheVariants as code;
ghost use Rattle.abt_rows.specs.RwLocks.{ReadsAgain, write_then_read_text, write_then_read_journal, write_then_read_report, reader_refused_text, reader_refused_journal, reader_refused_report, writer_refused_text, writer_refused_journal, writer_refused_report, served_in_order_text, served_in_order_journal, served_in_order_report, writer_behind_a_writer_text, writer_behind_a_writer_journal, writer_behind_a_writer_report, reads_again_text, reads_again_journal, reads_again_report, readers_together_text, readers_together_journal, readers_together_report, waits_for_all_readers_text, waits_for_all_readers_journal, waits_for_all_readers_report, holder_after_end_text, holder_after_end_journal, holder_after_end_report, number_stays_text, number_stays_journal, number_stays_report, kept_by_rwlocks_text, kept_by_rwlocks_journal, kept_by_rwlocks_report};

/// What a writer stored is read by those that waited for it, who get the lock together.
pub fn write_then_read()
    ensures { IsWorked stored 10000 write_then_read_text write_then_read_journal write_then_read_report }
{}

/// A reader must not write, and a unit that does not hold the lock has nothing to give up.
pub fn reader_refused()
    ensures { IsWorked stored 10000 reader_refused_text reader_refused_journal reader_refused_report }
{}

/// A writer must not ask for the lock again, and gives it up by one call.
pub fn writer_refused()
    ensures { IsWorked stored 10000 writer_refused_text writer_refused_journal writer_refused_report }
{}

/// A lock that is given up goes to all readers before the first that wants to write, in order, and
/// then to this one; a reader behind it waits for it.
pub fn served_in_order()
    ensures { IsWorked stored 10000 served_in_order_text served_in_order_journal served_in_order_report }
{}

/// Of two that want to write, the first gets the lock, and the second after it.
pub fn writer_behind_a_writer()
    ensures { IsWorked stored 10000 writer_behind_a_writer_text writer_behind_a_writer_journal writer_behind_a_writer_report }
{}

/// A unit that reads reads again at once while a writer waits; any other reader waits behind the
/// writer.
pub fn reads_again()
    ensures { IsWorked stored 10000 reads_again_text reads_again_journal reads_again_report }
{}

/// Units read at the same time, and what one gives up another goes on reading.
pub fn readers_together()
    ensures { IsWorked stored 10000 readers_together_text readers_together_journal readers_together_report }
{}

/// A unit that wants to write waits until no unit reads.
pub fn waits_for_all_readers()
    ensures { IsWorked stored 10000 waits_for_all_readers_text waits_for_all_readers_journal waits_for_all_readers_report }
{}

/// A unit that ends while it holds the lock goes on holding it.
pub fn holder_after_end()
    ensures { IsWorked stored 10000 holder_after_end_text holder_after_end_journal holder_after_end_report }
{}

/// The number of a lock is 0 at first, and is a writer's to store: it stays when it is loaded and
/// when the lock is given up.
pub fn number_stays()
    ensures { IsWorked stored 10000 number_stays_text number_stays_journal number_stays_report }
{}

/// What units ask of a lock leaves their accumulator, but for a load that goes through.
pub fn kept_by_rwlocks()
    ensures { IsWorked stored 10000 kept_by_rwlocks_text kept_by_rwlocks_journal kept_by_rwlocks_report }
{}

/// A unit reads 65,535 times at once, and not once more.
pub fn full_reader()
    ensures reads { ReadsAgain 65534 code.Ok }
    ensures full { ReadsAgain 65535 code.RwFull }
{}
