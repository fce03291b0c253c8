//! Rows on stacked schedulers.

ghost use Rattle.abt_rows.specs.Rows.{IsReported, IsWorked, stored};
ghost use Rattle.abt_rows.specs.Schedulers.{stacked_text, stacked_journal, stacked_report, woken_too_late_text, woken_too_late_report, scheduler_not_migratable_text, scheduler_not_migratable_report, scheduler_cancelled_text, scheduler_cancelled_journal, scheduler_cancelled_report, entered_afresh_text, entered_afresh_journal, entered_afresh_report, round_below_text, round_below_journal, round_below_report, left_after_a_round_text, left_after_a_round_journal, left_after_a_round_report, deque_below_text, deque_below_journal, deque_below_report, generator_of_scheduler_text, generator_of_scheduler_journal, generator_of_scheduler_report, nested_text, nested_journal, nested_report, cancelled_inside_text, cancelled_inside_journal, cancelled_inside_report};

/// A scheduler unit runs its pools on top of the main scheduler until they are empty, and again
/// when it is revived.
pub fn stacked()
    ensures { IsWorked stored 10000 stacked_text stacked_journal stacked_report }
{}

/// A unit that is woken after its scheduler has ended stays in its pool.
pub fn woken_too_late()
    ensures { IsReported stored 10000 woken_too_late_text woken_too_late_report }
{}

/// A scheduler unit is never migratable.
pub fn scheduler_not_migratable()
    ensures { IsReported stored 10000 scheduler_not_migratable_text scheduler_not_migratable_report }
{}

/// A scheduler unit that is asked to cancel does not enter.
pub fn scheduler_cancelled()
    ensures { IsWorked stored 10000 scheduler_cancelled_text scheduler_cancelled_journal scheduler_cancelled_report }
{}

/// A scheduler that is entered begins with its first round.
pub fn entered_afresh()
    ensures { IsWorked stored 10000 entered_afresh_text entered_afresh_journal entered_afresh_report }
{}

/// The scheduler below a stacked one goes on with its next round.
pub fn round_below()
    ensures { IsWorked stored 10000 round_below_text round_below_journal round_below_report }
{}

/// A stacked scheduler is left after a round that found all its pools empty.
pub fn left_after_a_round()
    ensures { IsWorked stored 10000 left_after_a_round_text left_after_a_round_journal left_after_a_round_report }
{}

/// A stacked scheduler takes at the front of a deque that the main scheduler does not list first.
pub fn deque_below()
    ensures { IsWorked stored 10000 deque_below_text deque_below_journal deque_below_report }
{}

/// RANDWS draws from the generator of its seed and its own number: after its first pool, its
/// first rounds go on at the fourth, the second and the fourth.
pub fn generator_of_scheduler()
    ensures { IsWorked stored 10000 generator_of_scheduler_text generator_of_scheduler_journal generator_of_scheduler_report }
{}

/// A scheduler unit that a stacked scheduler takes is stacked on it, and is left first.
pub fn nested()
    ensures { IsWorked stored 10000 nested_text nested_journal nested_report }
{}

/// A cancel request comes too late for a scheduler unit that has entered.
pub fn cancelled_inside()
    ensures { IsWorked stored 10000 cancelled_inside_text cancelled_inside_journal cancelled_inside_report }
{}
