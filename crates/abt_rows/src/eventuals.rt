//! Rows on eventuals, futures and barriers.

ghost use Rattle.abt_rows.specs.Rows.{IsReported, IsWorked, stored};
ghost use Rattle.abt_rows.specs.Eventuals.{eventual_text, eventual_report, eventual_ready_text, eventual_ready_report, future_and_barrier_text, future_and_barrier_report, future_combinations_text, future_combinations_report, future_reset_text, future_reset_report, barrier_of_three_text, barrier_of_three_journal, barrier_of_three_report, eventual_wakes_in_order_text, eventual_wakes_in_order_journal, eventual_wakes_in_order_report, eventual_reset_text, eventual_reset_report, future_reset_part_filled_text, future_reset_part_filled_report, barrier_again_text, barrier_again_journal, barrier_again_report, future_wakes_in_order_text, future_wakes_in_order_journal, future_wakes_in_order_report, rising_maximum_text, rising_maximum_report};

/// An eventual wakes all its waiters with its value, is set once, and can be reset.
pub fn eventual()
    ensures { IsReported stored 10000 eventual_text eventual_report }
{}

/// A ready eventual returns its value at once.
pub fn eventual_ready()
    ensures { IsReported stored 10000 eventual_ready_text eventual_ready_report }
{}

/// A future of two is ready at its second set, and a barrier of two lets both go on.
pub fn future_and_barrier()
    ensures { IsReported stored 10000 future_and_barrier_text future_and_barrier_report }
{}

/// A future's value is the sum modulo 2^64, the greatest, or the number of what it was filled
/// with.
pub fn future_combinations()
    ensures { IsReported stored 10000 future_combinations_text future_combinations_report }
{}

/// A future that is reset is filled anew.
pub fn future_reset()
    ensures { IsReported stored 10000 future_reset_text future_reset_report }
{}

/// The third unit at a barrier of three wakes the two that wait, in order, and goes on.
pub fn barrier_of_three()
    ensures { IsWorked stored 10000 barrier_of_three_text barrier_of_three_journal barrier_of_three_report }
{}

/// The waiters of an eventual are woken in order.
pub fn eventual_wakes_in_order()
    ensures { IsWorked stored 10000 eventual_wakes_in_order_text eventual_wakes_in_order_journal eventual_wakes_in_order_report }
{}

/// The waiters of an eventual stay at its reset.
pub fn eventual_reset()
    ensures { IsReported stored 10000 eventual_reset_text eventual_reset_report }
{}

/// A future that is reset keeps no compartment, and its waiters stay.
pub fn future_reset_part_filled()
    ensures { IsReported stored 10000 future_reset_part_filled_text future_reset_part_filled_report }
{}

/// A barrier is used again when its parties went on.
pub fn barrier_again()
    ensures { IsWorked stored 10000 barrier_again_text barrier_again_journal barrier_again_report }
{}

/// The waiters of a future are woken in order.
pub fn future_wakes_in_order()
    ensures { IsWorked stored 10000 future_wakes_in_order_text future_wakes_in_order_journal future_wakes_in_order_report }
{}

/// The greatest of a future's values may come last.
pub fn rising_maximum()
    ensures { IsReported stored 10000 rising_maximum_text rising_maximum_report }
{}
