//! Rows on operations that compute and that call functions, and on what are no calls.

ghost use Rattle.std.specs.Prelude.{ℕ, ◌<◌, ◌^◌};
ghost use Rattle.abt_rows.specs.Rows.{IsReported, IsWorked, stored};
ghost use Rattle.abt_rows.specs.Calls.{calc_sums_text, calc_sums_report, calc_quotients_text, calc_quotients_report, calc_orders_text, calc_orders_report, calc_bits_text, calc_bits_report, calc_divisors_text, calc_divisors_report, calls_with_keys_text, calls_with_keys_journal, calls_with_keys_report, call_wraps_text, call_wraps_journal, call_wraps_report, call_in_a_tasklet_text, call_in_a_tasklet_journal, call_in_a_tasklet_report, cancelled_before_its_call_text, cancelled_before_its_call_journal, cancelled_before_its_call_report, calls_of_two_streams_text, calls_of_two_streams_journal, calls_of_two_streams_report, free_call_text, free_call_journal, free_call_report, right_call, wrong_word, step_at_a_call, call_of_another, call_at_a_step, call_twice, no_word, GoesOn, IsRefused};

/// Sums, differences and products are taken modulo 2^64.
pub fn calc_sums()
    ensures { IsReported stored 10000 calc_sums_text calc_sums_report }
{}

/// A quotient by 0 is 0, and a remainder by 0 is the accumulator.
pub fn calc_quotients()
    ensures { IsReported stored 10000 calc_quotients_text calc_quotients_report }
{}

/// The minimum, the maximum, whether the accumulator is the key, and whether it is less.
pub fn calc_orders()
    ensures { IsReported stored 10000 calc_orders_text calc_orders_report }
{}

/// Bits in common, in either, and in one alone.
pub fn calc_bits()
    ensures { IsReported stored 10000 calc_bits_text calc_bits_report }
{}

/// The greatest common divisor, which with 0 is the other number.
pub fn calc_divisors()
    ensures { IsReported stored 10000 calc_divisors_text calc_divisors_report }
{}

/// A function sees the number of its unit, its accumulator and its keys, and what it returns becomes the accumulator.
pub fn calls_with_keys()
    ensures { IsWorked stored 10000 calls_with_keys_text calls_with_keys_journal calls_with_keys_report }
{}

/// What a function returns is taken modulo 2^64.
pub fn call_wraps()
    ensures { IsWorked stored 10000 call_wraps_text call_wraps_journal call_wraps_report }
{}

/// A tasklet may call.
pub fn call_in_a_tasklet()
    ensures { IsWorked stored 10000 call_in_a_tasklet_text call_in_a_tasklet_journal call_in_a_tasklet_report }
{}

/// A unit that is cancelled before its call does not call.
pub fn cancelled_before_its_call()
    ensures { IsWorked stored 10000 cancelled_before_its_call_text cancelled_before_its_call_journal cancelled_before_its_call_report }
{}

/// Calls of two streams may have one stamp.
pub fn calls_of_two_streams()
    ensures { IsWorked stored 10000 calls_of_two_streams_text calls_of_two_streams_journal calls_of_two_streams_report }
{}

/// A function of which nothing is known may return any word.
pub fn free_call()
    ensures { (n : ℕ) → n < 2 ^ 64 → IsWorked stored 10000 free_call_text (free_call_journal n) (free_call_report n) }
{}

/// A call is a run's event if its function may return its word.
pub fn may_return()
    ensures { GoesOn right_call }
{}

/// A call returns no word but that of its function.
pub fn returns_another_word()
    ensures { IsRefused wrong_word }
{}

/// An operation that calls makes no step.
pub fn step_where_it_calls()
    ensures { IsRefused step_at_a_call }
{}

/// Only the unit in the stream's hand calls.
pub fn calls_out_of_hand()
    ensures { IsRefused call_of_another }
{}

/// An operation that does not call makes no call.
pub fn calls_where_it_steps()
    ensures { IsRefused call_at_a_step }
{}

/// No operation calls twice.
pub fn calls_twice()
    ensures { IsRefused call_twice }
{}

/// What is no word is not returned, not even by a function of which nothing is known.
pub fn returns_no_word()
    ensures { IsRefused no_word }
{}
