//! Rows on what is no life of a unit, on what are no lives of a workload's units, on what are no stamps, and on streams that
//! are not spent.

ghost use Rattle.abt_rows.specs.Refused.{AreNoLives, IsNoLife, IsNotLeast, IsNotSpent, IsNotStamped, asked_after_a_step, asked_inside, barred, barred_inside, done_after_a_step, ended_itself, exiting, exiting_last, falling, from_zero, gap, going_back, going_on, late, left_itself, level, level_at_a_pool, looked_at_unborn, first_step_twice, never_left, one_step, revived_alive, scheduler, stepless, tasklet, thread, three_units, two_operations, two_steps};

/// A thread is not done without all its steps.
pub fn thread_done_too_early()
    ensures { IsNoLife thread stepless }
{}

/// Nor is a tasklet.
pub fn tasklet_done_too_early()
    ensures { IsNoLife tasklet stepless }
{}

/// A scheduler unit is not done if it did not enter.
pub fn scheduler_done_too_early()
    ensures { IsNoLife scheduler stepless }
{}

/// Nor if it did not leave.
pub fn scheduler_done_inside()
    ensures { IsNoLife scheduler never_left }
{}

/// A scheduler unit makes no step.
pub fn scheduler_makes_a_step()
    ensures { IsNoLife scheduler one_step }
{}

/// A thread makes no more steps than it has operations.
pub fn thread_makes_too_many_steps()
    ensures { IsNoLife thread two_operations }
{}

/// Nor does a tasklet.
pub fn tasklet_makes_too_many_steps()
    ensures { IsNoLife tasklet two_operations }
{}

/// No operation is made twice.
pub fn step_made_twice()
    ensures { IsNoLife thread first_step_twice }
{}

/// Nothing comes after an end.
pub fn event_after_the_end()
    ensures { IsNoLife thread going_on }
{}

/// A thread does not end for lack of access.
pub fn thread_barred()
    ensures { IsNoLife thread barred }
{}

/// A scheduler unit that has entered does not end by a request.
pub fn scheduler_asked_inside()
    ensures { IsNoLife scheduler asked_inside }
{}

/// Nor does it end for lack of access.
pub fn scheduler_barred_inside()
    ensures { IsNoLife scheduler barred_inside }
{}

/// A thread does not end itself without an `exit`.
pub fn thread_exits_without_its_operation()
    ensures { IsNoLife thread ended_itself }
{}

/// A thread makes no step after its `exit`.
pub fn step_after_the_exit()
    ensures { IsNoLife exiting two_operations }
{}

/// A thread that has made its `exit` does not end by a request.
pub fn asked_after_the_exit()
    ensures { IsNoLife exiting asked_after_a_step }
{}

/// Nor is it done then, although it has made all its steps.
pub fn done_after_the_exit()
    ensures { IsNoLife exiting_last done_after_a_step }
{}

/// A tasklet does not end itself.
pub fn tasklet_exits()
    ensures { IsNoLife tasklet ended_itself }
{}

/// Nor does a scheduler unit.
pub fn scheduler_exits()
    ensures { IsNoLife scheduler left_itself }
{}

/// No unit is revived before it has ended.
pub fn revived_before_its_end()
    ensures { AreNoLives three_units revived_alive }
{}

/// An unborn unit has no event.
pub fn event_of_an_unborn_unit()
    ensures { AreNoLives three_units looked_at_unborn }
{}

/// Stamps begin at 1.
pub fn stamps_from_zero()
    ensures { IsNotStamped from_zero }
{}

/// Stamps leave no gap.
pub fn stamps_with_a_gap()
    ensures { IsNotStamped gap }
{}

/// Stamps do not fall, also between events that share nothing.
pub fn stamps_that_fall()
    ensures { IsNotStamped going_back }
{}

/// Events of equal stamp stand in order of stream.
pub fn stamps_out_of_order()
    ensures { IsNotStamped falling }
{}

/// Stamps rise along each stream.
pub fn stamps_that_stay()
    ensures { IsNotStamped level }
{}

/// Stamps rise along each object, also if two streams touch it.
pub fn stamps_that_stay_at_a_pool()
    ensures { IsNotStamped level_at_a_pool }
{}

/// A stamp is the least that the rule allows.
pub fn stamp_above_the_least()
    ensures { IsNotLeast late }
{}

/// A stream that has made more steps than it may make is not spent.
pub fn past_its_budget()
    ensures { IsNotSpent 1 two_steps }
{}

/// Nor is one that has made fewer.
pub fn below_its_budget()
    ensures { IsNotSpent 3 two_steps }
{}
