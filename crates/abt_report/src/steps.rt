//! How many steps a journal has.

ghost use Rattle.std.specs.Prelude.{◌≡◌};
ghost use Rattle.abt_machine.specs.Outcomes.{is_step, steps_in};

use abt_machine::{Event, What};

fn is_step(what: What) -> bool
    ensures { result ≡ is_step what }
{
    matches!(what, What::Step(_, _, _) | What::Call(_, _, _))
}

/// How many events are steps.
pub fn count_steps(journal: &[Event]) -> u64
    ensures { result ≡ steps_in journal.now }
{
    journal.iter().filter(|event| is_step(event.what)).count() as u64
}
