//! Which stream or object holds a unit, and what is shown of it.

ghost use Rattle.abt_calls.specs.Holders.{UnitsAreHeldOnce};
ghost use Rattle.abt_calls.specs.Showing.{RowsAreTheStates, UnitsHaveRows};
ghost use Rattle.abt_calls.specs.Totals.{AllUnitsOnce};

/// In a sound state each declared unit is held once.
pub fn units_are_held_once()
    ensures { UnitsAreHeldOnce }
{}

/// In a sound state all streams and objects hold as many units as the workload has, one of each number.
pub fn all_units_once()
    ensures { AllUnitsOnce }
{}

/// All units that a stream or an object holds have their rows.
pub fn units_have_rows()
    ensures { UnitsHaveRows }
{}

/// What is shown of a unit by who holds it is what the state shows.
pub fn rows_are_the_states()
    ensures { RowsAreTheStates }
{}
