//! What streams and objects hold at the start, and how many conditions a mutex has.

ghost use Rattle.abt_calls.specs.Starts.{ConditionsAreCounted, ConditionsAreNumbered, ObjectsStart, PartsStart};

/// The objects of the first state, by value.
pub fn objects_start()
    ensures { ObjectsStart }
{}

/// The streams of the first state, by value.
pub fn parts_start()
    ensures { PartsStart }
{}

/// A mutex has as many conditions as things that name it.
pub fn conditions_are_counted()
    ensures { ConditionsAreCounted }
{}

/// A condition's number is below the number of its mutex's conditions.
pub fn conditions_are_numbered()
    ensures { ConditionsAreNumbered }
{}
