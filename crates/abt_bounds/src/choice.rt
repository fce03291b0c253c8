//! Laws of what comes next.

ghost use Rattle.abt_machine.specs.Stored.{Stored};
ghost use Rattle.abt_machine.specs.declared.workload.Parts.{Parts};
ghost use Rattle.abt_bounds.specs.Laws.{FreeOrdersAreFree, NothingWider, OneAtEachPool, OneNext, OneRunOfTurns, OrdersAreOne, SomeAfter, SomeNext, SomeRunOfTurns};

/// If no order is free, a round has at most one order.
pub fn orders_are_one()
    ensures { (W : Parts) (Z : Stored) → OrdersAreOne W Z }
{}

/// If no order and no function is free, a stream of a sound state has at most one event that may come.
pub fn one_next()
    ensures { (W : Parts) (Z : Stored) → OneNext W Z }
{}

/// Whatever the orders and functions, two events of a stream that may come are one, unless they visit different pools or return
/// different words.
pub fn one_at_each_pool()
    ensures { (W : Parts) (Z : Stored) → OneAtEachPool W Z }
{}

/// Each declared stream of a sound state has an event that may come.
pub fn some_next()
    ensures { (W : Parts) (Z : Stored) → SomeNext W Z }
{}

/// And one that leads to some state.
pub fn some_after()
    ensures { (W : Parts) (Z : Stored) → SomeAfter W Z }
{}

/// If no order and no function is free, whose turn it is determines the run.
pub fn one_run_of_turns()
    ensures { (W : Parts) (Z : Stored) → OneRunOfTurns W Z }
{}

/// And declared streams may take their turns in any order.
pub fn some_run_of_turns()
    ensures { (W : Parts) (Z : Stored) → SomeRunOfTurns W Z }
{}

/// A wider relation that has at most one event in each sound state has no event that `May` does not have.
pub fn nothing_wider()
    ensures { (W : Parts) (Z : Stored) → NothingWider W Z }
{}

/// In a free order each pool of the scheduler that the round has not seen may be next.
pub fn free_orders_are_free()
    ensures { (W : Parts) (Z : Stored) → FreeOrdersAreFree W Z }
{}
