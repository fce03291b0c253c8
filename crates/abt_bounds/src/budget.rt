//! Laws of the number of steps.

ghost use Rattle.abt_machine.specs.Stored.{Stored};
ghost use Rattle.abt_machine.specs.declared.workload.Parts.{Parts};
ghost use Rattle.abt_bounds.specs.Laws.{LivesAreFew, StepsAreFew, StepsAreOfLives, StepsBoundBudgets};

/// A run has at most as many steps as its lives have operations.
pub fn steps_are_of_lives()
    ensures { (W : Parts) (Z : Stored) → StepsAreOfLives W Z }
{}

/// Without revivals each unit has at most one life.
pub fn lives_are_few()
    ensures { (W : Parts) (Z : Stored) → LivesAreFew W Z }
{}

/// So a run has at most as many steps as there are operations.
pub fn steps_are_few()
    ensures { (W : Parts) (Z : Stored) → StepsAreFew W Z }
{}

/// And if each stream may make that many, none is ever spent.
pub fn steps_bound_budgets()
    ensures { (W : Parts) (Z : Stored) → StepsBoundBudgets W Z }
{}
