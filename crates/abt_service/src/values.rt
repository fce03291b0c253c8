//! Laws of eventuals and futures.

ghost use Rattle.abt_machine.specs.Stored.{Stored};
ghost use Rattle.abt_machine.specs.declared.workload.Parts.{Parts};
ghost use Rattle.abt_service.specs.Laws.{FutureGivesAll, FutureOpens, SetGivesAll, SetWakesAll};

/// A set of an eventual wakes all that wait.
pub fn set_wakes_all()
    ensures { (W : Parts) (Z : Stored) → SetWakesAll W Z }
{}

/// The set that fills a future's last compartment wakes all that wait.
pub fn future_opens()
    ensures { (W : Parts) (Z : Stored) → FutureOpens W Z }
{}

/// A set of an eventual gives its value to all that wait.
pub fn set_gives_all()
    ensures { (W : Parts) (Z : Stored) → SetGivesAll W Z }
{}

/// The set that fills a future's last compartment gives the future's value to all that wait.
pub fn future_gives_all()
    ensures { (W : Parts) (Z : Stored) → FutureGivesAll W Z }
{}
