//! Laws of the access of pools.

ghost use Rattle.abt_machine.specs.Stored.{Stored};
ghost use Rattle.abt_machine.specs.declared.workload.Parts.{Parts};
ghost use Rattle.abt_bounds.specs.Laws.{BirthsNeedAccess, DeniedAreRefused, EventsKeepAccess, HomesNeedAccess, RequestsNeedAccess, RunsKeepAccess, StartHasAccess, TakersHaveAccess};

/// At the start each stream may take from all pools of the schedulers that it runs.
pub fn start_has_access()
    ensures { (W : Parts) → StartHasAccess W }
{}

/// Each event keeps to the access of pools, and streams may still take from all pools of the
/// schedulers that they run.
pub fn events_keep_access()
    ensures { (W : Parts) (Z : Stored) → EventsKeepAccess W Z }
{}

/// So do all events of every run.
pub fn runs_keep_access()
    ensures { (W : Parts) (Z : Stored) → RunsKeepAccess W Z }
{}

/// An operation is refused for access exactly if its stream must not reach the pool that it names.
pub fn denied_are_refused()
    ensures { (W : Parts) → DeniedAreRefused W }
{}

/// A unit's home becomes only a pool that the event's stream may put into, or at its look the one
/// of its request to migrate. No table of operations is named here or in the next three.
pub fn homes_need_access()
    ensures { (W : Parts) (Z : Stored) → HomesNeedAccess W Z }
{}

/// A unit begins a life only with a home that the event's stream may put into.
pub fn births_need_access()
    ensures { (W : Parts) (Z : Stored) → BirthsNeedAccess W Z }
{}

/// A unit is newly asked to migrate only to a pool that the event's stream may put into.
pub fn requests_need_access()
    ensures { (W : Parts) (Z : Stored) → RequestsNeedAccess W Z }
{}

/// A unit leaves a pool only if the event's stream may take from it, if each stream may take from
/// all pools of the schedulers that it runs.
pub fn takers_have_access()
    ensures { (W : Parts) (Z : Stored) → TakersHaveAccess W Z }
{}
