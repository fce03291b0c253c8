//! Laws of a search through the states of a workload.

ghost use Rattle.abt_explore.specs.Alone.{EndsAreMet};
ghost use Rattle.abt_explore.specs.Laws.{
  CountedAreStamped,
  DoneIsReached,
  EndsHaveNoRounds,
  ReachedAreAfter,
  RunsAreSeen,
  StartIsReached,
};
ghost use Rattle.abt_machine.specs.Stored.{Stored};
ghost use Rattle.abt_machine.specs.declared.workload.Parts.{Parts};

/// If one of the models that a search has seen shows the start, and for each event that may come one of them shows what it leads
/// to, each run leads to what one of them shows.
pub fn runs_are_seen()
    ensures { (W : Parts) (Z : Stored) → RunsAreSeen W Z }
{}

/// The same of runs after which nothing is left to do, if an event that touches no object may be tried alone.
pub fn ends_are_met()
    ensures { (W : Parts) (Z : Stored) → EndsAreMet W Z }
{}

/// A model of the start is reached by no event.
pub fn start_is_reached()
    ensures { (W : Parts) (Z : Stored) → StartIsReached W Z }
{}

/// The state that a reached model shows is one to which events can lead.
pub fn reached_are_after()
    ensures { (W : Parts) (Z : Stored) → ReachedAreAfter W Z }
{}

/// What a stream does after a run is reached by the run with one event more.
pub fn done_is_reached()
    ensures { (W : Parts) (Z : Stored) → DoneIsReached W Z }
{}

/// A journal whose stamps count its events is stamped.
pub fn counted_are_stamped()
    ensures { (W : Parts) → CountedAreStamped W }
{}

/// How a state ends, and what is shown of its units, does not depend on the numbers of rounds.
pub fn ends_have_no_rounds()
    ensures { (W : Parts) → EndsHaveNoRounds W }
{}
