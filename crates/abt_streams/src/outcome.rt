//! How a run on lives ended.

ghost use Rattle.std.specs.Prelude.{◌≡◌, ◌<◌, ◌↔◌, IsTrue, length};
ghost use Rattle.abt_drain.specs.Looks.{AreStreams};
ghost use Rattle.abt_streams.specs.Lives.{AreLives};
ghost use Rattle.abt_streams.specs.Looks.{FindsNothing, IsOutcomeOnLives, IsQuietOnWith};

use crate::life::Life;
use crate::living::is_live;
use abt_commons::Objects;
use abt_drain::{has_empty_pools, has_ended, outcome};
use abt_machine::{Outcome, StreamNo, Workload};
use abt_stream::Stream;

/// How the run of these objects and streams on these lives ended, if it did.
pub(crate) fn outcome_on<'w>(
    w: &Workload,
    lives: &[Life],
    objects: &Objects<'w>,
    streams: &[Stream],
    steps: u64,
) -> Option<Outcome>
    requires objects { objects.now.workload ≡ w.now }
    requires streams { AreStreams w.now steps streams.now }
    requires lives { AreLives w.now lives.now }
    ensures { IsOutcomeOnLives w.now lives.now steps streams.now objects.now result }
{
    w.known();
    if let Some(outcome) = outcome(w, objects, streams, steps) {
        return Some(outcome);
    }
    if !is_quiet_on(w, lives, objects, streams) {
        return None;
    }
    if has_ended(w, objects) {
        return Some(Outcome::Finished);
    }
    Some(Outcome::Stuck)
}

// Whether nothing is left to do on these lives.
fn is_quiet_on<'w>(w: &Workload, lives: &[Life], objects: &Objects<'w>, streams: &[Stream]) -> bool
    requires objects { objects.now.workload ≡ w.now }
    requires streams { length streams.now ≡ w.now.streams }
    requires lives { AreLives w.now lives.now }
    ensures { IsTrue result ↔ IsQuietOnWith w.now lives.now streams.now objects.now }
{
    for s in 0..w.streams() {
        if !streams[s as usize].is_idle() {
            return false;
        }
        if !finds_nothing(w, lives, objects, StreamNo(s)) {
            return false;
        }
    }
    true
}

// Whether the pools that the stream takes from are empty, if it lives.
fn finds_nothing<'w>(w: &Workload, lives: &[Life], objects: &Objects<'w>, s: StreamNo) -> bool
    requires stream { s.0 < w.now.streams }
    requires objects { objects.now.workload ≡ w.now }
    requires lives { AreLives w.now lives.now }
    ensures { IsTrue result ↔ FindsNothing w.now lives.now objects.now s.0 }
{
    if !is_live(objects, lives, s) {
        return true;
    }
    has_empty_pools(w, objects, s)
}
