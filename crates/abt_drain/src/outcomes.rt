//! How a run ended.

ghost use Rattle.std.specs.Prelude.{ℕ, ◌≡◌, ◌<◌, ◌↔◌, IfNone, IfSome, IsTrue, length};
ghost use Rattle.abt_commons.specs.Held.{object_at};
ghost use Rattle.abt_drain.specs.Looks.{AreStreams, EndedWith, HasEmptyPools, IsOutcomeOfRuns, IsQuietWith, IsSpentAt};
ghost use Rattle.abt_outcomes.specs.Values.{LooksEnded};

use abt_commons::Objects;
use abt_machine::{Outcome, StreamNo, UnitNo, Workload};
use abt_stream::Stream;

/// How the run of these objects and streams ended: `Finished` if nothing is left to do and every unit is unborn or
/// ended, `Stuck` if nothing is left to do and some unit is neither, and `Budget` of the least stream that has made its
/// steps and would make another. None if it goes on. It allocates nothing.
pub fn outcome<'w>(
    w: &Workload,
    objects: &Objects<'w>,
    streams: &[Stream],
    steps: u64,
) -> Option<Outcome>
    requires objects { objects.now.workload ≡ w.now }
    requires streams { AreStreams w.now steps streams.now }
    ensures ended { EndedWith w.now steps streams.now objects.now result }
    ensures run { IsOutcomeOfRuns w.now steps streams.now objects.now result }
{
    w.known();
    seen(w, objects, streams, steps)
}

// How the run ended, as streams and objects show it.
fn seen<'w>(w: &Workload, objects: &Objects<'w>, streams: &[Stream], steps: u64) -> Option<Outcome>
    requires objects { objects.now.workload ≡ w.now }
    requires streams { AreStreams w.now steps streams.now }
    ensures { EndedWith w.now steps streams.now objects.now result }
{
    if let Some(s) = first_spent(w, streams, steps) {
        return Some(Outcome::Budget(s));
    }
    if !is_quiet(w, objects, streams) {
        return None;
    }
    if has_ended(w, objects) {
        return Some(Outcome::Finished);
    }
    Some(Outcome::Stuck)
}

// The least stream that has made its steps and would make another.
fn first_spent(w: &Workload, streams: &[Stream], steps: u64) -> Option<StreamNo>
    requires { AreStreams w.now steps streams.now }
    ensures none { IfNone result ((s : ℕ) → IsSpentAt w.now steps streams.now s → ⊥) }
    ensures spent { IfSome result (λ s. IsSpentAt w.now steps streams.now s.0) }
    ensures least { IfSome result (λ s. (r : ℕ) → r < s.0 → IsSpentAt w.now steps streams.now r → ⊥) }
{
    for s in 0..w.streams() {
        if streams[s as usize].is_spent(w) {
            return Some(StreamNo(s));
        }
    }
    None
}

// Whether nothing is left to do.
fn is_quiet<'w>(w: &Workload, objects: &Objects<'w>, streams: &[Stream]) -> bool
    requires objects { objects.now.workload ≡ w.now }
    requires streams { length streams.now ≡ w.now.streams }
    ensures { IsTrue result ↔ IsQuietWith w.now streams.now objects.now }
{
    for s in 0..w.streams() {
        if !streams[s as usize].is_idle() {
            return false;
        }
        if !has_empty_pools(w, objects, StreamNo(s)) {
            return false;
        }
    }
    true
}

/// Whether the pools that the main scheduler of the stream lists are empty.
pub fn has_empty_pools<'w>(w: &Workload, objects: &Objects<'w>, s: StreamNo) -> bool
    requires stream { s.0 < w.now.streams }
    requires objects { objects.now.workload ≡ w.now }
    ensures { IsTrue result ↔ HasEmptyPools w.now objects.now s.0 }
{
    w.known();
    for p in w.sched(w.main(s)).pools.items() {
        if !objects.pool_is_empty(*p) {
            return false;
        }
    }
    true
}

/// Whether every unit is at its desk, unborn or ended.
pub fn has_ended<'w>(w: &Workload, objects: &Objects<'w>) -> bool
    requires { objects.now.workload ≡ w.now }
    ensures { IsTrue result ↔ LooksEnded w.now (object_at objects.now) }
{
    for u in 0..w.units() {
        if !objects.is_over(UnitNo(u)) {
            return false;
        }
    }
    true
}
