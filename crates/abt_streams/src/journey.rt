//! A run on lives between two waves.

ghost use Rattle.std.specs.Prelude.{ℕ, ◌≡◌, ◌≢◌, ◌≤◌, [], List, IfOk, Option, length};
ghost use Rattle.std.specs.List.{All};
ghost use Rattle.abt_machine.specs.declared.events.Event.{Event};
ghost use Rattle.abt_machine.specs.Stored.{CallsStored, Stored};
ghost use Rattle.abt_machine.specs.Rounds.{OrdersStored};
ghost use Rattle.abt_machine.specs.Runs.{last_state};
ghost use Rattle.abt_machine.specs.Texts.{shown_units};
ghost use Rattle.abt_order.specs.Stored.{stored_of};
ghost use Rattle.abt_report.specs.Pictures.{SaysWordsOf, units_in_rows};
ghost use Rattle.abt_streams.specs.Lives.{AreLives};
ghost use Rattle.abt_drain.specs.Crews.{moment_of};
ghost use Rattle.abt_drain.specs.Moments.{LeadTo};
ghost use Rattle.abt_waves.specs.Fleets.{IsFleet};
ghost use Rattle.abt_streams.specs.declared.life.Life.{Life};
ghost use Rattle.abt_streams.specs.Ends.{EndsOn};
ghost use Rattle.abt_streams.specs.Runs.{HasLedTo};

use crate::life::Life;
use crate::living::{LiveStreams, find_live};
use crate::logs::{append_wave, log_lengths};
use crate::outcome::outcome_on;
use crate::wave::{Numbers, Wave};
use abt_commons::Objects;
use abt_drain::{picture, split_logs, start_streams};
use abt_machine::{Event, Outcome, Want, Workload};
use abt_order::StoredOrder;
use abt_report::Picture;
use abt_stream::Stream;
use abt_waves::{Starts, run_wave};
use abt_work::Work;
use std::alloc::Global;
use std::sync::Wait;
use std::thread::Threads;

/// The objects and streams of a workload, and its journal in waves.
#[derive(Drop)]
pub(crate) struct Journey<'w> {
    pub(crate) objects: Objects<'w>,
    pub(crate) streams: Vec<Stream>,
    pub(crate) journal: Vec<Event>,
    pub(crate) waves: Vec<Wave>,
}

/// All streams and objects at the start.
pub(crate) fn start<'w>(
    alloc: Global,
    w: &'w Workload,
    orders: &[StoredOrder],
    steps: u64,
) -> Result<Journey<'w>, Want>
    requires orders { 2 ≤ length orders.now }
    ensures { (lives : List Life) → IfOk result (λ j. (returns : ℕ → ℕ → ℕ → List ℕ → Option ℕ) → HasLedTo w.now (stored_of orders.now returns) steps lives j.objects j.streams.items j.journal.items j.waves.items) }
{
    w.known();
    let streams = start_streams(alloc, w, steps, true)?;
    let objects = Objects::place(alloc, w)?;
    Ok(Journey {
        objects,
        streams,
        journal: Vec::new(alloc),
        waves: Vec::new(alloc),
    })
}

/// One more wave; `starts` goes from wave to wave.
pub(crate) fn advance<'w, R: Threads + Wait + Sync, P: Work + Sync>(
    rt: &'w R,
    alloc: Global,
    w: &'w Workload,
    lives: &[Life],
    orders: &[StoredOrder],
    work: &P,
    starts: &Starts,
    journey: Journey<'w>,
) -> Result<Journey<'w>, Want>
    requires lives { AreLives w.now lives.now }
    requires calls { CallsStored w.now (P.count work.now) }
    requires under_way { (n : ℕ) × HasLedTo w.now (stored_of orders.now (P.returns work.now)) n lives.now journey.objects journey.streams.items journey.journal.items journey.waves.items }
    ensures under_way { IfOk result (λ j. (n : ℕ) → HasLedTo w.now (stored_of orders.now (P.returns work.now)) n lives.now journey.entry.objects journey.entry.streams.items journey.entry.journal.items journey.entry.waves.items → HasLedTo w.now (stored_of orders.now (P.returns work.now)) n lives.now j.objects j.streams.items j.journal.items j.waves.items) }
    ensures some_wave { IfOk result (λ j. j.waves.items ≢ []) }
{
    let Journey {
        objects,
        streams,
        mut journal,
        mut waves,
    } = journey;
    let LiveStreams { flags, numbers } = find_live(alloc, w, &objects, lives)?;
    let lengths = log_lengths(alloc, &streams)?;
    waves.push(Wave {
        from: journal.len() as u64,
        streams: Numbers::new(numbers),
    })?;
    let (objects, streams) = run_wave(
        rt, alloc, w, orders, work, objects, streams, &flags, starts,
    )?;
    append_wave(alloc, &mut journal, &streams, &lengths)?;
    Ok(Journey {
        objects,
        streams,
        journal,
        waves,
    })
}

/// Waves, until one leaves nothing to do on these lives, or a stream spent.
pub(crate) fn go<'w, R: Threads + Wait + Sync, P: Work + Sync>(
    rt: &'w R,
    alloc: Global,
    w: &'w Workload,
    lives: &[Life],
    orders: &[StoredOrder],
    work: &P,
    steps: u64,
    journey: Journey<'w>,
) -> Result<(Journey<'w>, Outcome), Want>
    requires lives { AreLives w.now lives.now }
    requires calls { CallsStored w.now (P.count work.now) }
    requires under_way { HasLedTo w.now (stored_of orders.now (P.returns work.now)) steps lives.now journey.objects journey.streams.items journey.journal.items journey.waves.items }
    ensures under_way { IfOk result (λ ended. HasLedTo w.now (stored_of orders.now (P.returns work.now)) steps lives.now ended.0.objects ended.0.streams.items ended.0.journal.items ended.0.waves.items) }
    ensures some_wave { IfOk result (λ ended. ended.0.waves.items ≢ []) }
    ensures ended { IfOk result (λ ended. EndsOn w.now lives.now steps ended.0.journal.items ended.1) }
{
    let starts = Starts::new();
    let mut journey = journey;
    'waves: for _ in rt.forever() {
        journey = advance(rt, alloc, w, lives, orders, work, &starts, journey)?;
        match outcome_on(w, lives, &journey.objects, &journey.streams, steps) {
            Some(outcome) => return Ok((journey, outcome)),
            None => {}
        }
    }
    unreachable!()
}

/// Where each unit is.
pub(crate) fn picture_of<'w>(
    alloc: Global,
    w: &'w Workload,
    objects: Objects<'w>,
    streams: Vec<Stream>,
) -> Result<Picture, Want>
    requires under_way { (Z : Stored) × (n : ℕ) × IsFleet w.now Z n objects streams.items }
    ensures shown { IfOk result (λ picture. (Z : Stored) (J : List Event) → OrdersStored w.now Z.orders → LeadTo w.now Z J (moment_of w.now streams.items objects.entry) → shown_units w.now (last_state w.now J) ≡ units_in_rows picture) }
    ensures words { IfOk result (λ picture. All (SaysWordsOf w.now) picture) }
{
    let (_, rest) = split_logs(alloc, streams, false)?;
    picture(alloc, w, objects, rest)
}
