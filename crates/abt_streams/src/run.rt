//! A run whose streams are started and ended by units.

ghost use Rattle.std.specs.Prelude.{◌≤◌, IfOk, length};
ghost use Rattle.abt_machine.specs.Stored.{CallsStored};
ghost use Rattle.abt_order.specs.Stored.{stored_of};
ghost use Rattle.abt_report.specs.Pictures.{IsPictureOf};
ghost use Rattle.abt_streams.specs.Lives.{AreLives};
ghost use Rattle.abt_streams.specs.Waves.{HasRunOn};

use crate::journey::{Journey, go, picture_of, start};
use crate::life::Lives;
use crate::wave::Waves;
use abt_machine::{Journal, Outcome, Want, Workload};
use abt_order::StoredOrder;
use abt_report::Picture;
use abt_work::Work;
use std::alloc::Global;
use std::sync::Wait;
use std::thread::Threads;

/// A run on lives: its journal, its waves, its units at the end, and how it ended.
#[derive(Drop)]
pub struct LivesRun {
    pub journal: Journal,
    pub waves: Waves,
    pub picture: Picture,
    pub outcome: Outcome,
}

/// Runs a workload whose streams may make `steps` steps each, and live as these lives say; `work` has the functions that its
/// units call, and is called before each step.
/// In a wave each stream that lives when the wave begins makes turns on a thread of its own, as in `run_streams`: a stream that
/// ends within the wave leaves at the wave's end. Waves go on until one leaves nothing to do on these lives, or a stream spent; there
/// is always one. Err: out of memory, before the first wave or in a stream; the wave in which that happens is the last.
pub fn run_lives<'w, R: Threads + Wait + Sync, P: Work + Sync>(
    rt: &'w R,
    alloc: Global,
    w: &'w Workload,
    lives: &Lives,
    orders: &[StoredOrder],
    work: &P,
    steps: u64,
) -> Result<LivesRun, Want>
    requires orders { 2 ≤ length orders.now }
    requires calls { CallsStored w.now (P.count work.now) }
    requires lives { AreLives w.now lives.now }
    ensures run { IfOk result (λ run. HasRunOn w.now (stored_of orders.now (P.returns work.now)) steps lives.now run.journal run.waves run.outcome) }
    ensures picture { IfOk result (λ run. IsPictureOf w.now run.journal run.picture) }
{
    let journey = start(alloc, w, orders, steps)?;
    let (journey, outcome) = go(rt, alloc, w, lives.items(), orders, work, steps, journey)?;
    let Journey {
        objects,
        streams,
        journal,
        waves,
    } = journey;
    let picture = picture_of(alloc, w, objects, streams)?;
    Ok(LivesRun {
        journal: Journal::new(journal),
        waves: Waves::new(waves),
        picture,
        outcome,
    })
}
