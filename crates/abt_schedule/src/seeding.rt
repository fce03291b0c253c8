//! Runs in rotations whose order a seed draws.

ghost use Rattle.std.specs.Prelude.{ℕ, ◌≡◌, ◌≤◌, ◌<◌, IfOk, OnOk, [], length};
ghost use Rattle.abt_machine.specs.Rounds.{OrdersStored, generator_at};
ghost use Rattle.abt_machine.specs.Stored.{CallsStored, Stored};
ghost use Rattle.abt_machine.specs.Valid.{IsValid};
ghost use Rattle.abt_model.specs.Stored.{stored_with};
ghost use Rattle.abt_order.specs.Stored.{stored_of};
ghost use Rattle.abt_schedule.specs.Courses.{IsCourse};
ghost use Rattle.abt_schedule.specs.Runs.{HasStopped, LeavesSeeded};

use crate::course::Course;
use crate::drawing::draw;
use crate::scheduled::Scheduled;
use abt_machine::{Journal, OrderShape, Outcome, Want, Workload};
use abt_model::shapes;
use abt_order::StoredOrder;
use abt_report::count_steps;
use abt_work::Work;
use rand_pcg::Pcg32;
use std::alloc::Global;

/// Runs a workload whose streams may make `steps` steps each, on the caller's thread. In each rotation PCG32 with this seed
/// draws the order of the streams anew; in that order each stream makes its turn: events until one is a step or ends a round
/// empty, or the stream is spent. This goes on until a rotation without a step leaves nothing to do or a stream spent. The
/// stamps count the events in the order in which they were made. A round by a free order visits its pools in the order in which
/// its scheduler lists them. A call returns what its function in `work` returns. The same arguments make the same journal,
/// unless a function that may return any word returns another one the next time. Out of memory is the only error, also where
/// there are more events than can be counted.
pub fn run_seeded<P: Work>(
    alloc: Global,
    w: &Workload,
    orders: &[StoredOrder],
    work: &P,
    seed: u64,
    steps: u64,
) -> Result<Scheduled, Want>
    requires orders { 2 ≤ length orders.now }
    requires calls { CallsStored w.now (P.count work.now) }
    ensures { IfOk result (LeavesSeeded w.now (stored_of orders.now (P.returns work.now)) seed steps) }
{
    let shapes = shapes(alloc, orders)?;
    run(alloc, w, &shapes, work, seed, steps)
}

// The same, by the shapes of the stored orders.
fn run<P: Work>(
    alloc: Global,
    w: &Workload,
    z: &[OrderShape],
    work: &P,
    seed: u64,
    steps: u64,
) -> Result<Scheduled, Want>
    requires orders { 2 ≤ length z.now }
    requires calls { CallsStored w.now (P.count work.now) }
    ensures { IfOk result (LeavesSeeded w.now (stored_with z.now (P.returns work.now)) seed steps) }
{
    w.known();
    let mut course = Course::start(alloc, w, steps)?;
    let mut words = Pcg32::new(seed, u64::from(w.scheds()));
    let outcome = rotate(alloc, &mut course, w, z, work, &mut words)?;
    end(alloc, w, course, outcome)
}

// Makes rotations until one without a step leaves nothing to do or a stream spent.
fn rotate<P: Work>(
    alloc: Global,
    course: &mut Course,
    w: &Workload,
    z: &[OrderShape],
    work: &P,
    words: &mut Pcg32,
) -> Result<Outcome, Want>
    requires valid { IsValid w.now }
    requires stored { OrdersStored w.now z.now }
    requires calls { CallsStored w.now (P.count work.now) }
    requires course { IsCourse w.now (stored_with z.now (P.returns work.now)) course.old }
    requires none { course.old.events.items ≡ [] }
    ensures stopped { IfOk result (λ outcome. (seed : ℕ) → words.old ≡ generator_at seed (length w.now.scheds) 0 → HasStopped w.now seed course.old.steps course.new.events.items outcome) }
    ensures course { OnOk result (IsCourse w.now (stored_with z.now (P.returns work.now)) course.new) }
    ensures steps { OnOk result (course.new.steps ≡ course.old.steps) }
{
    for _ in 0..u64::MAX {
        let order = draw(alloc, words, w.streams())?;
        let stepped = course.turns(w, z, work, &order)?;
        if stepped {
            continue;
        }
        if let Some(outcome) = course.reached.outcome(w, course.steps) {
            return Ok(outcome);
        }
    }
    Err(Want)
}

// What a run leaves that ended so.
fn end(alloc: Global, w: &Workload, course: Course, outcome: Outcome) -> Result<Scheduled, Want>
    requires valid { IsValid w.now }
    ensures { IfOk result (λ left. (Z : Stored) (seed : ℕ) → OrdersStored w.now Z.orders → IsCourse w.now Z course → HasStopped w.now seed course.steps course.events.items outcome → LeavesSeeded w.now Z seed course.steps left) }
{
    let Course {
        events,
        reached,
        steps: _,
    } = course;
    let picture = reached.model.picture(alloc, w)?;
    let steps = count_steps(&events);
    Ok(Scheduled {
        journal: Journal::new(events),
        steps,
        picture,
        outcome,
    })
}
