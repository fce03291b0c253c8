//! The next event of a stream.

ghost use Rattle.std.specs.Prelude.{◌≡◌, ◌<◌, IfOk};
ghost use Rattle.abt_bounds.specs.Laws.{returned};
ghost use Rattle.abt_model.specs.Turns.{CanMove, MovesAs};
ghost use Rattle.abt_machine.specs.Rounds.{OrdersStored};
ghost use Rattle.abt_machine.specs.Stored.{CallsStored};
ghost use Rattle.abt_model.specs.Stored.{stored_with};
ghost use Rattle.abt_machine.specs.Valid.{IsValid};
ghost use Rattle.abt_replay.specs.Events.{AreObjects};

use crate::visits::next_visited;
use abt_machine::{OrderShape, StreamNo, Want, What, Workload};
use abt_replay::{Lane, Objects};
use abt_work::Work;

/// Lets stream `s` make its next event; if a round is due, at the pool that `named` visits, and if a call is, one that returns
/// what `named` returned. None if that is no pool that the round may visit next, or no word that the function may return. `z`
/// has the shapes of the stored orders. Out of memory is the only error.
pub(crate) fn move_as<P: Work>(
    lane: &mut Lane,
    objects: &mut Objects,
    w: &Workload,
    z: &[OrderShape],
    work: &P,
    s: StreamNo,
    named: &What,
) -> Result<Option<What>, Want>
    requires valid { IsValid w.now }
    requires stored { OrdersStored w.now z.now }
    requires stream { s.0 < w.now.streams }
    requires calls { CallsStored w.now (P.count work.now) }
    requires lane { CanMove w.now z.now lane.old }
    requires objects { AreObjects w.now objects.old }
    ensures { IfOk result (λ made. MovesAs w.now (stored_with z.now (P.returns work.now)) s.0 lane.old objects.old named.now made lane.new objects.new) }
{
    if let Some(unit) = lane.take_from_tray() {
        let made = Lane::put(objects, unit)?;
        return Ok(Some(made));
    }
    if let Some(unit) = lane.take_next() {
        let made = lane.look(objects, unit)?;
        return Ok(Some(made));
    }
    if let Some(unit) = lane.take_hand() {
        return lane.run(objects, w, work, s, unit, returned(named));
    }
    if lane.top().empty && lane.is_stacked() {
        return Ok(Some(lane.leave()));
    }
    let Some(p) = next_visited(w, z, lane.top(), named) else {
        return Ok(None);
    };
    let made = lane.visit(objects, w, s, p)?;
    Ok(Some(made))
}

// The word that an event returned, if it is a call.
fn returned(what: &What) -> Option<u64>
    ensures { result ≡ returned what.now }
{
    match *what {
        What::Call(_, _, value) => Some(value.get()),
        _ => None,
    }
}
