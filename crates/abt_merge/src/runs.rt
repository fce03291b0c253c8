//! The run of events that come one after the other from one log.

ghost use Rattle.std.specs.Prelude.{◌≡◌, ◌≢◌, ◌+◌, ◌≤◌, ◌++◌, IfSome, List, length, vec_capacity, vec_len};
ghost use Rattle.abt_machine.specs.declared.events.Event.{Event};
ghost use Rattle.abt_merge.specs.Heads.{IsAhead};
ghost use Rattle.abt_merge.specs.Runs.{IsLast, IsRun};

use abt_machine::Event;

/// The greatest stamp with which an event of the same stream comes before the bound, as this one does.
pub(crate) fn last_before(first: (u64, usize), bound: Option<(u64, usize)>) -> u64
    requires ahead { IsAhead first bound }
    requires other { IfSome bound (λ head. head.1 ≢ first.1) }
    ensures { IsLast first bound result }
{
    match bound {
        None => u64::MAX,
        Some((stamp, stream)) if first.1 < stream => stamp,
        Some((stamp, _)) => stamp - 1,
    }
}

/// Appends the events of a log up to this stamp, and returns what is left of the log.
pub(crate) fn take_run<'a>(events: &mut Vec<Event>, log: &'a [Event], last: u64) -> &'a [Event]
    requires { vec_len events.old + length log.now ≤ vec_capacity events.old }
    ensures capacity { vec_capacity events.new ≡ vec_capacity events.old }
    ensures taken { (run : List Event) × (events.new.items ≡ events.old.items ++ run) × IsRun last log.now run result.now }
{
    let mut rest = log;
    while let Some((event, left)) = rest.split_first() {
        if event.stamp > last {
            break;
        }
        events.push_reserved(*event);
        rest = left;
    }
    rest
}
