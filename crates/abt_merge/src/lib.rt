//! One journal from the logs of all streams.
#![tactic(auto)]

mod heads;
mod runs;

ghost use Rattle.std.specs.Prelude.{◌≡◌, IfOk, IsOk, length, map, true};
ghost use Rattle.abt_simulation.specs.Journals.{MergesTo};
ghost use Rattle.abt_merge.specs.Logs.{AreLogs, MergesIf, count_events, log_of};

use crate::heads::first_but;
use crate::runs::{last_before, take_run};
use abt_machine::{Event, Journal, Log, Want};
use std::alloc::Global;

/// All events of these logs, by stamp and then by stream. A single log is moved; of several a further list is made.
pub fn merge(alloc: Global, mut logs: Vec<Log>) -> Result<Journal, Want>
    requires logs { AreLogs logs.items }
    ensures merged { IfOk result (λ journal. MergesTo (log_of logs.items) journal) }
    ensures moved { length logs.items ≡ 1 → IsOk result }
{
    if logs.len() == 1 {
        return Ok(logs.remove(0));
    }
    weave(alloc, &logs)
}

/// The same where the logs are kept, and none where they are not.
pub fn merge_kept(alloc: Global, keeps: bool, logs: Vec<Log>) -> Result<Option<Journal>, Want>
    requires logs { keeps ≡ true → AreLogs logs.items }
    ensures { IfOk result (MergesIf keeps logs.items) }
{
    if !keeps {
        return Ok(None);
    }
    Ok(Some(merge(alloc, logs)?))
}

// The logs stay as they are: run after run is taken from what is left of them.
fn weave(alloc: Global, logs: &[Log]) -> Result<Journal, Want>
    requires logs { AreLogs logs.now }
    ensures { IfOk result (λ journal. MergesTo (log_of logs.now) journal) }
{
    let mut rests = rests_of(alloc, logs)?;
    let mut events = Vec::with_capacity(alloc, count_events(&rests)?)?;
    let mut next = first_but(&rests, rests.len());
    while let Some(first) = next {
        let (_, stream) = first;
        let bound = first_but(&rests, stream);
        rests[stream] = take_run(&mut events, rests[stream], last_before(first, bound));
        next = bound;
    }
    Ok(Journal::new(events))
}

// What is left of each log: at first all of it.
fn rests_of<'a>(alloc: Global, logs: &'a [Log]) -> Result<Vec<&'a [Event]>, Want>
    ensures { IfOk result (λ rests. map (λ rest. rest.now) rests.items ≡ logs.now) }
{
    let mut rests = Vec::with_capacity(alloc, logs.len())?;
    for log in logs {
        rests.push(log.items())?;
    }
    Ok(rests)
}

// How many events are left. A count that does not fit is out of memory, since that many events would not fit either.
fn count_events(rests: &[&[Event]]) -> Result<usize, Want>
    ensures { IfOk result (λ count. count ≡ count_events (map (λ rest. rest.now) rests.now)) }
{
    let mut count: usize = 0;
    for rest in rests {
        count = count.checked_add(rest.len()).ok_or(Want)?;
    }
    Ok(count)
}
