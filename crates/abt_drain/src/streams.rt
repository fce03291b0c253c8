//! The streams of a workload: at the start, and what they leave at the end.

ghost use Rattle.std.specs.Prelude.{◌≡◌, ◌++◌, ◌∷◌, [], IfOk, OnOk, true};
ghost use Rattle.abt_drain.specs.Crews.{AllKeep, AreStarted};
ghost use Rattle.abt_drain.specs.Ends.{AreLeft, HaveLeft, Leaves, logs_in, logs_kept, steps_left};
ghost use Rattle.abt_merge.specs.Logs.{AreLogs};

use abt_machine::{Journal, Log, StreamNo, Want, Workload};
use abt_merge::merge_kept;
use abt_stream::{Stream, StreamParts};
use std::alloc::Global;

/// What streams leave together: the journal of all events, if it was kept, how many steps they made, and of each stream its units,
/// in the streams' order.
#[derive(Drop)]
pub struct Rests {
    pub journal: Option<Journal>,
    pub steps: u64,
    pub parts: Vec<StreamParts>,
}

/// Each stream of the workload at the start, in order of number; each may make `steps` steps, and keeps its events in memory if `keeps`.
pub fn start_streams(
    alloc: Global,
    w: &Workload,
    steps: u64,
    keeps: bool,
) -> Result<Vec<Stream>, Want>
    ensures streams { IfOk result (λ streams. AreStarted w.now steps w.now.streams streams.items) }
    ensures keeps { IfOk result (λ streams. AllKeep keeps streams.items) }
{
    let mut streams = Vec::new(alloc);
    'streams: for s in 0..w.streams() {
        streams.push(Stream::new(alloc, w, StreamNo(s), steps, keeps)?)?;
    }
    Ok(streams)
}

/// What these streams leave; each keeps its events in memory if `keeps`. Err: out of memory, as where the count of steps does not
/// fit.
pub fn leave(alloc: Global, streams: Vec<Stream>, keeps: bool) -> Result<Rests, Want>
    requires logs { AreLogs (logs_in streams.items) }
    requires keeps { AllKeep keeps streams.items }
    ensures { IfOk result (AreLeft keeps streams.items) }
{
    let (logs, parts) = split_logs(alloc, streams, keeps)?;
    let steps = count_steps(&parts)?;
    let journal = merge_kept(alloc, keeps, logs)?;
    Ok(Rests {
        journal,
        steps,
        parts,
    })
}

/// The logs of the streams, if `keeps` says that they are kept, and the rest of what they leave, both in the streams' order.
pub fn split_logs(
    alloc: Global,
    streams: Vec<Stream>,
    keeps: bool,
) -> Result<(Vec<Log>, Vec<StreamParts>), Want>
    requires { keeps ≡ true → AllKeep true streams.items }
    ensures logs { IfOk result (λ split. split.0.items ≡ logs_kept keeps (logs_in streams.items)) }
    ensures parts { IfOk result (λ split. HaveLeft streams.items split.1.items) }
{
    let mut logs = Vec::new(alloc);
    let mut rest = Vec::with_capacity(alloc, streams.len())?;
    'streams: for stream in streams {
        let parts = split_log(stream, keeps, &mut logs)?;
        rest.push(parts)?;
    }
    Ok((logs, rest))
}

// What a stream leaves; its log, if logs are kept, goes to the others.
fn split_log(stream: Stream, keeps: bool, logs: &mut Vec<Log>) -> Result<StreamParts, Want>
    requires { keeps ≡ true → stream.keeps ≡ true }
    ensures logs { OnOk result (logs.new.items ≡ logs.old.items ++ logs_kept keeps (stream.log ∷ [])) }
    ensures parts { IfOk result (Leaves stream) }
{
    let StreamParts {
        kept,
        steps,
        hand,
        next,
        tray,
        frames,
    } = stream.into_parts();
    if keeps {
        match kept {
            Some(log) => logs.push(log)?,
            None => unreachable!(),
        }
    }
    Ok(StreamParts {
        kept: None,
        steps,
        hand,
        next,
        tray,
        frames,
    })
}

// How many steps the streams made that left these. A count that does not fit is out of memory.
fn count_steps(rest: &[StreamParts]) -> Result<u64, Want>
    ensures { IfOk result (λ count. count ≡ steps_left rest.now) }
{
    let mut count: u64 = 0;
    for parts in rest {
        count = count.checked_add(parts.steps).ok_or(Want)?;
    }
    Ok(count)
}
