//! What a wave appends to the journal.

ghost use Rattle.std.specs.Prelude.{◌≡◌, ◌++◌, IfOk, List, OnOk, drop, length, true};
ghost use Rattle.abt_machine.specs.declared.events.Event.{Event};
ghost use Rattle.abt_merge.specs.Logs.{AreLogs, log_of};
ghost use Rattle.abt_simulation.specs.Journals.{MergesTo};
ghost use Rattle.abt_drain.specs.Crews.{AllKeep};
ghost use Rattle.abt_streams.specs.Cutting.{behind, log_lengths};

use abt_machine::{Event, Log, Want};
use abt_merge::merge;
use abt_stream::Stream;
use std::alloc::Global;

/// How many events each log has.
pub(crate) fn log_lengths(alloc: Global, streams: &[Stream]) -> Result<Vec<usize>, Want>
    ensures { IfOk result (λ lengths. lengths.items ≡ log_lengths streams.now) }
{
    let mut lengths = Vec::with_capacity(alloc, streams.len())?;
    for stream in streams {
        lengths.push(stream.written() as usize)?;
    }
    Ok(lengths)
}

// The log of a stream that keeps it.
fn kept_log(stream: &Stream) -> &[Event]
    requires { stream.now.keeps ≡ true }
    ensures { result.now ≡ stream.now.log }
{
    match stream.kept() {
        Some(log) => log,
        None => unreachable!(),
    }
}

// What a log has after its first `from` events.
fn log_behind(alloc: Global, log: &[Event], from: usize) -> Result<Log, Want>
    ensures { IfOk result (λ rest. rest ≡ drop from log.now) }
{
    let from = from.min(log.len());
    Ok(Log::new(Vec::from_slice(alloc, &log[from..])?))
}

// What each log has after as many events as its length says.
fn logs_behind(alloc: Global, streams: &[Stream], lengths: &[usize]) -> Result<Vec<Log>, Want>
    requires lengths { length lengths.now ≡ length streams.now }
    requires kept { AllKeep true streams.now }
    ensures { IfOk result (λ logs. logs.items ≡ behind streams.now lengths.now) }
{
    let mut logs = Vec::with_capacity(alloc, streams.len())?;
    for s in 0..streams.len() {
        logs.push(log_behind(alloc, kept_log(&streams[s]), lengths[s])?)?;
    }
    Ok(logs)
}

/// Appends the events of a wave, merged; `lengths` says how many events each log had before it.
pub(crate) fn append_wave(
    alloc: Global,
    journal: &mut Vec<Event>,
    streams: &[Stream],
    lengths: &[usize],
) -> Result<(), Want>
    requires lengths { length lengths.now ≡ length streams.now }
    requires kept { AllKeep true streams.now }
    requires logs { AreLogs (behind streams.now lengths.now) }
    ensures { OnOk result ((es : List Event) × MergesTo (log_of (behind streams.now lengths.now)) es × (journal.new.items ≡ journal.old.items ++ es)) }
{
    let wave = merge(alloc, logs_behind(alloc, streams, lengths)?)?;
    journal.extend_from_slice(wave.items())?;
    Ok(())
}
