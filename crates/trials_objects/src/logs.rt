//! Journals of few logs.

ghost use Rattle.std.specs.Prelude.{◌≡◌, IfOk};
ghost use Rattle.abt_interleave.specs.Merges.{IsLogOf, Rises};

use abt_machine::{Event, Journal, Log, PoolNo, StreamNo, Want, What};
use abt_merge::merge;
use std::alloc::Global;
use std::process::Abort;
use std::test::Fail;

// A miss of this stream.
fn miss(stamp: u64, stream: u32) -> Event
    ensures stamp { result.stamp ≡ stamp }
    ensures stream { result.stream.0 ≡ stream }
{
    Event {
        stamp,
        stream: StreamNo(stream),
        what: What::Miss(PoolNo(0)),
    }
}

// The log of a stream whose events have these stamps. What happened has a name, since the prover makes no plan for the append of a
// type that is not named.
fn log(alloc: Global, stream: u32, stamps: &[u64]) -> Result<Log, Want>
    requires { Rises stamps.now }
    ensures { IfOk result (IsLogOf (λ e. e.stamp) (λ e. e.stream.0) stream) }
{
    let mut events = Vec::new(alloc);
    for stamp in stamps {
        let event = miss(*stamp, stream);
        let what: What = event.what;
        events.push(Event { what, ..event })?;
    }
    Ok(Log::new(events))
}

// The journal has events of these stamps and streams.
fn check(
    rt: &impl Abort,
    alloc: Global,
    journal: Journal,
    expected: &[(u64, u32)],
) -> Result<(), Fail> {
    let mut events = Vec::new(alloc);
    for (stamp, stream) in expected {
        events.push(miss(*stamp, *stream))?;
    }
    assert!(rt; journal.items() == events.as_slice());
    Ok(())
}

#[test]
fn journals_are_by_stamp_and_then_by_stream(rt: HostRuntime) -> Result<(), Fail> {
    let alloc = rt.alloc();
    let first = log(alloc, 0, &[1, 2, 5])?;
    let second = log(alloc, 1, &[2, 3, 5, 6])?;
    let third = log(alloc, 2, &[1, 5])?;
    let journal = merge(alloc, vec![in alloc; first, second, third]?)?;
    let expected = [
        (1, 0),
        (1, 2),
        (2, 0),
        (2, 1),
        (3, 1),
        (5, 0),
        (5, 1),
        (5, 2),
        (6, 1),
    ];
    check(&rt, alloc, journal, &expected)
}

#[test]
fn one_log_is_its_journal(rt: HostRuntime) -> Result<(), Fail> {
    let alloc = rt.alloc();
    check(&rt, alloc, merge(alloc, Vec::new(alloc))?, &[])?;
    let only = log(alloc, 0, &[1, 4])?;
    check(
        &rt,
        alloc,
        merge(alloc, vec![in alloc; only]?)?,
        &[(1, 0), (4, 0)],
    )
}
