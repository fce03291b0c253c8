//! The stretches, frames and arrows of worked journals.

use abt_machine::{Event, Journal, Want};
use abt_report::{TextFault, read_journal};
use abt_view::{Arrow, Frame, Spot, Stretch, all_arrows, all_frames, all_stretches, take_notes};
use std::alloc::Global;
use std::process::Abort;
use std::test::Fail;

// Unit 0 wakes unit 1 and is refused once; on stream 1 unit 2 is a scheduler, in which unit 1 ends.
const STACKED: &str = "1 0 take 0 0
1 1 take 1 2
2 0 look 0
2 1 look 2
3 0 step 0 0 ok
3 1 enter 2
4 0 put 1 2
5 1 take 2 1
5 0 step 0 1 not-owner
6 0 end 0 done
6 1 look 1
7 0 miss 0
7 1 step 1 0 ok
8 1 end 1 done
9 1 miss 2
10 1 leave 2
11 1 end 2 done
";

// Within scheduler unit 0, unit 1 is one too, in which unit 2 wakes unit 3, yields to it, and is put but not taken.
const NESTED: &str = "1 0 take 0 0
2 0 look 0
3 0 enter 0
4 0 take 1 1
5 0 look 1
6 0 enter 1
7 0 take 2 2
8 0 look 2
9 0 step 2 0 ok
10 0 put 3 2
11 0 step 2 1 ok
12 0 put 2 2
13 0 look 3
14 0 end 3 done
15 0 miss 2
17 0 leave 1
18 0 end 1 done
";

// Unit 0 calls a function, after which unit 1 is put.
const CALLED: &str = "1 0 take 0 0
2 0 look 0
3 0 call 0 0 7
4 0 put 1 0
5 0 end 0 done
";

// Stream 63 and unit 65,535 are the last of a workload.
const LAST: &str = "1 63 enter 3\n1 64 enter 3\n2 63 put 65535 0\n3 63 put 65536 0\n";

// The stream, the unit, the first and the last stamp, and how many events the unit has there.
type Times = (u32, u32, u64, u64, usize);

// The stream, the unit, the depth, the first and the last stamp.
type Depths = (u32, u32, u64, u64, u64);

// An event's stream and stamp.
type Point = (u32, u64);

// The unit, the sender, the put and the end.
type Points = (u32, Option<Point>, Point, Option<Point>);

// A journal, its stretches, if they are stated, its frames and its arrows.
type View = (
    &'static str,
    Option<&'static [Times]>,
    &'static [Depths],
    &'static [Points],
);

static VIEWS: [View; 4] = [
    (
        STACKED,
        Some(&[
            (0, 0, 1, 6, 5),
            (1, 2, 1, 3, 3),
            (1, 1, 5, 8, 4),
            (1, 2, 11, 11, 1),
        ]),
        &[(1, 2, 0, 3, 9)],
        &[(1, Some((0, 3)), (0, 4), Some((1, 5)))],
    ),
    (
        NESTED,
        None,
        &[(0, 0, 0, 3, 18), (0, 1, 1, 6, 15)],
        &[
            (3, Some((0, 9)), (0, 10), Some((0, 13))),
            (2, None, (0, 12), None),
        ],
    ),
    (
        CALLED,
        Some(&[(0, 0, 1, 5, 4)]),
        &[],
        &[(1, Some((0, 3)), (0, 4), None)],
    ),
    (
        LAST,
        None,
        &[(63, 3, 0, 1, 3)],
        &[(65_535, Some((63, 1)), (63, 2), None)],
    ),
];

// As many streams as a workload may have.
const STREAMS: u64 = 64;

// The journal of a text.
fn journal(rt: &impl Abort, alloc: Global, text: &str) -> Result<Journal, TextFault> {
    assert!(rt; text.len() < 10_000);
    read_journal(alloc, text.as_bytes())
}

fn is_stretch(found: &Stretch, (stream, unit, since, until, events): Times) -> bool {
    (found.stream, found.unit) == (stream, unit)
        && (found.since, found.until) == (since, until)
        && found.events.items().len() == events
}

// Whether the events have these stretches.
fn have_stretches(alloc: Global, events: &[Event], wanted: &[Times]) -> Result<bool, Want> {
    let notes = take_notes(alloc, events, &[])?;
    let found = all_stretches(alloc, STREAMS, &notes)?;
    Ok(found.len() == wanted.len() && found.iter().zip(wanted).all(|(f, w)| is_stretch(f, *w)))
}

fn is_frame(found: &Frame, (stream, unit, depth, since, until): Depths) -> bool {
    (found.stream, found.unit, found.depth) == (stream, unit, depth)
        && (found.since, found.until) == (since, until)
}

// Whether the events have these frames.
fn have_frames(alloc: Global, events: &[Event], wanted: &[Depths]) -> Result<bool, Want> {
    let found = all_frames(alloc, events)?;
    Ok(found.len() == wanted.len() && found.iter().zip(wanted).all(|(f, w)| is_frame(f, *w)))
}

fn point(at: Spot) -> Point {
    (at.stream, at.stamp)
}

fn is_arrow(found: &Arrow, (unit, sent, put, taken): Points) -> bool {
    found.unit == unit
        && found.sent.map(point) == sent
        && point(found.put) == put
        && found.taken.map(point) == taken
}

// Whether the events have these arrows.
fn have_arrows(alloc: Global, events: &[Event], wanted: &[Points]) -> Result<bool, Want> {
    let found = all_arrows(alloc, events)?;
    Ok(found.len() == wanted.len() && found.iter().zip(wanted).all(|(f, w)| is_arrow(f, *w)))
}

// Whether the events are viewed so.
fn are_viewed(
    alloc: Global,
    events: &[Event],
    stretches: Option<&[Times]>,
    frames: &[Depths],
    arrows: &[Points],
) -> Result<bool, Want> {
    let are = match stretches {
        Some(wanted) => have_stretches(alloc, events, wanted)?,
        None => true,
    };
    Ok(are && have_frames(alloc, events, frames)? && have_arrows(alloc, events, arrows)?)
}

// Whether a row's journal is viewed as the row says.
fn is_viewed(rt: &impl Abort, alloc: Global, row: View) -> Result<bool, Fail> {
    let (text, stretches, frames, arrows) = row;
    let journal = journal(rt, alloc, text)?;
    Ok(are_viewed(alloc, journal.items(), stretches, frames, arrows)?)
}

#[test]
fn journals_are_viewed(rt: HostRuntime) -> Result<(), Fail> {
    for row in &VIEWS {
        let is = is_viewed(&rt, rt.alloc(), *row)?;
        assert!(rt; is, "{}", row.0);
    }
    Ok(())
}
