//! The stretches of a stream.

ghost use Rattle.std.specs.Prelude.{◌≡◌, ◌++◌, ◌∷◌, [], IfOk};
ghost use Rattle.abt_view.specs.Stretches.{beside as beside_by, cut_at, all_stretches as stretches_of_all, begun, closed, goes_on_or_begins as turn_by, goes_on_or_stays as stays_by, is_held as is_held_by, jumps_between, longer as longer_by, streams_in, stretches_of, turn_of as turn_at, cut_by};

use crate::notes::Note;
use abt_machine::{Event, Format, Items, Want, What};
use std::alloc::Global;

/// From the stamp of an event of a stream to that of its next, with a stamp between.
#[derive(Clone, Copy)]
pub struct Jump {
    pub from: u64,
    pub to: u64,
}

/// A time for which one unit is in a stream's hand: the first and last stamp of the unit, the last of the stream, the events of the unit
/// there, and where the stream's stamps jump.
#[derive(Drop)]
pub struct Stretch {
    pub stream: u32,
    pub unit: u32,
    pub since: u64,
    pub until: u64,
    pub last: u64,
    pub events: Items<Note>,
    pub jumps: Items<Jump>,
}

// The stretches that are over, and the one that may go on.
#[derive(Drop)]
pub(crate) struct Cut {
    past: Items<Stretch>,
    held: Option<Stretch>,
}

// What an event means for the current stretch.
#[derive(Clone, Copy)]
pub(crate) enum Turn {
    Begins(u32),
    GoesOn,
    Ends,
    Stays,
}

// Whether that unit is in hand.
fn is_held(held: &Option<Stretch>, u: u32) -> bool
    ensures { result ≡ is_held_by held.now u }
{
    match held {
        Some(stretch) => stretch.unit == u,
        None => false,
    }
}

fn goes_on_or_begins(held: &Option<Stretch>, u: u32) -> Turn
    ensures { result ≡ turn_by held.now u }
{
    if is_held(held, u) {
        Turn::GoesOn
    } else {
        Turn::Begins(u)
    }
}

fn goes_on_or_stays(held: &Option<Stretch>, u: u32) -> Turn
    ensures { result ≡ stays_by held.now u }
{
    if is_held(held, u) {
        Turn::GoesOn
    } else {
        Turn::Stays
    }
}

fn turn_of(held: &Option<Stretch>, what: What) -> Turn
    ensures { result ≡ turn_at held.now what }
{
    match what {
        What::Miss(_) => Turn::Ends,
        What::Take(_, u) => Turn::Begins(u.0),
        What::Look(u) => goes_on_or_begins(held, u.0),
        What::Step(u, _, _) | What::Call(u, _, _) => goes_on_or_begins(held, u.0),
        What::Put(u, _) => goes_on_or_stays(held, u.0),
        What::End(u, _) => goes_on_or_begins(held, u.0),
        What::Enter(u) => goes_on_or_begins(held, u.0),
        What::Leave(_) => Turn::Ends,
    }
}

// The list with an item appended.
fn more<T: Drop>(items: Items<T>, item: T) -> Result<Items<T>, Want>
    ensures { IfOk result (λ more. more ≡ items ++ item ∷ []) }
{
    let mut list = items.into_items();
    list.push(item)?;
    Ok(Items::new(list))
}

// The jumps, with another if there is one between these events of the stream.
fn notice(jumps: Items<Jump>, from: u64, to: u64) -> Result<Items<Jump>, Want>
    ensures { IfOk result (λ more. more ≡ jumps ++ jumps_between from to) }
{
    if to.saturating_sub(from) > 1 {
        return more(jumps, Jump { from, to });
    }
    Ok(jumps)
}

// The events with another appended. What happened has a name here, since the prover makes no plan for the append of a type that is not
// named.
fn append(events: Items<Note>, note: &Note) -> Result<Items<Note>, Want>
    ensures { IfOk result (λ more. more ≡ events ++ note.now ∷ []) }
{
    let what: What = note.event.what;
    let event = Event { what, ..note.event };
    more(
        events,
        Note {
            event,
            piece: note.piece,
        },
    )
}

// A stretch that begins with an event.
fn begin(alloc: Global, u: u32, note: Note) -> Result<Stretch, Want>
    ensures { IfOk result (λ stretch. stretch ≡ begun u note) }
{
    let stream = note.event.stream.0;
    let stamp = note.event.stamp;
    let events = append(Items::new(Vec::new(alloc)), &note)?;
    Ok(Stretch {
        stream,
        unit: u,
        since: stamp,
        until: stamp,
        last: stamp,
        events,
        jumps: Items::new(Vec::new(alloc)),
    })
}

// A stretch with an event of its unit appended.
fn longer(stretch: Stretch, note: Note) -> Result<Stretch, Want>
    ensures { IfOk result (λ longer. longer ≡ longer_by stretch note) }
{
    let Stretch {
        stream,
        unit,
        since,
        until: _,
        last,
        events,
        jumps,
    } = stretch;
    let until = note.event.stamp;
    let events = append(events, &note)?;
    let jumps = notice(jumps, last, until)?;
    Ok(Stretch {
        stream,
        unit,
        since,
        until,
        last: until,
        events,
        jumps,
    })
}

// A stretch in which the stream puts another unit.
fn beside(stretch: Stretch, event: Event) -> Result<Stretch, Want>
    ensures { IfOk result (λ longer. longer ≡ beside_by event stretch) }
{
    let Stretch {
        stream,
        unit,
        since,
        until,
        last,
        events,
        jumps,
    } = stretch;
    let jumps = notice(jumps, last, event.stamp)?;
    Ok(Stretch {
        stream,
        unit,
        since,
        until,
        last: event.stamp,
        events,
        jumps,
    })
}

// Ends the current stretch, if there is one.
fn close(cut: Cut) -> Result<Cut, Want>
    ensures { IfOk result (λ new. new ≡ closed cut) }
{
    let Cut { past, held } = cut;
    match held {
        None => Ok(Cut { past, held: None }),
        Some(stretch) => {
            let past = more(past, stretch)?;
            Ok(Cut { past, held: None })
        }
    }
}

// Ends the current stretch, and begins another with an event.
fn begin_another(alloc: Global, cut: Cut, u: u32, note: Note) -> Result<Cut, Want>
    ensures { IfOk result (λ new. new ≡ cut_by cut note (Turn.Begins u)) }
{
    let Cut { past, held: _ } = close(cut)?;
    let stretch = begin(alloc, u, note)?;
    Ok(Cut {
        past,
        held: Some(stretch),
    })
}

// Appends an event to the current stretch.
fn go_on(cut: Cut, note: Note) -> Result<Cut, Want>
    ensures { IfOk result (λ new. new ≡ cut_by cut note Turn.GoesOn) }
{
    let Cut { past, held } = cut;
    match held {
        None => Ok(Cut { past, held: None }),
        Some(stretch) => {
            let stretch = longer(stretch, note)?;
            Ok(Cut {
                past,
                held: Some(stretch),
            })
        }
    }
}

// Goes on with the current stretch, if there is one, while the stream puts another unit.
fn stay(cut: Cut, note: Note) -> Result<Cut, Want>
    ensures { IfOk result (λ new. new ≡ cut_by cut note Turn.Stays) }
{
    let Cut { past, held } = cut;
    match held {
        None => Ok(Cut { past, held: None }),
        Some(stretch) => {
            let stretch = beside(stretch, note.event)?;
            Ok(Cut {
                past,
                held: Some(stretch),
            })
        }
    }
}

// Changes the stretches as an event of their stream does, by what it means for the current one.
fn take_turn(alloc: Global, cut: Cut, note: Note, turn: Turn) -> Result<Cut, Want>
    ensures { IfOk result (λ new. new ≡ cut_by cut note turn) }
{
    match turn {
        Turn::Begins(u) => begin_another(alloc, cut, u, note),
        Turn::GoesOn => go_on(cut, note),
        Turn::Ends => close(cut),
        Turn::Stays => stay(cut, note),
    }
}

// What an event of their stream means for the current one of these stretches.
fn turn_in(cut: &Cut, note: &Note) -> Turn
    ensures { result ≡ turn_at cut.now.held note.now.event.what }
{
    turn_of(&cut.held, note.event.what)
}

// Changes the stretches of stream s as an event of any stream does.
fn advance(alloc: Global, s: u64, cut: Cut, note: Note) -> Result<Cut, Want>
    ensures { IfOk result (λ new. new ≡ cut_at s cut note) }
{
    if u64::from(note.event.stream.0) == s {
        let turn = turn_in(&cut, &note);
        take_turn(alloc, cut, note, turn)
    } else {
        Ok(cut)
    }
}

// The stretches of stream s.
fn stretches(alloc: Global, notes: &[Note], s: u64) -> Result<Items<Stretch>, Want>
    ensures { IfOk result (λ stretches. stretches ≡ stretches_of notes.now s) }
{
    let mut cut = Cut {
        past: Items::new(Vec::new(alloc)),
        held: None,
    };
    for note in notes {
        cut = advance(alloc, s, cut, *note)?;
    }
    let Cut { past, held: _ } = close(cut)?;
    Ok(past)
}

/// How many streams a view shows: up to the greatest that has an event, and at most as many as a workload may have.
pub(crate) fn count_streams(journal: &[Event]) -> u64
    ensures { result ≡ streams_in journal.now }
{
    let mut count = 0;
    for event in journal {
        count = count.max(u64::from(event.stream.0) + 1);
    }
    count.min(u64::from(Format::Three.stream_limit()))
}

/// The stretches of that many streams, in order of stream, and within a stream in order of time.
pub fn all_stretches(alloc: Global, streams: u64, notes: &[Note]) -> Result<Vec<Stretch>, Want>
    ensures { IfOk result (λ all. all.items ≡ stretches_of_all streams notes.now) }
{
    let mut all = Vec::new(alloc);
    for s in 0..streams {
        let mut found = stretches(alloc, notes, s)?.into_items();
        all.append(&mut found)?;
    }
    Ok(all)
}
