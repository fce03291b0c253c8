//! The trace of a journal.

ghost use Rattle.std.specs.Prelude.{◌≡◌, ◌++◌, IfOk, OnOk, flat_map};
ghost use Rattle.std.specs.List.{range_with_len};
ghost use Rattle.abt_view.specs.Trace.{arrow_text, call_text, enter_text, event_text, instant_text, item_text, leave_text, moment_text, more_text, point_text, points_text, slice_text, step_more, trace_text, track_name, track_place, track_text};

use crate::args::{push_args, push_unit_end};
use crate::arrows::{Arrow, Spot, all_arrows, spot_at};
use crate::kinds::word;
use crate::notes::{Note, take_notes};
use crate::stretches::{Stretch, all_stretches, count_streams};
use crate::texts::push_around;
use abt_machine::{Code, Event, Piece, Want, What, Workload};
use std::alloc::Global;

// Appends the name of a stream's track.
fn push_track_name(out: &mut Vec<u8>, s: u64) -> Result<(), Want>
    ensures { OnOk result (out.new.items ≡ out.old.items ++ track_name s) }
{
    push_around(
        out,
        b",\n{\"ph\":\"M\",\"pid\":0,\"tid\":",
        s,
        b",\"name\":\"thread_name\",\"args\":{\"name\":\"stream ",
    )?;
    push_around(out, b"", s, b"\"}}")
}

// Appends the place of a stream's track.
fn push_track_place(out: &mut Vec<u8>, s: u64) -> Result<(), Want>
    ensures { OnOk result (out.new.items ≡ out.old.items ++ track_place s) }
{
    push_around(
        out,
        b",\n{\"ph\":\"M\",\"pid\":0,\"tid\":",
        s,
        b",\"name\":\"thread_sort_index\",\"args\":{\"sort_index\":",
    )?;
    push_around(out, b"", s, b"}}")
}

// Appends what is said of a stream's track.
fn push_track(out: &mut Vec<u8>, s: u64) -> Result<(), Want>
    ensures { OnOk result (out.new.items ≡ out.old.items ++ track_text s) }
{
    push_track_name(out, s)?;
    push_track_place(out, s)
}

// Appends what is said of the first tracks, as many as the count says.
fn push_tracks(out: &mut Vec<u8>, count: u64) -> Result<(), Want>
    ensures { OnOk result (out.new.items ≡ out.old.items ++ flat_map track_text (range_with_len 0 count)) }
{
    for s in 0..count {
        push_track(out, s)?;
    }
    Ok(())
}

// Appends the slice of a stretch.
fn push_slice(out: &mut Vec<u8>, slice: &Stretch) -> Result<(), Want>
    ensures { OnOk result (out.new.items ≡ out.old.items ++ slice_text slice.now) }
{
    let length = slice.until.saturating_sub(slice.since);
    push_around(
        out,
        b",\n{\"ph\":\"X\",\"pid\":0,\"tid\":",
        u64::from(slice.stream),
        b",\"ts\":",
    )?;
    push_around(out, b"", slice.since, b".0,\"dur\":")?;
    push_around(out, b"", length, b".8,\"cat\":\"stretch\",\"name\":\"unit ")?;
    push_unit_end(out, slice.unit)
}

// Appends the slices of stretches.
fn push_slices(out: &mut Vec<u8>, slices: &[Stretch]) -> Result<(), Want>
    ensures { OnOk result (out.new.items ≡ out.old.items ++ flat_map slice_text slices.now) }
{
    for slice in slices {
        push_slice(out, slice)?;
    }
    Ok(())
}

// Appends the beginning of an item: its phase, the event's track, and a time at that fraction of a microsecond after the stamp.
fn push_item(out: &mut Vec<u8>, phase: &[u8], at: Spot, fraction: &[u8]) -> Result<(), Want>
    ensures { OnOk result (out.new.items ≡ out.old.items ++ item_text phase.now at fraction.now) }
{
    out.extend_from_slice(b",\n{\"ph\":\"")?;
    out.extend_from_slice(phase)?;
    push_around(
        out,
        b"\",\"pid\":0,\"tid\":",
        u64::from(at.stream),
        b",\"ts\":",
    )?;
    push_around(out, b"", at.stamp, fraction)
}

// Appends the slice of an event.
fn push_moment(
    alloc: Global,
    out: &mut Vec<u8>,
    names: &Option<Workload>,
    note: &Note,
) -> Result<(), Want>
    ensures { OnOk result (out.new.items ≡ out.old.items ++ moment_text names.now note.now) }
{
    push_item(out, b"X", spot_at(&note.event), b".1")?;
    out.extend_from_slice(b",\"dur\":0.6,\"cat\":\"event\",\"name\":\"")?;
    out.extend_from_slice(word(note.event.what))?;
    out.extend_from_slice(b"\"")?;
    push_args(alloc, out, names, note)?;
    out.extend_from_slice(b"}")?;
    Ok(())
}

// Appends the instant of an event.
fn push_instant(out: &mut Vec<u8>, event: &Event, u: u32) -> Result<(), Want>
    ensures { OnOk result (out.new.items ≡ out.old.items ++ instant_text event.now u) }
{
    push_item(out, b"i", spot_at(event), b".4")?;
    out.extend_from_slice(b",\"s\":\"t\",\"name\":\"")?;
    out.extend_from_slice(word(event.what))?;
    push_around(out, b", unit ", u64::from(u), b"\"}")
}

// Appends what a step has besides its slice.
fn push_step(out: &mut Vec<u8>, event: &Event, u: u32, code: Code) -> Result<(), Want>
    ensures { OnOk result (out.new.items ≡ out.old.items ++ step_more event.now u code) }
{
    match code {
        Code::Ok => Ok(()),
        _ => push_instant(out, event, u),
    }
}

// Appends the instant of a call, with the number that it returned.
fn push_call(out: &mut Vec<u8>, event: &Event, u: u32, value: u64) -> Result<(), Want>
    ensures { OnOk result (out.new.items ≡ out.old.items ++ call_text event.now u value) }
{
    push_item(out, b"i", spot_at(event), b".4")?;
    push_around(
        out,
        b",\"s\":\"t\",\"name\":\"call, unit ",
        u64::from(u),
        b", returned ",
    )?;
    push_around(out, b"", value, b"\"}")
}

// Appends the beginning of a frame.
fn push_enter(out: &mut Vec<u8>, event: &Event, u: u32) -> Result<(), Want>
    ensures { OnOk result (out.new.items ≡ out.old.items ++ enter_text event.now u) }
{
    push_item(out, b"B", spot_at(event), b".9")?;
    out.extend_from_slice(b",\"cat\":\"frame\",\"name\":\"scheduler unit ")?;
    push_unit_end(out, u)
}

// Appends the end of a frame.
fn push_leave(out: &mut Vec<u8>, event: &Event) -> Result<(), Want>
    ensures { OnOk result (out.new.items ≡ out.old.items ++ leave_text event.now) }
{
    push_item(out, b"E", spot_at(event), b".9")?;
    out.extend_from_slice(b"}")?;
    Ok(())
}

// Appends what an event has besides its slice.
fn push_more(out: &mut Vec<u8>, event: &Event, what: What) -> Result<(), Want>
    ensures { OnOk result (out.new.items ≡ out.old.items ++ more_text event.now what) }
{
    match what {
        What::Miss(_) => Ok(()),
        What::Take(_, _) => Ok(()),
        What::Look(_) => Ok(()),
        What::Step(u, _, code) => push_step(out, event, u.0, code),
        What::Call(u, _, value) => push_call(out, event, u.0, value.get()),
        What::Put(_, _) => Ok(()),
        What::End(u, _) => push_instant(out, event, u.0),
        What::Enter(u) => push_enter(out, event, u.0),
        What::Leave(_) => push_leave(out, event),
    }
}

// Appends all items of an event.
fn push_event(
    alloc: Global,
    out: &mut Vec<u8>,
    names: &Option<Workload>,
    note: &Note,
) -> Result<(), Want>
    ensures { OnOk result (out.new.items ≡ out.old.items ++ event_text names.now note.now) }
{
    push_moment(alloc, out, names, note)?;
    push_more(out, &note.event, note.event.what)
}

// Appends the items of events.
fn push_events(
    alloc: Global,
    out: &mut Vec<u8>,
    names: &Option<Workload>,
    notes: &[Note],
) -> Result<(), Want>
    ensures { OnOk result (out.new.items ≡ out.old.items ++ flat_map (event_text names.now) notes.now) }
{
    for note in notes {
        push_event(alloc, out, names, note)?;
    }
    Ok(())
}

// Appends a point of an arrow.
fn push_point(out: &mut Vec<u8>, phase: &[u8], arrow: &Arrow, at: Spot) -> Result<(), Want>
    ensures { OnOk result (out.new.items ≡ out.old.items ++ point_text phase.now arrow.now at) }
{
    push_item(out, phase, at, b".4")?;
    push_around(
        out,
        b",\"bp\":\"e\",\"cat\":\"pool\",\"name\":\"unit ",
        u64::from(arrow.unit),
        b"\",\"id\":\"",
    )?;
    push_around(out, b"", arrow.put.stamp, b"")?;
    push_around(out, b"", u64::from(arrow.put.stream / 10), b"")?;
    push_around(out, b"", u64::from(arrow.put.stream % 10), b"\"}")
}

// Appends the points of an arrow with these ends.
fn push_points(
    out: &mut Vec<u8>,
    arrow: &Arrow,
    sent: Option<Spot>,
    taken: Option<Spot>,
) -> Result<(), Want>
    ensures { OnOk result (out.new.items ≡ out.old.items ++ arrow_text arrow.now sent taken) }
{
    match (sent, taken) {
        (None, None) => Ok(()),
        (Some(sent), None) => {
            push_point(out, b"s", arrow, sent)?;
            push_point(out, b"f", arrow, arrow.put)
        }
        (None, Some(taken)) => {
            push_point(out, b"s", arrow, arrow.put)?;
            push_point(out, b"f", arrow, taken)
        }
        (Some(sent), Some(taken)) => {
            push_point(out, b"s", arrow, sent)?;
            push_point(out, b"t", arrow, arrow.put)?;
            push_point(out, b"f", arrow, taken)
        }
    }
}

// Appends the points of arrows.
fn push_arrows(out: &mut Vec<u8>, arrows: &[Arrow]) -> Result<(), Want>
    ensures { OnOk result (out.new.items ≡ out.old.items ++ flat_map points_text arrows.now) }
{
    for arrow in arrows {
        push_points(out, arrow, arrow.sent, arrow.taken)?;
    }
    Ok(())
}

/// The trace of a journal, as JSON in the trace event format, with the operations and objects that its events name, and the pieces that
/// its first events put out, if there is a workload.
pub fn trace(
    alloc: Global,
    names: &Option<Workload>,
    journal: &[Event],
    pieces: &[Option<Piece>],
) -> Result<Vec<u8>, Want>
    ensures { IfOk result (λ text. text.items ≡ trace_text names.now pieces.now journal.now) }
{
    let notes = take_notes(alloc, journal, pieces)?;
    let slices = all_stretches(alloc, count_streams(journal), &notes)?;
    let arrows = all_arrows(alloc, journal)?;
    let mut out = Vec::new(alloc);
    out.extend_from_slice(
        b"{\"traceEvents\":[\n{\"ph\":\"M\",\"pid\":0,\"name\":\"process_name\",\"args\":{\"name\":\"abtrun\"}}",
    )?;
    push_tracks(&mut out, count_streams(journal))?;
    push_slices(&mut out, &slices)?;
    push_events(alloc, &mut out, names, &notes)?;
    push_arrows(&mut out, &arrows)?;
    out.extend_from_slice(b"\n]}\n")?;
    Ok(out)
}
