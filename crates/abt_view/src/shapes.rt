//! What a band shows: bars, frames, marks and lines, each appended to the text of the picture.

ghost use Rattle.std.specs.Prelude.{◌≡◌, ◌++◌, OnOk, flat_map};
ghost use Rattle.abt_view.specs.Named.{named_line};
ghost use Rattle.abt_view.specs.Shapes.{bar_in, bar_place, bar_shape, bar_text, bar_title, frame_in, frame_place, frame_shape, frame_text, jump_text, jumps_text, line_in, line_text, lines_by, lines_in, margin_of, mark_in, mark_text, place_text, point_text, quiet_in, quiet_text};

use crate::arrows::{Arrow, Spot, spot_at};
use crate::bands::{Band, lane_top};
use crate::frames::Frame;
use crate::kinds::word;
use crate::labels::push_texts;
use crate::named::push_named_line;
use crate::notes::Note;
use crate::stretches::{Jump, Stretch};
use crate::texts::push_around;
use abt_machine::{Event, Want, Workload};
use std::alloc::Global;

// Appends the place of a bar, and its colour.
fn push_place(out: &mut Vec<u8>, bar: &Stretch) -> Result<(), Want>
    ensures { OnOk result (out.new.items ≡ out.old.items ++ bar_place bar.now) }
{
    push_around(
        out,
        b"<g class='u",
        u64::from(bar.unit % 10),
        b"' transform='translate(",
    )?;
    push_around(out, b"", bar.since, b"0 ")?;
    push_around(out, b"", lane_top(bar.stream), b")'>")
}

// Appends the bar itself, and its stripes.
fn push_shape(out: &mut Vec<u8>, bar: &Stretch) -> Result<(), Want>
    ensures { OnOk result (out.new.items ≡ out.old.items ++ bar_shape bar.now) }
{
    let width = bar.until.saturating_sub(bar.since);
    push_around(out, b"<rect width='", width, b"8' height='20' rx='2'/>")?;
    push_around(
        out,
        b"<rect class='t",
        u64::from(bar.unit / 10 % 10),
        b"' width='",
    )?;
    push_around(out, b"", width, b"8' height='20' rx='2'/>")
}

// Appends a hatched part of a bar that begins at a stamp.
fn push_jump(out: &mut Vec<u8>, since: u64, jump: Jump) -> Result<(), Want>
    ensures { OnOk result (out.new.items ≡ out.old.items ++ jump_text since jump) }
{
    push_around(
        out,
        b"<rect class='jump' x='",
        jump.from.saturating_sub(since),
        b"9' width='",
    )?;
    let width = jump.to.saturating_sub(jump.from).saturating_sub(1);
    push_around(out, b"", width, b"2' height='20'/>")
}

// Appends the hatched parts of a bar that begins at a stamp.
fn push_jumps(out: &mut Vec<u8>, since: u64, jumps: &[Jump]) -> Result<(), Want>
    ensures { OnOk result (out.new.items ≡ out.old.items ++ flat_map (jump_text since) jumps.now) }
{
    for jump in jumps {
        push_jump(out, since, *jump)?;
    }
    Ok(())
}

// Appends what of a bar is hatched.
fn push_hatched(out: &mut Vec<u8>, bar: &Stretch) -> Result<(), Want>
    ensures { OnOk result (out.new.items ≡ out.old.items ++ jumps_text bar.now) }
{
    push_jumps(out, bar.since, bar.jumps.items())?;
    Ok(())
}

// Appends the lines of events, each with the operation that it names and what that put out, if there is a workload that has it.
fn push_named_lines(
    alloc: Global,
    out: &mut Vec<u8>,
    names: &Option<Workload>,
    notes: &[Note],
) -> Result<(), Want>
    ensures { OnOk result (out.new.items ≡ out.old.items ++ flat_map (named_line names.now) notes.now) }
{
    for note in notes {
        push_named_line(alloc, out, names, note)?;
    }
    Ok(())
}

// Appends the title of the bar, which a browser shows while the pointer is on it.
fn push_title(
    alloc: Global,
    out: &mut Vec<u8>,
    names: &Option<Workload>,
    bar: &Stretch,
) -> Result<(), Want>
    ensures { OnOk result (out.new.items ≡ out.old.items ++ bar_title names.now bar.now) }
{
    out.extend_from_slice(b"<title>")?;
    push_named_lines(alloc, out, names, bar.events.items())?;
    out.extend_from_slice(b"</title></g>\n")?;
    Ok(())
}

// Appends the bar of a stretch, with the texts that a band shows.
fn push_bar(
    alloc: Global,
    out: &mut Vec<u8>,
    band: Band,
    names: &Option<Workload>,
    bar: &Stretch,
) -> Result<(), Want>
    ensures { OnOk result (out.new.items ≡ out.old.items ++ bar_text band names.now bar.now) }
{
    push_place(out, bar)?;
    push_shape(out, bar)?;
    push_hatched(out, bar)?;
    push_texts(alloc, out, band, names, bar)?;
    push_title(alloc, out, names, bar)
}

// Appends the bar of a stretch, if the band shows it.
pub(crate) fn push_bar_in(
    alloc: Global,
    out: &mut Vec<u8>,
    band: Band,
    names: &Option<Workload>,
    bar: &Stretch,
) -> Result<(), Want>
    ensures { OnOk result (out.new.items ≡ out.old.items ++ bar_in band names.now bar.now) }
{
    if band.shows(bar.since, bar.until) {
        return push_bar(alloc, out, band, names, bar);
    }
    Ok(())
}

// By how many pixels a frame extends beyond what is within it.
fn margin(frame: &Frame) -> u64
    ensures { result ≡ margin_of frame.now }
{
    6 - 2 * frame.depth.min(2)
}

// Appends the place of a frame.
fn push_frame_place(out: &mut Vec<u8>, frame: &Frame) -> Result<(), Want>
    ensures { OnOk result (out.new.items ≡ out.old.items ++ frame_place frame.now) }
{
    push_around(
        out,
        b"<rect class='frame' transform='translate(",
        frame.since,
        b"0 ",
    )?;
    push_around(out, b"", lane_top(frame.stream), b")' x='9' ")
}

// Appends the size of a frame.
fn push_frame_shape(out: &mut Vec<u8>, frame: &Frame) -> Result<(), Want>
    ensures { OnOk result (out.new.items ≡ out.old.items ++ frame_shape frame.now) }
{
    let margin = margin(frame);
    let width = frame.until.saturating_sub(frame.since);
    push_around(out, b"y='-", margin, b"' ")?;
    push_around(out, b"width='", width, b"2' ")?;
    push_around(out, b"height='", 32 + 2 * margin, b"' rx='3'>")
}

// Appends the frame of a stacked scheduler.
fn push_frame(out: &mut Vec<u8>, frame: &Frame) -> Result<(), Want>
    ensures { OnOk result (out.new.items ≡ out.old.items ++ frame_text frame.now) }
{
    push_frame_place(out, frame)?;
    push_frame_shape(out, frame)?;
    push_around(
        out,
        b"<title>scheduler unit ",
        u64::from(frame.unit),
        b"</title></rect>\n",
    )
}

// Appends a frame, if the band shows it.
pub(crate) fn push_frame_in(out: &mut Vec<u8>, band: Band, frame: &Frame) -> Result<(), Want>
    ensures { OnOk result (out.new.items ≡ out.old.items ++ frame_in band frame.now) }
{
    if band.shows(frame.since, frame.until) {
        return push_frame(out, frame);
    }
    Ok(())
}

// Appends the place of an event's mark.
fn push_mark_place(out: &mut Vec<u8>, at: Spot) -> Result<(), Want>
    ensures { OnOk result (out.new.items ≡ out.old.items ++ place_text at) }
{
    push_around(out, b"' x='", at.stamp, b"0' y='")?;
    push_around(out, b"", lane_top(at.stream), b"'/>\n")
}

// Appends the mark of an event.
fn push_mark(out: &mut Vec<u8>, event: &Event) -> Result<(), Want>
    ensures { OnOk result (out.new.items ≡ out.old.items ++ mark_text event.now) }
{
    out.extend_from_slice(b"<use href='#")?;
    out.extend_from_slice(word(event.what))?;
    push_mark_place(out, spot_at(event))
}

// Appends the mark of an event, if the band shows it.
pub(crate) fn push_mark_in(out: &mut Vec<u8>, band: Band, event: &Event) -> Result<(), Want>
    ensures { OnOk result (out.new.items ≡ out.old.items ++ mark_in band event.now) }
{
    if band.shows(event.stamp, event.stamp) {
        return push_mark(out, event);
    }
    Ok(())
}

// Appends the point that is `down` pixels below the top of an event's lane.
fn push_point(
    out: &mut Vec<u8>,
    before: &[u8],
    at: Spot,
    down: u32,
    after: &[u8],
) -> Result<(), Want>
    ensures { OnOk result (out.new.items ≡ out.old.items ++ point_text before.now at down after.now) }
{
    push_around(out, before, at.stamp, b"5 ")?;
    push_around(out, b"", lane_top(at.stream) + u64::from(down), after)
}

// Appends a line from event to event that names a unit.
fn push_line(out: &mut Vec<u8>, u: u32, from: Spot, to: Spot) -> Result<(), Want>
    ensures { OnOk result (out.new.items ≡ out.old.items ++ line_text u from to) }
{
    push_point(out, b"<path class='arrow' d='M", from, 31, b"C")?;
    push_point(out, b"", from, 39, b" ")?;
    push_point(out, b"", to, 39, b" ")?;
    push_point(out, b"", to, 31, b"'><title>unit ")?;
    push_around(out, b"", u64::from(u), b"</title></path>\n")
}

// Appends a place on which the pointer shows a quiet line.
fn push_spot(out: &mut Vec<u8>, before: &[u8], at: Spot) -> Result<(), Want>
    ensures { OnOk result (out.new.items ≡ out.old.items ++ (before.now ++ place_text at)) }
{
    out.extend_from_slice(before)?;
    push_mark_place(out, at)
}

// Appends a line that is seen while the pointer is on the mark of one of its events.
fn push_quiet(out: &mut Vec<u8>, u: u32, from: Spot, to: Spot) -> Result<(), Want>
    ensures { OnOk result (out.new.items ≡ out.old.items ++ quiet_text u from to) }
{
    push_spot(out, b"<g class='quiet'><use href='#spot", from)?;
    push_spot(out, b"<use href='#spot", to)?;
    push_line(out, u, from, to)?;
    out.extend_from_slice(b"</g>\n")?;
    Ok(())
}

// Appends a line, if the band shows a part of it.
fn push_line_in(out: &mut Vec<u8>, band: Band, u: u32, from: Spot, to: Spot) -> Result<(), Want>
    ensures { OnOk result (out.new.items ≡ out.old.items ++ line_in band u from to) }
{
    if band.shows(from.stamp, to.stamp) {
        return push_line(out, u, from, to);
    }
    Ok(())
}

// Appends a quiet line, if the band shows a part of it.
fn push_quiet_in(out: &mut Vec<u8>, band: Band, u: u32, from: Spot, to: Spot) -> Result<(), Want>
    ensures { OnOk result (out.new.items ≡ out.old.items ++ quiet_in band u from to) }
{
    if band.shows(from.stamp, to.stamp) {
        return push_quiet(out, u, from, to);
    }
    Ok(())
}

// Appends the lines of an arrow with these ends.
fn push_lines(
    out: &mut Vec<u8>,
    band: Band,
    arrow: &Arrow,
    sent: Option<Spot>,
    taken: Option<Spot>,
) -> Result<(), Want>
    ensures { OnOk result (out.new.items ≡ out.old.items ++ lines_by band arrow.now sent taken) }
{
    match (sent, taken) {
        (None, None) => Ok(()),
        (Some(sent), None) => push_line_in(out, band, arrow.unit, sent, arrow.put),
        (None, Some(taken)) => push_quiet_in(out, band, arrow.unit, arrow.put, taken),
        (Some(sent), Some(taken)) => {
            push_line_in(out, band, arrow.unit, sent, arrow.put)?;
            push_line_in(out, band, arrow.unit, arrow.put, taken)
        }
    }
}

// Appends the lines of an arrow that the band shows.
pub(crate) fn push_arrow_in(out: &mut Vec<u8>, band: Band, arrow: &Arrow) -> Result<(), Want>
    ensures { OnOk result (out.new.items ≡ out.old.items ++ lines_in band arrow.now) }
{
    push_lines(out, band, arrow, arrow.sent, arrow.taken)
}
