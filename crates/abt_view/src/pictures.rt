//! The picture of a journal.

ghost use Rattle.std.specs.Prelude.{◌≡◌, ◌++◌, ◌<◌, ◌≤◌, IfOk, OnOk, flat_map};
ghost use Rattle.std.specs.List.{range_with_len};
ghost use Rattle.abt_view.specs.Arrows.{arrows_of};
ghost use Rattle.abt_view.specs.Frames.{all_frames as frames_of_all};
ghost use Rattle.abt_view.specs.Kinds.{greatest_stamp};
ghost use Rattle.abt_view.specs.Picture.{axis_text, band_text, column_text, columns_text, counts_text, head_text, is_small, lane_text, names_text, picture_height as height_of, picture_text, picture_width as width_of, size_text, svg_text, tick_text, ticks_text, window_text};
ghost use Rattle.abt_view.specs.Bands.{bands_in};
ghost use Rattle.abt_view.specs.Shapes.{bar_in, frame_in, lines_in, mark_in};
ghost use Rattle.abt_view.specs.Notes.{noted};
ghost use Rattle.abt_view.specs.Stretches.{all_stretches as stretches_of_all, streams_in};

use crate::arrows::{Arrow, all_arrows};
use crate::bands::{Band, LANE, band_height, count_bands};
use crate::frames::{Frame, all_frames};
use crate::kinds::{count_refused, greatest_stamp};
use crate::notes::take_notes;
use crate::shapes::{push_arrow_in, push_bar_in, push_frame_in, push_mark_in};
use crate::stretches::{Stretch, all_stretches, count_streams};
use crate::style::{LEGEND, STYLE};
use crate::texts::push_around;
use abt_machine::{Event, Piece, Want, Workload};
use abt_report::count_steps;
use std::alloc::Global;

// The number of events, and the stamp, up to which a journal is drawn.
const MOST_DRAWN: u64 = 20_000;

// Appends the size, in pixels.
fn push_size(out: &mut Vec<u8>, width: u64, height: u64) -> Result<(), Want>
    ensures { OnOk result (out.new.items ≡ out.old.items ++ size_text width height) }
{
    push_around(
        out,
        b"<svg xmlns='http://www.w3.org/2000/svg' width='",
        width,
        b"' ",
    )?;
    push_around(out, b"height='", height, b"' ")?;
    push_around(out, b"viewBox='0 0 ", width, b" ")?;
    push_around(out, b"", height, b"'>\n")
}

// Appends the line with counts.
fn push_counts(out: &mut Vec<u8>, journal: &[Event]) -> Result<(), Want>
    ensures { OnOk result (out.new.items ≡ out.old.items ++ counts_text journal.now) }
{
    push_around(
        out,
        b"<text class='counts' x='8' y='16'>events ",
        journal.len() as u64,
        b", steps ",
    )?;
    push_around(out, b"", count_steps(journal), b", refused ")?;
    push_around(out, b"", count_refused(journal), b", streams ")?;
    push_around(out, b"", count_streams(journal), b"</text>\n")
}

// Appends the name of a stream below its lane.
fn push_lane(out: &mut Vec<u8>, s: u64) -> Result<(), Want>
    requires { s < 64 }
    ensures { OnOk result (out.new.items ≡ out.old.items ++ lane_text s) }
{
    push_around(
        out,
        b"<path class='lane' d='M0 ",
        LANE * s + 76,
        b"h1000'/>",
    )?;
    push_around(out, b"<text class='lane' x='4' y='", LANE * s + 72, b"'>")?;
    push_around(out, b"stream ", s, b"</text>\n")
}

// Appends the names of the first streams, as many as the count says.
fn push_lanes(out: &mut Vec<u8>, count: u64) -> Result<(), Want>
    requires { count ≤ 64 }
    ensures { OnOk result (out.new.items ≡ out.old.items ++ flat_map lane_text (range_with_len 0 count)) }
{
    for s in 0..count {
        push_lane(out, s)?;
    }
    Ok(())
}

// Appends what is repeated along a band: the names of its streams, and the kinds of marks.
fn push_names(out: &mut Vec<u8>, streams: u64) -> Result<(), Want>
    requires { streams ≤ 64 }
    ensures { OnOk result (out.new.items ≡ out.old.items ++ names_text streams) }
{
    out.extend_from_slice(b"<defs><g id='names'>\n")?;
    push_lanes(out, streams)?;
    push_around(
        out,
        b"<g transform='translate(8 ",
        LANE * streams + 34,
        b")'>",
    )?;
    out.extend_from_slice(LEGEND)?;
    Ok(())
}

// How wide the picture is: enough for the kinds of marks, and no wider than a band.
fn picture_width(journal: &[Event]) -> u64
    requires { greatest_stamp journal.now ≤ 20000 }
    ensures { result ≡ width_of journal.now }
{
    (10 * greatest_stamp(journal) + 20).min(19_000).max(720)
}

// How high the picture is: as its bands, below the counts.
fn picture_height(journal: &[Event]) -> u64
    requires { greatest_stamp journal.now ≤ 20000 }
    ensures { result ≡ height_of journal.now }
{
    band_height(count_streams(journal)) * count_bands(journal) + 24
}

// Appends what comes before the bands: the size, the style, the counts and the names.
fn push_head(out: &mut Vec<u8>, journal: &[Event]) -> Result<(), Want>
    requires { greatest_stamp journal.now ≤ 20000 }
    ensures { OnOk result (out.new.items ≡ out.old.items ++ head_text journal.now) }
{
    push_size(out, picture_width(journal), picture_height(journal))?;
    out.extend_from_slice(STYLE)?;
    push_counts(out, journal)?;
    push_names(out, count_streams(journal))
}

// Appends the place of the band of number n below those before it.
fn push_window(out: &mut Vec<u8>, height: u64, n: u64) -> Result<(), Want>
    requires height { height ≤ 4000 }
    requires number { n ≤ 10 }
    ensures { OnOk result (out.new.items ≡ out.old.items ++ window_text height n) }
{
    push_around(
        out,
        b"<svg y='",
        height * n + 24,
        b"' width='19000' height='",
    )?;
    push_around(out, b"", height, b"' viewBox='")?;
    push_around(out, b"", 19_000 * n, b" 0 19000 ")?;
    push_around(out, b"", height, b"'>\n")
}

// Appends a stamp on the axis, ten times t.
fn push_tick(out: &mut Vec<u8>, t: u64) -> Result<(), Want>
    ensures { OnOk result (out.new.items ≡ out.old.items ++ tick_text t) }
{
    push_around(out, b"<use href='#tick' x='", t, b"00'/>")?;
    push_around(out, b"<text class='tick' x='", t, b"00' y='12'>")?;
    push_around(out, b"", t, b"0</text>\n")
}

// Appends stamps on the axis, ten times those from the first on.
fn push_ticks(out: &mut Vec<u8>, first: u64, count: u64) -> Result<(), Want>
    requires first { first ≤ 2000 }
    requires count { count ≤ 2000 }
    ensures { OnOk result (out.new.items ≡ out.old.items ++ flat_map tick_text (range_with_len first count)) }
{
    for t in 0..count {
        push_tick(out, first + t)?;
    }
    Ok(())
}

// Appends the stamps on the axis of the band of number n, up to the last stamp.
fn push_ticks_in(out: &mut Vec<u8>, n: u64, last: u64) -> Result<(), Want>
    requires { n ≤ 10 }
    ensures { OnOk result (out.new.items ≡ out.old.items ++ ticks_text n last) }
{
    let count = (last / 10).saturating_sub(190 * n).min(189);
    push_ticks(out, 190 * n + 1, count)?;
    Ok(())
}

// Appends the names and the kinds of marks, i thousand pixels from the left.
fn push_column(out: &mut Vec<u8>, i: u64) -> Result<(), Want>
    ensures { OnOk result (out.new.items ≡ out.old.items ++ column_text i) }
{
    push_around(out, b"<use href='#names' x='", i, b"000'/>\n")
}

// Appends the names and the kinds of marks at thousands of pixels from the first on.
fn push_columns(out: &mut Vec<u8>, first: u64, count: u64) -> Result<(), Want>
    requires first { first ≤ 2000 }
    requires count { count ≤ 2000 }
    ensures { OnOk result (out.new.items ≡ out.old.items ++ flat_map column_text (range_with_len first count)) }
{
    for i in 0..count {
        push_column(out, first + i)?;
    }
    Ok(())
}

// Appends the names and the kinds of marks along the band of number n, up to the last stamp.
fn push_columns_in(out: &mut Vec<u8>, n: u64, last: u64) -> Result<(), Want>
    requires { n ≤ 10 }
    ensures { OnOk result (out.new.items ≡ out.old.items ++ columns_text n last) }
{
    let count = (last / 100 + 1).saturating_sub(19 * n).min(19);
    push_columns(out, 19 * n, count)?;
    Ok(())
}

// Appends the place and the axis of the band of number n.
fn push_axis(out: &mut Vec<u8>, journal: &[Event], n: u64) -> Result<(), Want>
    requires { n ≤ 10 }
    ensures { OnOk result (out.new.items ≡ out.old.items ++ axis_text journal.now n) }
{
    let last = greatest_stamp(journal);
    push_window(out, band_height(count_streams(journal)), n)?;
    push_ticks_in(out, n, last)?;
    push_columns_in(out, n, last)
}

// Appends the frames of stacked schedulers that a band shows.
fn push_frames(out: &mut Vec<u8>, band: Band, frames: &[Frame]) -> Result<(), Want>
    ensures { OnOk result (out.new.items ≡ out.old.items ++ flat_map (frame_in band) frames.now) }
{
    for frame in frames {
        push_frame_in(out, band, frame)?;
    }
    Ok(())
}

// Appends the bars of stretches that a band shows.
fn push_bars(
    alloc: Global,
    out: &mut Vec<u8>,
    band: Band,
    names: &Option<Workload>,
    bars: &[Stretch],
) -> Result<(), Want>
    ensures { OnOk result (out.new.items ≡ out.old.items ++ flat_map (bar_in band names.now) bars.now) }
{
    for bar in bars {
        push_bar_in(alloc, out, band, names, bar)?;
    }
    Ok(())
}

// Appends the marks of events that a band shows.
fn push_marks(out: &mut Vec<u8>, band: Band, journal: &[Event]) -> Result<(), Want>
    ensures { OnOk result (out.new.items ≡ out.old.items ++ flat_map (mark_in band) journal.now) }
{
    for event in journal {
        push_mark_in(out, band, event)?;
    }
    Ok(())
}

// Appends the lines of arrows that a band shows.
fn push_arrows(out: &mut Vec<u8>, band: Band, arrows: &[Arrow]) -> Result<(), Want>
    ensures { OnOk result (out.new.items ≡ out.old.items ++ flat_map (lines_in band) arrows.now) }
{
    for arrow in arrows {
        push_arrow_in(out, band, arrow)?;
    }
    Ok(())
}

// Appends the band of number n, of the journal with these frames, bars and arrows.
fn push_band(
    alloc: Global,
    out: &mut Vec<u8>,
    names: &Option<Workload>,
    journal: &[Event],
    pieces: &[Option<Piece>],
    frames: &[Frame],
    bars: &[Stretch],
    arrows: &[Arrow],
    n: u64,
) -> Result<(), Want>
    requires number { n ≤ 10 }
    requires frames { frames.now ≡ frames_of_all journal.now }
    requires bars { bars.now ≡ stretches_of_all (streams_in journal.now) (noted journal.now pieces.now) }
    requires arrows { arrows.now ≡ arrows_of journal.now }
    ensures { OnOk result (out.new.items ≡ out.old.items ++ band_text names.now pieces.now journal.now n) }
{
    let band = Band::at(n);
    push_axis(out, journal, n)?;
    push_frames(out, band, frames)?;
    push_bars(alloc, out, band, names, bars)?;
    push_marks(out, band, journal)?;
    push_arrows(out, band, arrows)?;
    out.extend_from_slice(b"</svg>\n")?;
    Ok(())
}

// Appends all bands of a journal without a stamp above 20,000.
fn push_bands(
    alloc: Global,
    out: &mut Vec<u8>,
    names: &Option<Workload>,
    journal: &[Event],
    pieces: &[Option<Piece>],
) -> Result<(), Want>
    requires { greatest_stamp journal.now ≤ 20000 }
    ensures { OnOk result (out.new.items ≡ out.old.items ++ flat_map (band_text names.now pieces.now journal.now) (range_with_len 0 (bands_in journal.now))) }
{
    let frames = all_frames(alloc, journal)?;
    let notes = take_notes(alloc, journal, pieces)?;
    let bars = all_stretches(alloc, count_streams(journal), &notes)?;
    let arrows = all_arrows(alloc, journal)?;
    for n in 0..count_bands(journal) {
        push_band(
            alloc, out, names, journal, pieces, &frames, &bars, &arrows, n,
        )?;
    }
    Ok(())
}

// The picture of a journal without a stamp above 20,000.
fn picture(
    alloc: Global,
    names: &Option<Workload>,
    journal: &[Event],
    pieces: &[Option<Piece>],
) -> Result<Vec<u8>, Want>
    requires { greatest_stamp journal.now ≤ 20000 }
    ensures { IfOk result (λ text. text.items ≡ picture_text names.now pieces.now journal.now) }
{
    let mut out = Vec::new(alloc);
    push_head(&mut out, journal)?;
    push_bands(alloc, &mut out, names, journal, pieces)?;
    out.extend_from_slice(b"</svg>\n")?;
    Ok(out)
}

/// Whether a journal is drawn: it has at most 20,000 events and no stamp above 20,000.
pub fn is_drawn(journal: &[Event]) -> bool
    ensures { result ≡ is_small journal.now }
{
    journal.len() as u64 <= MOST_DRAWN && greatest_stamp(journal) <= MOST_DRAWN
}

/// The picture of a journal as an svg, with the operations that its events name, and the pieces that its first events put out, if there
/// is a workload. If the journal has more than 20,000 events, or a stamp above 20,000, the svg is one line of text that says so.
pub fn svg(
    alloc: Global,
    names: &Option<Workload>,
    journal: &[Event],
    pieces: &[Option<Piece>],
) -> Result<Vec<u8>, Want>
    ensures { IfOk result (λ text. text.items ≡ svg_text names.now pieces.now journal.now) }
{
    if is_drawn(journal) {
        return picture(alloc, names, journal, pieces);
    }
    Ok(Vec::from_slice(
        alloc,
        b"<svg xmlns='http://www.w3.org/2000/svg' width='720' height='40'><text x='10' y='25'>a picture has at most 20,000 events and no stamp above 20,000: use abtview trace</text></svg>\n",
    )?)
}
