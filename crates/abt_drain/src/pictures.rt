//! The picture of a run's end.

ghost use Rattle.std.specs.Prelude.{◌≡◌, ◌<◌, ◌∷◌, [], IfOk, length, map, option_map, replicate};
ghost use Rattle.std.specs.List.{All};
ghost use Rattle.abt_calls.specs.Effects.{unit_in};
ghost use Rattle.abt_calls.specs.Showing.{rows_as};
ghost use Rattle.abt_commons.specs.Groups.{rows_in};
ghost use Rattle.abt_drain.specs.Pictures.{AreBelow, LeavesWhatFits, ShowsUnits, blank, placed, rows_left, units_in_parts};
ghost use Rattle.abt_report.specs.Pictures.{SaysWordsOf};
ghost use Rattle.abt_commons.specs.Acts.{owned};

use abt_chain::Chain;
use abt_commons::{Group, Objects};
use abt_machine::{Output, Shown, StreamNo, Want, Workload};
use abt_report::{Picture, Row};
use abt_stream::{Frames, StreamParts};
use abt_unit::Unit;
use std::alloc::Global;

/// The picture of the units that streams leave and objects hold, in order of number. Each output is moved into its row.
pub fn picture<'w>(
    alloc: Global,
    w: &Workload,
    objects: Objects<'w>,
    streams: Vec<StreamParts>,
) -> Result<Picture, Want>
    requires objects { objects.workload ≡ w.now }
    requires streams { length streams.items ≡ w.now.streams }
    requires fits { All (LeavesWhatFits w.now) streams.items }
    ensures units { IfOk result (ShowsUnits w.now streams.items objects.entry) }
    ensures words { IfOk result (All (SaysWordsOf w.now)) }
{
    w.known();
    let mut rows = blanks(alloc, w.units())?;
    let groups = objects.into_groups(alloc)?;
    place_streams(w, streams, &mut rows);
    place_groups(groups, &mut rows);
    Ok(Picture::new(rows))
}

// `units` rows, each of an unborn unit.
fn blanks(alloc: Global, units: u32) -> Result<Vec<Row>, Want>
    ensures { IfOk result (λ rows. rows.items ≡ replicate units blank) }
{
    let mut rows = Vec::with_capacity(alloc, units as usize)?;
    for _ in 0..units {
        rows.push(Row {
            shown: Shown::Unborn,
            output: Output::new(Vec::new(alloc)),
        })?;
    }
    Ok(rows)
}

// Puts in the units that all streams leave.
fn place_streams(w: &Workload, streams: Vec<StreamParts>, rows: &mut Vec<Row>)
    requires streams { length streams.items ≡ w.now.streams }
    requires fits { All (LeavesWhatFits w.now) streams.items }
    requires rows { length rows.old.items ≡ length w.now.units }
    ensures { rows.new.items ≡ placed (rows_left 0 streams.items) rows.old.items }
{
    w.known();
    let mut s = 0;
    for parts in streams {
        place_parts(Shown::Stream(StreamNo(s)), parts, rows);
        s += 1;
    }
}

// Puts in the units of all groups.
fn place_groups(groups: Vec<Group>, rows: &mut Vec<Row>)
    requires { All (λ row. row.1.number < length rows.old.items) (rows_in groups.items) }
    ensures { rows.new.items ≡ placed (rows_in groups.items) rows.old.items }
{
    for group in groups {
        place_all(group.shown, group.units, rows);
    }
}

// Puts in the units that a stream leaves.
fn place_parts(shown: Shown, parts: StreamParts, rows: &mut Vec<Row>)
    requires { AreBelow (length rows.old.items) (units_in_parts parts) }
    ensures { rows.new.items ≡ placed (rows_as shown (units_in_parts parts)) rows.old.items }
{
    place_some(shown, parts.hand, rows);
    place_some(shown, parts.next, rows);
    place_all(shown, parts.tray, rows);
    place_frames(shown, parts.frames, rows);
}

// Puts in a unit, if there is one.
fn place_some(shown: Shown, unit: Option<Box<Unit>>, rows: &mut Vec<Row>)
    requires { AreBelow (length rows.old.items) (unit_in (option_map owned unit)) }
    ensures { rows.new.items ≡ placed (rows_as shown (unit_in (option_map owned unit))) rows.old.items }
{
    match unit {
        Some(unit) => place(shown, unit, rows),
        None => {}
    }
}

// Puts in the units of a chain.
fn place_all(shown: Shown, mut units: Chain, rows: &mut Vec<Row>)
    requires { AreBelow (length rows.old.items) units.units }
    ensures { rows.new.items ≡ placed (rows_as shown units.units) rows.old.items }
{
    while let Some(unit) = units.take_front() {
        place(shown, unit, rows);
    }
}

// Puts in the scheduler units of stacked frames.
fn place_frames(shown: Shown, frames: Frames, rows: &mut Vec<Row>)
    requires { AreBelow (length rows.old.items) (map owned frames) }
    ensures { rows.new.items ≡ placed (rows_as shown (map owned frames)) rows.old.items }
{
    for unit in frames.into_items() {
        place(shown, unit, rows);
    }
}

// Puts in a unit.
fn place(shown: Shown, unit: Box<Unit>, rows: &mut Vec<Row>)
    requires { unit.value.owned.number < length rows.old.items }
    ensures { rows.new.items ≡ placed (rows_as shown (unit.value.owned ∷ [])) rows.old.items }
{
    let number = unit.number().0 as usize;
    let output = Box::into_inner(unit).into_output();
    rows[number] = Row { shown, output };
}
