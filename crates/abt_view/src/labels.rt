//! The texts in a bar: the number of its unit, and the operations that have room.

ghost use Rattle.std.specs.Prelude.{◌≡◌, ◌++◌, IfOk, OnOk, Some, option_map};
ghost use Rattle.abt_view.specs.Labels.{label_text, labelled, labelled_by, labels_text, number_end, number_text, part_in, texts_of};

use crate::bands::Band;
use crate::named::{push_xml, shown_of};
use crate::notes::Note;
use crate::stretches::Stretch;
use crate::texts::push_around;
use abt_machine::{Want, Workload};
use std::alloc::Global;
use std::marker::Model;

/// The part of a bar that a band shows: the stamp at which the bar begins, and the first and last stamps that are shown.
#[derive(Clone, Copy)]
pub(crate) struct Part {
    pub since: u64,
    pub first: u64,
    pub last: u64,
}

// The last stamp that the texts so far cover, counted from the first that is shown, and the operations among them.
#[derive(Drop)]
struct Row {
    covered: u64,
    text: Vec<u8>,
}

impl Model for Row {
    ghost use Rattle.abt_view.specs.Labels.{RowValue};

    ghost Value = { RowValue };

    ghost view = { λ r. record { covered = r.covered; text = r.text.items } };
}

impl Part {
    // The part of a bar that the band shows.
    fn shown(band: Band, bar: &Stretch) -> Part
        ensures { result ≡ part_in band bar.now }
    {
        Part {
            since: bar.since,
            first: bar.since.max(band.first),
            last: bar.until.min(band.last),
        }
    }
}

// Appends the number of a bar's unit.
fn push_number_of(out: &mut Vec<u8>, part: Part, u: u32) -> Result<(), Want>
    ensures { OnOk result (out.new.items ≡ out.old.items ++ number_text part u) }
{
    let at = part.first.saturating_sub(part.since);
    push_around(out, b"<text x='", at, b"2' y='14'>")?;
    push_around(out, b"", u64::from(u), b"</text>")
}

// The last stamp that the number of a unit covers, counted from the first.
fn end_of_number(u: u32) -> u64
    ensures { result ≡ number_end u }
{
    if u < 10 {
        0
    } else if u < 100 {
        1
    } else if u < 1_000 {
        2
    } else if u < 10_000 {
        3
    } else {
        9
    }
}

// Appends an operation at a stamp.
fn push_label(out: &mut Vec<u8>, part: Part, stamp: u64, operation: &[u8]) -> Result<(), Want>
    ensures { OnOk result (out.new.items ≡ out.old.items ++ label_text part stamp operation.now) }
{
    let at = stamp.saturating_sub(part.since);
    push_around(out, b"<text class='op' x='", at, b"0' y='13'>")?;
    push_xml(out, operation)?;
    out.extend_from_slice(b"</text>")?;
    Ok(())
}

impl Row {
    // Appends an operation at a stamp, if it has room.
    fn add(&mut self, part: Part, stamp: u64, operation: &[u8]) -> Result<(), Want>
        ensures { OnOk result (self.new ≡ labelled_by part stamp self.old (Some operation.now)) }
    {
        let at = stamp.saturating_sub(part.first);
        let half = operation.len() as u64 / 2;
        if self.covered < at && half <= part.last.saturating_sub(stamp) {
            push_label(&mut self.text, part, stamp, operation)?;
            self.covered = at + half;
        }
        Ok(())
    }

    // Appends the operation at a stamp, if there is one and it has room.
    fn add_named(&mut self, part: Part, stamp: u64, operation: &Option<Vec<u8>>) -> Result<(), Want>
        ensures { OnOk result (self.new ≡ labelled_by part stamp self.old (option_map (λ text. text.items) operation.now)) }
    {
        match operation {
            None => Ok(()),
            Some(operation) => self.add(part, stamp, operation),
        }
    }

    // Appends the operation that an event names, with what it put out, if there is a workload that has it and it has room.
    fn take(
        &mut self,
        alloc: Global,
        part: Part,
        names: &Option<Workload>,
        note: &Note,
    ) -> Result<(), Want>
        ensures { OnOk result (self.new ≡ labelled part names.now self.old note.now) }
    {
        let operation = shown_of(alloc, names, note)?;
        self.add_named(part, note.event.stamp, &operation)
    }
}

// The operations of a bar that have room, if there is a workload that has them.
fn labels(
    alloc: Global,
    part: Part,
    names: &Option<Workload>,
    bar: &Stretch,
) -> Result<Vec<u8>, Want>
    ensures { IfOk result (λ text. text.items ≡ labels_text part names.now bar.now.unit bar.now.events) }
{
    let mut row = Row {
        covered: end_of_number(bar.unit),
        text: Vec::new(alloc),
    };
    for note in bar.events.items() {
        row.take(alloc, part, names, note)?;
    }
    let Row { covered: _, text } = row;
    Ok(text)
}

// Appends the texts in a bar.
pub(crate) fn push_texts(
    alloc: Global,
    out: &mut Vec<u8>,
    band: Band,
    names: &Option<Workload>,
    bar: &Stretch,
) -> Result<(), Want>
    ensures { OnOk result (out.new.items ≡ out.old.items ++ texts_of (part_in band bar.now) names.now bar.now) }
{
    let part = Part::shown(band, bar);
    push_number_of(out, part, bar.unit)?;
    let labels = labels(alloc, part, names, bar)?;
    out.extend_from_slice(&labels)?;
    Ok(())
}
