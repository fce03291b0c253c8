//! The operations that events name, and what an svg has of them.

ghost use Rattle.std.specs.Prelude.{◌≡◌, ◌++◌, IfOk, OnOk, option_map};
ghost use Rattle.abt_machine.specs.Operations.{IsDeclared};
ghost use Rattle.abt_machine.specs.Texts.{event_words};
ghost use Rattle.abt_machine.specs.Words.{line_of};
ghost use Rattle.abt_machine.specs.Workloads.{op_at};
ghost use Rattle.abt_view.specs.Named.{after_line, is_no_character as is_none_of, named_line, op_named as op_named_by, op_of as op_of_event, op_text, operation_of as operation_of_event, output_after, output_at as output_by, output_of as output_in, shown_of as shown_in, xml_after, xml_byte, xml_byte_after, xml_text};

use crate::notes::Note;
use abt_lines::{end_line, push_number};
use abt_machine::{Event, Items, Op, Piece, UnitNo, Want, What, Workload};
use abt_report::journal_text;
use abt_workload::push_operation;
use std::alloc::Global;

// The operation of a unit at a position, if the workload has both.
fn op_at(w: &Workload, u: UnitNo, at: u32) -> Option<Op>
    ensures { result ≡ op_at w.now u.0 at }
{
    if u.0 < w.units() { w.op(u, at) } else { None }
}

// The operation that an event names, if the workload has it.
fn op_named(w: &Workload, what: What) -> Option<Op>
    ensures { result ≡ op_named_by w.now what }
{
    match what {
        What::Miss(_) => None,
        What::Take(_, _) => None,
        What::Look(_) => None,
        What::Step(u, at, _) => op_at(w, u, at),
        What::Call(u, at, _) => op_at(w, u, at),
        What::Put(_, _) => None,
        What::End(_, _) => None,
        What::Enter(_) => None,
        What::Leave(_) => None,
    }
}

// That of an event, if there is a workload that has it.
pub(crate) fn op_of(names: &Option<Workload>, what: What) -> Option<Op>
    ensures { result ≡ op_of_event names.now what }
{
    match names {
        None => None,
        Some(w) => op_named(w, what),
    }
}

// An operation as its line in the workload's text.
fn text_of(alloc: Global, w: &Workload, op: Op) -> Result<Vec<u8>, Want>
    requires { IsDeclared w.now op }
    ensures { IfOk result (λ text. text.items ≡ op_text w.now op) }
{
    let mut text = Vec::new(alloc);
    push_operation(&mut text, w, op)?;
    Ok(text)
}

// The operation that an event names, if there is a workload that has it.
pub(crate) fn operation_of(
    alloc: Global,
    names: &Option<Workload>,
    what: What,
) -> Result<Option<Vec<u8>>, Want>
    ensures { IfOk result (λ operation. option_map (λ text. text.items) operation ≡ operation_of_event names.now what) }
{
    let Some(w) = names else {
        return Ok(None);
    };
    w.known();
    match op_named(w, what) {
        None => Ok(None),
        Some(op) => {
            let text = text_of(alloc, w, op)?;
            Ok(Some(text))
        }
    }
}

// What an operation put out, if that is known: a say its word, and a print a number.
fn output_at(
    alloc: Global,
    w: &Workload,
    op: Op,
    piece: Option<Piece>,
) -> Result<Option<Vec<u8>>, Want>
    requires { IsDeclared w.now op }
    ensures { IfOk result (λ output. option_map (λ text. text.items) output ≡ output_by w.now op piece) }
{
    match (op, piece) {
        (Op::Say(word), Some(_)) => {
            let text = Vec::from_slice(alloc, w.word(word).as_bytes())?;
            Ok(Some(text))
        }
        (Op::Print, Some(Piece::Number(n))) => {
            let mut text = Vec::new(alloc);
            push_number(&mut text, n)?;
            Ok(Some(text))
        }
        _ => Ok(None),
    }
}

// What the operation that an event names put out, if there is a workload that has it and that is known.
pub(crate) fn output_of(
    alloc: Global,
    names: &Option<Workload>,
    note: &Note,
) -> Result<Option<Vec<u8>>, Want>
    ensures { IfOk result (λ output. option_map (λ text. text.items) output ≡ output_in names.now note.now) }
{
    let Some(w) = names else {
        return Ok(None);
    };
    w.known();
    match op_named(w, note.event.what) {
        None => Ok(None),
        Some(op) => output_at(alloc, w, op, note.piece),
    }
}

// An operation with what it put out, if that is known.
fn with_output(mut operation: Vec<u8>, output: &Option<Vec<u8>>) -> Result<Vec<u8>, Want>
    ensures { IfOk result (λ text. text.items ≡ output_after operation.items (option_map (λ text. text.items) output.now)) }
{
    if let Some(output) = output {
        operation.extend_from_slice(b": ")?;
        operation.extend_from_slice(output)?;
    }
    Ok(operation)
}

// The operation that an event names, with what it put out, if there is a workload that has it.
pub(crate) fn shown_of(
    alloc: Global,
    names: &Option<Workload>,
    note: &Note,
) -> Result<Option<Vec<u8>>, Want>
    ensures { IfOk result (λ shown. option_map (λ text. text.items) shown ≡ shown_in names.now note.now) }
{
    let Some(operation) = operation_of(alloc, names, note.event.what)? else {
        return Ok(None);
    };
    let output = output_of(alloc, names, note)?;
    Ok(Some(with_output(operation, &output)?))
}

// Appends a byte to a text in an svg.
fn push_xml_byte(out: &mut Vec<u8>, b: u8) -> Result<(), Want>
    ensures { OnOk result (out.new.items ≡ out.old.items ++ xml_byte b) }
{
    match b {
        b'&' => out.extend_from_slice(b"&amp;")?,
        b'<' => out.extend_from_slice(b"&lt;")?,
        b'>' => out.extend_from_slice(b"&gt;")?,
        b'"' => out.extend_from_slice(b"&quot;")?,
        b'\'' => out.extend_from_slice(b"&#39;")?,
        _ => out.push(b)?,
    }
    Ok(())
}

// Whether these are the bytes of U+FFFE or U+FFFF, which XML does not have.
fn is_no_character(a: u8, b: u8, c: u8) -> bool
    ensures { result ≡ is_none_of a b c }
{
    a == 239 && b == 191 && 190 <= c
}

// Appends a byte that comes after two others.
fn push_xml_byte_after(out: &mut Vec<u8>, a: u8, b: u8, c: u8) -> Result<(), Want>
    ensures { OnOk result (out.new.items ≡ out.old.items ++ xml_byte_after a b c) }
{
    if is_no_character(a, b, c) {
        out.push(189)?;
        return Ok(());
    }
    push_xml_byte(out, c)
}

// Appends a text that comes after two bytes.
fn push_xml_after(out: &mut Vec<u8>, a: u8, b: u8, text: &[u8]) -> Result<(), Want>
    ensures { OnOk result (out.new.items ≡ out.old.items ++ xml_after a b text.now) }
{
    match text.split_first() {
        None => Ok(()),
        Some((c, text)) => {
            push_xml_byte_after(out, a, b, *c)?;
            push_xml_after(out, b, *c, text)
        }
    }
}

// Appends a text in an svg.
pub(crate) fn push_xml(out: &mut Vec<u8>, text: &[u8]) -> Result<(), Want>
    ensures { OnOk result (out.new.items ≡ out.old.items ++ xml_text text.now) }
{
    push_xml_after(out, 0, 0, text)
}

// Appends an operation after a line.
fn push_after_line(out: &mut Vec<u8>, operation: &Option<Vec<u8>>) -> Result<(), Want>
    ensures { OnOk result (out.new.items ≡ out.old.items ++ after_line (option_map (λ text. text.items) operation.now)) }
{
    match operation {
        None => Ok(()),
        Some(text) => {
            out.extend_from_slice(b"  ")?;
            push_xml(out, text)
        }
    }
}

// Appends the line of an event, without its line feed.
fn push_event(alloc: Global, out: &mut Vec<u8>, event: &Event) -> Result<(), Want>
    ensures { OnOk result (out.new.items ≡ out.old.items ++ line_of (event_words event.now)) }
{
    let mut events = Vec::new(alloc);
    let what: What = event.what;
    events.push(Event { what, ..*event })?;
    let line = journal_text(alloc, &Items::new(events))?;
    out.extend_from_slice(&line[..line.len().saturating_sub(1)])?;
    Ok(())
}

// Appends the line of an event, with the operation that it names and what that put out, if there is a workload that has it.
pub(crate) fn push_named_line(
    alloc: Global,
    out: &mut Vec<u8>,
    names: &Option<Workload>,
    note: &Note,
) -> Result<(), Want>
    ensures { OnOk result (out.new.items ≡ out.old.items ++ named_line names.now note.now) }
{
    let operation = shown_of(alloc, names, note)?;
    push_event(alloc, out, &note.event)?;
    push_after_line(out, &operation)?;
    end_line(out)
}
