//! The report of a run.

ghost use Rattle.std.specs.Prelude.{◌≡◌, ◌<◌, ◌++◌, ◌∷◌, [], All, IfOk, length, map, OnOk, flat_map};
ghost use Rattle.abt_machine.specs.Pieces.{IsPieceOf};
ghost use Rattle.abt_machine.specs.Texts.{outcome_words, piece_word, report_of, short_of, shown_words, tally_and_outcome, tally_words, unit_line};
ghost use Rattle.abt_machine.specs.Words.{ended, line_of, numbered, spaced};
ghost use Rattle.abt_report.specs.Pictures.{SaysWordsOf, unit_in_row, units_in_rows};

use crate::pictures::{Picture, Row};
use crate::tallies::{Tally, tally_of};
use crate::words::{name_of_code, name_of_end, push_numbered};
use abt_lines::{end_line, push_decimal, push_word};
use abt_machine::{Outcome, Piece, Shown, Want, Workload};
use std::alloc::Global;

// Appends where a unit is, with a space before each word.
fn push_shown(out: &mut Vec<u8>, shown: Shown) -> Result<(), Want>
    ensures { OnOk result (out.new.items ≡ out.old.items ++ spaced (shown_words shown)) }
{
    match shown {
        Shown::Unborn => push_word(out, b"unborn"),
        Shown::Pool(p) => push_numbered(out, b"pool", u64::from(p.0)),
        Shown::Stream(s) => push_numbered(out, b"stream", u64::from(s.0)),
        Shown::Suspended => push_word(out, b"suspended"),
        Shown::Join(u) => push_numbered(out, b"join", u64::from(u.0)),
        Shown::Object(x) => push_numbered(out, b"object", u64::from(x.0)),
        Shown::Ended(cause) => push_word(out, name_of_end(cause)),
    }
}

// Appends a piece of output, with a space before it.
fn push_piece(out: &mut Vec<u8>, w: &Workload, piece: Piece) -> Result<(), Want>
    requires { IsPieceOf w.now piece }
    ensures { OnOk result (out.new.items ≡ out.old.items ++ spaced (piece_word w.now piece ∷ [])) }
{
    match piece {
        Piece::Said(word) => push_word(out, w.word(word).as_bytes()),
        Piece::Number(n) => push_decimal(out, n),
        Piece::Refused(code) => {
            out.extend_from_slice(b" !")?;
            out.extend_from_slice(name_of_code(code))?;
            Ok(())
        }
    }
}

// Appends pieces of output, with a space before each.
pub(crate) fn push_output(out: &mut Vec<u8>, w: &Workload, output: &[Piece]) -> Result<(), Want>
    requires { All (IsPieceOf w.now) output.now }
    ensures { OnOk result (out.new.items ≡ out.old.items ++ spaced (map (piece_word w.now) output.now)) }
{
    for piece in output {
        push_piece(out, w, *piece)?;
    }
    Ok(())
}

// Appends the line of unit u.
fn push_unit(out: &mut Vec<u8>, w: &Workload, u: u64, row: &Row) -> Result<(), Want>
    requires { SaysWordsOf w.now row.now }
    ensures { OnOk result (out.new.items ≡ out.old.items ++ ended (unit_line w.now u (unit_in_row row.now))) }
{
    out.extend_from_slice(b"unit")?;
    push_decimal(out, u)?;
    push_shown(out, row.shown)?;
    out.extend_from_slice(b":")?;
    push_output(out, w, row.output.items())?;
    end_line(out)
}

// Appends the lines of these units.
fn push_units(out: &mut Vec<u8>, w: &Workload, rows: &[Row]) -> Result<(), Want>
    requires { All (SaysWordsOf w.now) rows.now }
    ensures { OnOk result (out.new.items ≡ out.old.items ++ flat_map ended (numbered (unit_line w.now) (units_in_rows rows.now))) }
{
    for (u, row) in rows.iter().enumerate() {
        push_unit(out, w, u as u64, row)?;
    }
    Ok(())
}

// Appends the line of a tally and of the number of units.
fn push_tally(out: &mut Vec<u8>, units: u64, tally: &Tally, steps: u64) -> Result<(), Want>
    ensures { OnOk result (out.new.items ≡ out.old.items ++ ended (line_of (tally_words units tally.now steps))) }
{
    out.extend_from_slice(b"tally")?;
    push_numbered(out, b"units", units)?;
    push_numbered(out, b"unborn", tally.unborn)?;
    push_numbered(out, b"pool", tally.pool)?;
    push_numbered(out, b"stream", tally.stream)?;
    push_numbered(out, b"blocked", tally.blocked)?;
    push_numbered(out, b"done", tally.done)?;
    push_numbered(out, b"asked", tally.asked)?;
    push_numbered(out, b"access", tally.access)?;
    push_numbered(out, b"steps", steps)?;
    end_line(out)?;
    Ok(())
}

// Appends how a run ended.
fn push_outcome(out: &mut Vec<u8>, outcome: Outcome) -> Result<(), Want>
    ensures { OnOk result (out.new.items ≡ out.old.items ++ ended (line_of (outcome_words outcome))) }
{
    match outcome {
        Outcome::Finished => out.extend_from_slice(b"finished")?,
        Outcome::Stuck => out.extend_from_slice(b"stuck")?,
        Outcome::Budget(s) => {
            out.extend_from_slice(b"budget")?;
            push_decimal(out, u64::from(s.0))?;
        }
    }
    end_line(out)
}

// Appends the tally of these units, and how the run ended.
fn push_end(out: &mut Vec<u8>, rows: &[Row], outcome: Outcome, steps: u64) -> Result<(), Want>
    ensures { OnOk result (out.new.items ≡ out.old.items ++ tally_and_outcome (units_in_rows rows.now) steps outcome) }
{
    push_tally(out, rows.len() as u64, &tally_of(rows), steps)?;
    push_outcome(out, outcome)?;
    Ok(())
}

/// Appends the report of a run with that number of steps: a line for each unit of the picture, the tally, and how the run ended.
pub fn append_report(
    out: &mut Vec<u8>,
    w: &Workload,
    picture: &Picture,
    outcome: Outcome,
    steps: u64,
) -> Result<(), Want>
    requires words { All (SaysWordsOf w.now) picture.now }
    ensures { OnOk result (out.new.items ≡ out.old.items ++ report_of w.now (units_in_rows picture.now) steps outcome) }
{
    push_units(out, w, picture.items())?;
    push_end(out, picture.items(), outcome, steps)
}

/// The report of a run, as `append_report` appends it.
pub fn report(
    alloc: Global,
    w: &Workload,
    picture: &Picture,
    outcome: Outcome,
    steps: u64,
) -> Result<Vec<u8>, Want>
    requires words { All (SaysWordsOf w.now) picture.now }
    ensures { IfOk result (λ text. text.items ≡ report_of w.now (units_in_rows picture.now) steps outcome) }
{
    let mut out = Vec::new(alloc);
    append_report(&mut out, w, picture, outcome, steps)?;
    Ok(out)
}

/// The short report: as the report, but with the line of unit 0 only.
pub fn short_report(
    alloc: Global,
    w: &Workload,
    picture: &Picture,
    outcome: Outcome,
    steps: u64,
) -> Result<Vec<u8>, Want>
    requires words { All (SaysWordsOf w.now) picture.now }
    requires unit { 0 < length picture.now }
    ensures { IfOk result (λ text. text.items ≡ short_of w.now (units_in_rows picture.now) steps outcome) }
{
    let mut out = Vec::new(alloc);
    push_unit(&mut out, w, 0, &picture.items()[0])?;
    push_end(&mut out, picture.items(), outcome, steps)?;
    Ok(out)
}
