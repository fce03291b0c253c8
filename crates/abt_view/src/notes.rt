//! The events of a journal, each with what it put out.

ghost use Rattle.std.specs.Prelude.{◌≡◌, IfOk, None, get_or};
ghost use Rattle.abt_view.specs.Notes.{noted};

use abt_machine::{Event, Piece, Want};
use std::alloc::Global;

/// An event, and what it put out, if that is known.
#[derive(Clone, Copy)]
pub struct Note {
    pub event: Event,
    pub piece: Option<Piece>,
}

// What the event at a place put out, if that is known.
fn piece_at(pieces: &[Option<Piece>], at: usize) -> Option<Piece>
    ensures { result ≡ get_or pieces.now at None }
{
    match pieces.get(at) {
        Some(piece) => *piece,
        None => None,
    }
}

/// The events of a journal, with what its first events put out.
pub fn take_notes(
    alloc: Global,
    journal: &[Event],
    pieces: &[Option<Piece>],
) -> Result<Vec<Note>, Want>
    ensures { IfOk result (λ notes. notes.items ≡ noted journal.now pieces.now) }
{
    let mut notes = Vec::new(alloc);
    for (at, event) in journal.iter().enumerate() {
        let piece = piece_at(pieces, at);
        notes.push(Note {
            event: *event,
            piece,
        })?;
    }
    Ok(notes)
}
