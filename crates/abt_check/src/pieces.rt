//! What the events of a journal put out.

ghost use Rattle.std.specs.Prelude.{◌≡◌, ◌<◌, ◌-◌, ◌^◌, ◌++◌, [], ◌∷◌, IfOk, List, length};
ghost use Rattle.abt_check.specs.Pieces.{ArePieces, IsReplayed, Replays, any_stored, piece_at as piece_of_op, piece_by};
ghost use Rattle.abt_machine.specs.Events.{May};
ghost use Rattle.abt_machine.specs.State.{State};
ghost use Rattle.abt_machine.specs.declared.events.Event.{Event};
ghost use Rattle.abt_model.specs.Models.{StandsFor};

use abt_machine::{Code, Event, Op, OrderShape, Piece, Want, What, Workload};
use abt_model::Model;
use abt_work::AnyWork;
use std::alloc::Global;

// What an operation puts out, if that is the accumulator.
fn piece_at(op: Option<Op>, acc: u64) -> Option<Piece>
    ensures { result ≡ piece_of_op op acc }
{
    match op? {
        Op::Say(word) => Some(Piece::Said(word)),
        Op::Print => Some(Piece::Number(acc)),
        _ => None,
    }
}

// What an event puts out, if it may come.
fn piece_of(model: &Model, w: &Workload, event: &Event) -> Option<Piece>
    requires stream { event.now.stream.0 < w.now.streams }
    requires stands { (S : State) × StandsFor w.now S model.now }
    ensures { (S : State) → StandsFor w.now S model.now → May w.now any_stored S event.now.stream.0 event.now.what → result ≡ piece_by w.now S event.now.what }
{
    let What::Step(u, at, Code::Ok) = event.what else {
        return None;
    };
    if u.0 >= w.units() {
        return None;
    }
    piece_at(w.op(u, at), model.acc_in_hand(event.stream)?)
}

// Whether the events so far, which are a run, are one with this event too; if they are, it is done.
fn follow(model: &mut Model, w: &Workload, event: &Event) -> Result<bool, Want>
    requires stream { event.now.stream.0 < w.now.streams }
    requires replayed { (J : List Event) × (length J < 2 ^ 64 - 1) × IsReplayed w.now J model.old }
    ensures { IfOk result (λ may. (J : List Event) → IsReplayed w.now J model.old → Replays w.now (J ++ event.now ∷ []) may model.new) }
{
    w.known();
    let orders = [OrderShape::Free, OrderShape::Free];
    model.follow(w, &orders, &AnyWork, event.stream, &event.what)
}

/// What each event of a journal puts out, up to the first that may not come: a `say` its word, and a `print` the accumulator of its
/// unit. A stored order may visit its pools in any order, and a function may return any word.
///
/// # Errors
/// Out of memory.
pub fn put_out(alloc: Global, w: &Workload, journal: &[Event]) -> Result<Vec<Option<Piece>>, Want>
    ensures { IfOk result (λ pieces. ArePieces w.now journal.now pieces.items) }
{
    w.known();
    let mut model = Model::start(alloc, w)?;
    let mut pieces = Vec::new(alloc);
    for event in journal {
        if event.stream.0 >= w.streams() {
            return Ok(pieces);
        }
        let piece = piece_of(&model, w, event);
        if !follow(&mut model, w, event)? {
            return Ok(pieces);
        }
        pieces.push(piece)?;
    }
    Ok(pieces)
}
