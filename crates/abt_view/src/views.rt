//! The views of a journal, and the words that ask for them.

ghost use Rattle.std.specs.Prelude.{◌≡◌, ◌≢◌, ◌↔◌, [], IfOk, IsTrue, MatchOption, codes, map, option_map, string_bytes};
ghost use Rattle.abt_view.specs.Views.{Asks, AsksNoView, IsNoView, conclusion_of, number_of_conclusion, request, view_text as text_of_view, view_word};

use crate::pictures::{is_drawn, svg};
use crate::traces::trace;
use abt_machine::{Event, Piece, Want, Workload};
use std::alloc::Global;

/// What is shown of a journal: a picture, or a trace for a trace viewer.
#[derive(Clone, Copy, Debug, PartialEq, Eq)]
pub enum View {
    Svg,
    Trace,
}

/// What a call comes to whose words are carried out.
#[derive(Clone, Copy, Debug, PartialEq, Eq)]
pub enum Conclusion {
    /// A view shows the journal.
    Shown,
    /// A journal is too large to be drawn, as the svg says.
    TooLarge,
    /// The program has said how it is called, or its version.
    Told,
}

impl Conclusion {
    /// The exit status, if all was written.
    pub fn number(self) -> u8
        ensures { result ≡ number_of_conclusion self }
    {
        match self {
            Conclusion::Shown => 0,
            Conclusion::TooLarge => 8,
            Conclusion::Told => 0,
        }
    }
}

// The view of that word.
fn view_of(word: &str) -> Option<View>
    ensures { MatchOption result (IsNoView word.now) (λ v. view_word v ≡ word.now) }
{
    match word {
        "svg" => Some(View::Svg),
        "trace" => Some(View::Trace),
        _ => None,
    }
}

// Whether a workload's file may be named beside a journal's: its name has a byte, and not both are `-`.
fn may_name(journal: &str, workload: &str) -> bool
    ensures { IsTrue result ↔ (workload.now ≢ []) × (journal.now ≡ codes "-" → workload.now ≡ codes "-" → ⊥) }
{
    if workload.is_empty() {
        return false;
    }
    journal != "-" || workload != "-"
}

/// What the words ask for: a view, the name of the journal's file, and that of the workload's, if they name one.
pub fn asked(words: &[String]) -> Option<(View, &str, Option<&str>)>
    ensures { MatchOption result
        (AsksNoView (map string_bytes words.now))
        (λ asked. Asks (map string_bytes words.now) (request asked.0 asked.1.now (option_map (λ name. name.now) asked.2))) }
{
    match words {
        [word, journal] => Some((view_of(word.as_str())?, journal.as_str(), None)),
        [word, journal, workload] => {
            let view = view_of(word.as_str())?;
            if !may_name(journal.as_str(), workload.as_str()) {
                return None;
            }
            Some((view, journal.as_str(), Some(workload.as_str())))
        }
        _ => None,
    }
}

/// The text of a view, with the operations that the journal's events name, and the pieces that its first events put out, if there is a
/// workload.
pub fn view_text(
    alloc: Global,
    view: View,
    names: &Option<Workload>,
    journal: &[Event],
    pieces: &[Option<Piece>],
) -> Result<Vec<u8>, Want>
    ensures { IfOk result (λ text. text.items ≡ text_of_view view names.now pieces.now journal.now) }
{
    match view {
        View::Svg => svg(alloc, names, journal, pieces),
        View::Trace => trace(alloc, names, journal, pieces),
    }
}

/// What a call comes to that shows this view of the journal: a picture has at most 20,000 events, and no stamp above 20,000.
pub fn conclude(view: View, journal: &[Event]) -> Conclusion
    ensures { result ≡ conclusion_of view journal.now }
{
    match view {
        View::Svg => {
            if is_drawn(journal) {
                return Conclusion::Shown;
            }
            Conclusion::TooLarge
        }
        View::Trace => Conclusion::Shown,
    }
}
