//! Whether two ends show the same.

ghost use Rattle.std.specs.Prelude.{◌≡◌, ◌↔◌, IsTrue};
ghost use Rattle.abt_explore.specs.Same.{IsSameEnd, ListsSame};
ghost use Rattle.abt_report.specs.Pictures.{unit_in_row, units_in_rows};

use crate::exploration::End;
use abt_machine::{Outcome, Piece};
use abt_report::Row;

/// Whether one of the ends has that outcome and shows the units of these rows.
pub(crate) fn lists(ends: &[End], outcome: Outcome, rows: &[Row]) -> bool
    ensures { IsTrue result ↔ ListsSame ends.now outcome rows.now }
{
    for noted in ends {
        if is_same(noted, outcome, rows) {
            return true;
        }
    }
    false
}

// Whether the end has that outcome and shows the units of these rows.
fn is_same(noted: &End, outcome: Outcome, rows: &[Row]) -> bool
    ensures { IsTrue result ↔ IsSameEnd noted.now outcome rows.now }
{
    let same_outcome = noted.outcome == outcome;
    same_outcome && show_same(noted.picture.items(), rows)
}

// Whether the rows show the same units.
fn show_same(one: &[Row], two: &[Row]) -> bool
    ensures { IsTrue result ↔ (units_in_rows one.now ≡ units_in_rows two.now) }
{
    if one.len() != two.len() {
        return false;
    }
    for (at, row) in one.iter().enumerate() {
        if !shows_same(row, &two[at]) {
            return false;
        }
    }
    true
}

// Whether two rows show the same unit.
fn shows_same(one: &Row, two: &Row) -> bool
    ensures { IsTrue result ↔ (unit_in_row one.now ≡ unit_in_row two.now) }
{
    let same_place = one.shown == two.shown;
    same_place && are_same(one.output.items(), two.output.items())
}

// Whether two outputs are the same.
fn are_same(one: &[Piece], two: &[Piece]) -> bool
    ensures { IsTrue result ↔ (one.now ≡ two.now) }
{
    one == two
}
