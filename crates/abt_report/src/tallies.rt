//! How many units are at each kind of place.

ghost use Rattle.std.specs.Prelude.{◌≡◌, ◌<◌, ◌+◌, ◌-◌, ◌^◌};
ghost use Rattle.abt_machine.specs.Texts.{counted, empty_tally, tally_of as tally_of_units};
ghost use Rattle.abt_report.specs.Pictures.{units_in_rows};
ghost use Rattle.abt_report.specs.Tallies.{IsAtMost};

use crate::pictures::Row;
use abt_machine::{Cause, Shown};
use std::marker::Model;

/// How many units are shown at each kind of place.
#[derive(Drop)]
pub(crate) struct Tally {
    pub(crate) unborn: u64,
    pub(crate) pool: u64,
    pub(crate) stream: u64,
    pub(crate) blocked: u64,
    pub(crate) done: u64,
    pub(crate) asked: u64,
    pub(crate) access: u64,
}

impl Model for Tally {
    ghost use Rattle.abt_machine.specs.Texts.{Tally as Counts};

    ghost Value = { Counts };

    ghost view = { λ t. record {
      unborn = t.unborn;
      pool = t.pool;
      stream = t.stream;
      blocked = t.blocked;
      done = t.done;
      asked = t.asked;
      access = t.access;
    } };
}

impl Tally {
    fn new() -> Self
        ensures { result ≡ empty_tally }
    {
        Tally {
            unborn: 0,
            pool: 0,
            stream: 0,
            blocked: 0,
            done: 0,
            asked: 0,
            access: 0,
        }
    }

    // Counts one more unit; no count is above `seen` before.
    fn count(&mut self, shown: Shown, seen: usize)
        requires few { IsAtMost seen self.old }
        requires room { seen < 2 ^ 64 - 1 }
        ensures one_more { self.new ≡ counted self.old shown }
        ensures few { IsAtMost (seen + 1) self.new }
    {
        match shown {
            Shown::Unborn => self.unborn += 1,
            Shown::Pool(_) => self.pool += 1,
            Shown::Stream(_) => self.stream += 1,
            Shown::Suspended | Shown::Join(_) | Shown::Object(_) => self.blocked += 1,
            Shown::Ended(Cause::Done | Cause::Own) => self.done += 1,
            Shown::Ended(Cause::Asked) => self.asked += 1,
            Shown::Ended(Cause::Access) => self.access += 1,
        }
    }
}

/// The tally of these units.
pub(crate) fn tally_of(rows: &[Row]) -> Tally
    ensures { result ≡ tally_of_units (units_in_rows rows.now) }
{
    let mut tally = Tally::new();
    for (i, row) in rows.iter().enumerate() {
        tally.count(row.shown, i);
    }
    tally
}
