//! Who holds a reader-writer lock.

ghost use Rattle.std.specs.Prelude.{◌≡◌, ◌<◌, ◌^◌, ◌==◌, ◌&&◌, ◌||◌, ℕ, IfOk, IsTrue, List, None, is_none, is_some, length, nat_lt, option_map, replicate, slice_index, slice_set};
ghost use Rattle.std.specs.List.{sum};
ghost use Rattle.abt_machine.specs.Fronts.{is_some_of};
ghost use Rattle.abt_machine.specs.Holders.{given_up};
ghost use Rattle.abt_machine.specs.declared.events.Wish.{Wish};
ghost use Rattle.abt_machine.specs.declared.numbers.UnitNo.{UnitNo};
ghost use Rattle.abt_rwlock.specs.Parts.{held_by};

use abt_machine::{UnitNo, Want};
use std::alloc::Global;
use std::marker::Model;

/// The unit that writes, how often each unit reads, and how often all of them read.
#[derive(Drop)]
pub struct Holders {
    writer: Option<UnitNo>,
    counts: Vec<u16>,
    total: u64,
}

impl Model for Holders {
    ghost use Rattle.std.specs.Prelude.{◌≡◌, ◌<◌, ◌^◌, length, option_map};
    ghost use Rattle.std.specs.List.{sum};
    ghost use Rattle.abt_machine.specs.declared.numbers.UnitNo.{UnitNo};
    ghost use Rattle.abt_rwlock.specs.Parts.{HoldersValue};

    ghost Value = { HoldersValue };

    ghost view = { λ h. record { writer = option_map (λ (writer : UnitNo). writer.0) h.writer; counts = h.counts.items } };

    ghost invariant = { λ h. (h.total ≡ sum h.counts.items) × (length h.counts.items < 2 ^ 32) };
}

impl Holders {
    /// Nobody holds the lock. There is room for the counts of that many units.
    pub fn new(alloc: Global, units: u32) -> Result<Holders, Want>
        ensures { IfOk result (λ holders. holders ≡ record { writer = None; counts = replicate units 0 }) }
    {
        Ok(Holders {
            writer: None,
            counts: vec![in alloc; 0; units as usize]?,
            total: 0,
        })
    }

    pub fn are_none(&self) -> bool
        ensures { result ≡ (is_none self.now.writer && (sum self.now.counts == 0)) }
    {
        self.writer.is_none() && self.total == 0
    }

    pub fn has_writer(&self) -> bool
        ensures { result ≡ is_some self.now.writer }
    {
        self.writer.is_some()
    }

    pub fn is_writer(&self, who: UnitNo) -> bool
        ensures { result ≡ is_some_of who.0 self.now.writer }
    {
        self.writer == Some(who)
    }

    /// How often the unit reads: 0 if there is no room for its count.
    pub fn count(&self, who: UnitNo) -> u16
        ensures { result ≡ slice_index self.now.counts who.0 }
    {
        self.counts.get(who.0 as usize).copied().unwrap_or(0)
    }

    pub fn set_writer(&mut self, writer: Option<UnitNo>)
        ensures writer { self.new.writer ≡ option_map (λ (writer : UnitNo). writer.0) writer }
        ensures counts { self.new.counts ≡ self.old.counts }
    {
        self.writer = writer;
    }

    /// Nothing changes if there is no room for the unit's count.
    pub fn set_count(&mut self, who: UnitNo, count: u16)
        ensures counts { self.new.counts ≡ slice_set self.old.counts who.0 count }
        ensures writer { self.new.writer ≡ self.old.writer }
    {
        if (who.0 as usize) < self.counts.len() {
            self.total = total_with(self.total, self.counts.as_slice(), who, count);
            self.counts[who.0 as usize] = count;
        }
    }

    /// The unit gives up the lock if it writes, and else reads once less.
    pub fn give_up(&mut self, who: UnitNo)
        requires { IsTrue (is_some_of who.0 self.old.writer || nat_lt 0 (slice_index self.old.counts who.0)) }
        ensures { (wishes : List Wish) (n : ℕ) → held_by self.new wishes n ≡ given_up who.0 (held_by self.old wishes n) }
    {
        if self.is_writer(who) {
            self.set_writer(None);
            return;
        }
        let count = self.count(who);
        self.set_count(who, count - 1);
    }
}

// The sum of the counts after one of them has changed.
fn total_with(total: u64, counts: &[u16], who: UnitNo, count: u16) -> u64
    requires total { total ≡ sum counts.now }
    requires room { who.0 < length counts.now }
    requires few { length counts.now < 2 ^ 32 }
    ensures { result ≡ sum (slice_set counts.now who.0 count) }
{
    let others = total - u64::from(counts[who.0 as usize]);
    others + u64::from(count)
}
