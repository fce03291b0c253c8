//! A record of events.

ghost use Rattle.std.specs.Prelude.{◌≡◌, ◌<◌, ◌++◌, ◌∷◌, ◌↔◌, [], IsTrue, OnOk, option_map};
ghost use Rattle.abt_record.specs.Records.{IsKept};

use crate::past::Past;
use abt_machine::{Event, Items, Log, What};
use std::alloc::{AllocError, Global};
use std::marker::Model;
use std::snapshot::Snapshot;

/// The events so far, which are kept in memory only if that was asked for.
#[derive(Drop)]
pub struct Record {
    past: Option<Snapshot<Past>>,
    list: Option<Vec<Event>>,
}

impl Model for Record {
    ghost use Rattle.std.specs.Prelude.{◌≡◌, IfSome, is_some};
    ghost use Rattle.abt_record.specs.Records.{RecordValue, remembered, room_of};

    ghost Value = { RecordValue };

    ghost view = { λ r. record { keeps = is_some r.list; events = remembered r.past; room = room_of r.list } };

    ghost invariant = { λ r. IfSome r.list (λ list. list.items ≡ remembered r.past) };
}

impl Record {
    /// No event yet. It keeps those that come if `keeps`.
    pub fn new(alloc: Global, keeps: bool) -> Record
        ensures keeps { result.keeps ≡ keeps }
        ensures events { result.events ≡ [] }
    {
        let list = if keeps { Some(Vec::new(alloc)) } else { None };
        Record { past: None, list }
    }

    /// Whether one event more takes memory. It never does where no event is kept.
    pub fn is_full(&self) -> bool
        ensures { IsTrue result ↔ self.now.room ≡ 0 }
    {
        match &self.list {
            None => false,
            Some(list) => list.len() == list.capacity(),
        }
    }

    /// Takes memory for one event more, if it needs any.
    pub fn reserve(&mut self) -> Result<(), AllocError>
        ensures room { OnOk result (0 < self.new.room) }
        ensures keeps { self.new.keeps ≡ self.old.keeps }
        ensures events { self.new.events ≡ self.old.events }
    {
        if let Some(list) = &mut self.list {
            list.reserve(1)?;
        }
        Ok(())
    }

    /// One event more.
    pub fn push(&mut self, event: Event)
        requires room { 0 < self.old.room }
        ensures events { self.new.events ≡ self.old.events ++ event ∷ [] }
        ensures keeps { self.new.keeps ≡ self.old.keeps }
    {
        if let Some(list) = &mut self.list {
            let what: What = event.what;
            list.push_reserved(Event { what, ..event });
        }
        let before = self.past.take();
        self.past = Some(Snapshot::of(&Past { before, event }));
    }

    /// The events, if they are kept.
    pub fn kept(&self) -> Option<&[Event]>
        ensures { IsKept self.now.keeps self.now.events (option_map (λ list. list.now) result) }
    {
        match &self.list {
            None => None,
            Some(list) => Some(list.as_slice()),
        }
    }

    /// The events as a log, if they are kept.
    pub fn into_kept(self) -> Option<Log>
        ensures { IsKept self.keeps self.events result }
    {
        let Record { past: _, list } = self;
        match list {
            None => None,
            Some(list) => Some(Items::new(list)),
        }
    }
}
