//! The arrows of a journal.

ghost use Rattle.std.specs.Prelude.{◌≡◌, ◌+◌, ◌++◌, IfOk, None, OnOk, get_or, min, replicate, slice_set};
ghost use Rattle.abt_machine.specs.Limits.{unit_limit};
ghost use Rattle.abt_machine.specs.Lives.{unit_of};
ghost use Rattle.abt_machine.specs.declared.grammar.Format.TheVariants as format;
ghost use Rattle.abt_view.specs.Arrows.{arrows_in, arrows_of, at_start, begun, ended_at, followed, noted as noted_by, replaced, sent as sent_of, sent_by as sent_by_sender, spot_of, taken as taken_of, units_in, units_to};

use abt_machine::{Event, Format, Want, What};
use std::alloc::Global;
use std::marker::Model;

/// Where an event is.
#[derive(Clone, Copy)]
pub struct Spot {
    pub stream: u32,
    pub stamp: u64,
}

/// The way of a unit through a pool: the event of another unit that sent it, if there is one, its put, and the take or look that follows,
/// if there is one.
#[derive(Clone, Copy)]
pub struct Arrow {
    pub unit: u32,
    pub sent: Option<Spot>,
    pub put: Spot,
    pub taken: Option<Spot>,
}

// An event that may send units to the tray, and its own unit.
#[derive(Clone, Copy)]
pub(crate) struct Sender {
    unit: u32,
    spot: Spot,
}

// The last event of each stream that is not a put, the open arrow of each unit, and the arrows that have ended.
#[derive(Drop)]
struct Ways {
    senders: Vec<Option<Sender>>,
    waiting: Vec<Option<Arrow>>,
    past: Vec<Arrow>,
}

impl Model for Ways {
    ghost use Rattle.abt_view.specs.Arrows.{WaysValue};

    ghost Value = { WaysValue };

    ghost view = { λ w. record { senders = w.senders.items; waiting = w.waiting.items; past = w.past.items } };
}

// Where the event is.
pub(crate) fn spot_at(event: &Event) -> Spot
    ensures { result ≡ spot_of event.now }
{
    Spot {
        stream: event.stream.0,
        stamp: event.stamp,
    }
}

// Streams without an event, as many as the count says.
fn no_senders(alloc: Global, count: u32) -> Result<Vec<Option<Sender>>, Want>
    ensures { IfOk result (λ senders. senders.items ≡ replicate count None) }
{
    Ok(vec![in alloc; None; count as usize]?)
}

// Units without an arrow, as many as the count says.
fn no_arrows(alloc: Global, count: u32) -> Result<Vec<Option<Arrow>>, Want>
    ensures { IfOk result (λ arrows. arrows.items ≡ replicate count None) }
{
    Ok(vec![in alloc; None; count as usize]?)
}

// Stores an item at a position, if the list has it.
fn store<T: Copy>(items: &mut Vec<Option<T>>, at: u32, item: Option<T>)
    ensures { items.new.items ≡ slice_set items.old.items at item }
{
    if let Some(place) = items.get_mut(at as usize) {
        *place = item;
    }
}

// The item at a position, or none if the list does not have it.
fn item_at<T: Copy>(items: &[Option<T>], at: u32) -> Option<T>
    ensures { result ≡ get_or items.now at None }
{
    items.get(at as usize).copied().unwrap_or(None)
}

// The event that sent unit u to the tray.
fn sent_by(sender: Option<Sender>, u: u32) -> Option<Spot>
    ensures { result ≡ sent_by_sender sender u }
{
    match sender {
        None => None,
        Some(sender) => {
            if sender.unit == u {
                None
            } else {
                Some(sender.spot)
            }
        }
    }
}

// Appends an open arrow, if there is one, with its end.
fn push_ended(
    arrows: &mut Vec<Arrow>,
    taken: Option<Spot>,
    arrow: Option<Arrow>,
) -> Result<(), Want>
    ensures { OnOk result (arrows.new.items ≡ arrows.old.items ++ ended_at taken arrow) }
{
    match arrow {
        None => Ok(()),
        Some(arrow) => {
            arrows.push(Arrow { taken, ..arrow })?;
            Ok(())
        }
    }
}

impl Ways {
    // The state before the first event, for that many units.
    fn start(alloc: Global, units: u32) -> Result<Ways, Want>
        ensures { IfOk result (λ ways. ways ≡ at_start units) }
    {
        Ok(Ways {
            senders: no_senders(alloc, Format::Three.stream_limit())?,
            waiting: no_arrows(alloc, units)?,
            past: Vec::new(alloc),
        })
    }

    // Ends the open arrow of unit u, if there is one, and puts another in its place.
    fn replace(&mut self, u: u32, taken: Option<Spot>, new: Option<Arrow>) -> Result<(), Want>
        ensures { OnOk result (self.new ≡ replaced u taken new self.old) }
    {
        push_ended(&mut self.past, taken, item_at(&self.waiting, u))?;
        store(&mut self.waiting, u, new);
        Ok(())
    }

    // Notes the last event of stream s that is not a put.
    fn note(&mut self, s: u32, sender: Option<Sender>)
        ensures { self.new ≡ noted_by s sender self.old }
    {
        store(&mut self.senders, s, sender);
    }

    // Notes an event of unit u that is not a put.
    fn send(&mut self, event: Event, u: u32)
        ensures { self.new ≡ sent_of event u self.old }
    {
        let sender = Sender {
            unit: u,
            spot: spot_at(&event),
        };
        self.note(event.stream.0, Some(sender));
    }

    // Ends the open arrow of unit u, which is taken or looked at.
    fn take(&mut self, event: Event, u: u32) -> Result<(), Want>
        ensures { OnOk result (self.new ≡ taken_of event u self.old) }
    {
        self.replace(u, Some(spot_at(&event)), None)?;
        self.send(event, u);
        Ok(())
    }

    // The arrow that begins with a put of unit u.
    fn begin(&self, event: Event, u: u32) -> Arrow
        ensures { result ≡ begun event u self.now }
    {
        Arrow {
            unit: u,
            sent: sent_by(item_at(&self.senders, event.stream.0), u),
            put: spot_at(&event),
            taken: None,
        }
    }

    // Changes the arrows as an event does.
    fn follow(&mut self, event: Event) -> Result<(), Want>
        ensures { OnOk result (self.new ≡ followed self.old event) }
    {
        match event.what {
            What::Miss(_) => {
                self.note(event.stream.0, None);
                Ok(())
            }
            What::Take(_, u) | What::Look(u) => self.take(event, u.0),
            What::Put(u, _) => {
                let arrow = self.begin(event, u.0);
                self.replace(u.0, None, Some(arrow))
            }
            What::Step(u, _, _)
            | What::Call(u, _, _)
            | What::End(u, _)
            | What::Enter(u)
            | What::Leave(u) => {
                self.send(event, u.0);
                Ok(())
            }
        }
    }

    // The arrows that ended, and then the open ones.
    fn finish(self) -> Result<Vec<Arrow>, Want>
        ensures { IfOk result (λ all. all.items ≡ arrows_in self) }
    {
        let Ways {
            senders: _,
            waiting,
            past,
        } = self;
        let mut all = past;
        for arrow in &waiting {
            push_ended(&mut all, None, *arrow)?;
        }
        Ok(all)
    }
}

// How many numbers of units there are up to that of the event's unit, 0 if it names none.
fn units_to(what: What) -> u32
    ensures { result ≡ units_to (unit_of what) }
{
    match what {
        What::Miss(_) => 0,
        What::Take(_, u)
        | What::Look(u)
        | What::Step(u, _, _)
        | What::Call(u, _, _)
        | What::Put(u, _)
        | What::End(u, _)
        | What::Enter(u)
        | What::Leave(u) => counted_to(u.0),
    }
}

// How many numbers there are up to this, at most as many as a workload may have units.
fn counted_to(u: u32) -> u32
    ensures { result ≡ min (unit_limit format.Three) (u + 1) }
{
    let most = Format::Three.unit_limit();
    if u < most { u + 1 } else { most }
}

// For how many units the arrows of the journal have room.
fn count_units(journal: &[Event]) -> u32
    ensures { result ≡ units_in journal.now }
{
    let mut count = 0;
    for event in journal {
        count = count.max(units_to(event.what));
    }
    count
}

/// The arrows of a journal: first those that ended, in order of their ends, then the others in order of unit.
pub fn all_arrows(alloc: Global, journal: &[Event]) -> Result<Vec<Arrow>, Want>
    ensures { IfOk result (λ arrows. arrows.items ≡ arrows_of journal.now) }
{
    let mut ways = Ways::start(alloc, count_units(journal))?;
    for event in journal {
        ways.follow(*event)?;
    }
    ways.finish()
}
