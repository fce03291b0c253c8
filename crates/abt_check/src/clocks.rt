//! The clocks of streams and objects.

ghost use Rattle.std.specs.Prelude.{◌≡◌, ◌<◌, ◌↔◌, [], IfOk, IsTrue, List, Some, get_or, replicate, slice_set};
ghost use Rattle.abt_bounds.specs.Laws.{NamesDeclared};
ghost use Rattle.abt_calls.specs.Asking.{IsSite};
ghost use Rattle.abt_check.specs.Clocks.{AreClocks, FollowsLast, IsAllowed, Stamps, clock_at, clock_of, noted, with_clock};
ghost use Rattle.abt_machine.specs.EventSites.{event_site};
ghost use Rattle.abt_machine.specs.Stamps.{Follows, Stamped};
ghost use Rattle.abt_machine.specs.declared.events.Event.{Event};
ghost use Rattle.abt_machine.specs.declared.events.Site.{Site};

use abt_machine::{Event, Site, Want, What, Workload};
use abt_plans::step_site;
use std::alloc::Global;
use std::marker::Model;

/// The last event, and the greatest stamp so far of each stream, pool, desk and declared object, 0 for none.
#[derive(Drop)]
pub(crate) struct Clocks {
    last: Option<Event>,
    streams: Vec<u64>,
    pools: Vec<u64>,
    desks: Vec<u64>,
    slots: Vec<u64>,
}

impl Model for Clocks {
    ghost use Rattle.abt_check.specs.Clocks.{ClocksValue};

    ghost Value = { ClocksValue };

    ghost view = { λ c. record {
      last = c.last;
      streams = c.streams.items;
      pools = c.pools.items;
      desks = c.desks.items;
      slots = c.slots.items;
    } };
}

impl Clocks {
    /// All clocks before the first event. Out of memory is the only error.
    pub(crate) fn start(alloc: Global, w: &Workload) -> Result<Clocks, Want>
        ensures { IfOk result (AreClocks w.now []) }
    {
        Ok(Clocks {
            last: None,
            streams: zeros(alloc, w.streams())?,
            pools: zeros(alloc, w.pools())?,
            desks: zeros(alloc, w.units())?,
            slots: zeros(alloc, w.objects())?,
        })
    }

    /// Whether the event's stamp may come next; if it may, it is noted.
    pub(crate) fn follow(&mut self, w: &Workload, event: &Event) -> bool
        requires stream { event.now.stream.0 < w.now.streams }
        requires names { NamesDeclared w.now event.now.what }
        requires site { (x : Site) → event_site w.now event.now ≡ Some x → IsSite w.now x }
        ensures { (J : List Event) → AreClocks w.now J self.old → Stamped w.now J → Stamps w.now J event.now result self.new }
    {
        let site = site_of(w, event);
        if !self.allows(site, event) {
            return false;
        }
        self.note(site, event);
        true
    }

    // Whether the stamp of the event at that site may come next.
    fn allows(&self, site: Option<Site>, event: &Event) -> bool
        ensures { IsTrue result ↔ IsAllowed self.now site event.now }
    {
        if !follows_last(&self.last, event) {
            return false;
        }
        if clock_in(&self.streams, event.stream.0) >= event.stamp {
            return false;
        }
        self.clock_of(site) < event.stamp
    }

    // The clock of the site, 0 if there is none.
    fn clock_of(&self, site: Option<Site>) -> u64
        ensures { result ≡ clock_of self.now site }
    {
        match site {
            None => 0,
            Some(site) => self.clock_at(site),
        }
    }

    // The clock of the site.
    fn clock_at(&self, site: Site) -> u64
        ensures { result ≡ clock_at self.now site }
    {
        match site {
            Site::Pool(p) => clock_in(&self.pools, p.0),
            Site::Desk(u) => clock_in(&self.desks, u.0),
            Site::Monitor(x)
            | Site::Eventual(x)
            | Site::Future(x)
            | Site::Barrier(x)
            | Site::Rw(x) => clock_in(&self.slots, x.0),
        }
    }

    // Notes the event at that site.
    fn note(&mut self, site: Option<Site>, event: &Event)
        ensures { self.new ≡ noted site event.now self.old }
    {
        let last = *event;
        self.last = Some(last);
        set(&mut self.streams, event.stream.0, event.stamp);
        match site {
            None => {}
            Some(site) => self.set_clock(site, event.stamp),
        }
    }

    // Sets the clock of the site.
    fn set_clock(&mut self, site: Site, stamp: u64)
        ensures { self.new ≡ with_clock site stamp self.old }
    {
        match site {
            Site::Pool(p) => set(&mut self.pools, p.0, stamp),
            Site::Desk(u) => set(&mut self.desks, u.0, stamp),
            Site::Monitor(x)
            | Site::Eventual(x)
            | Site::Future(x)
            | Site::Barrier(x)
            | Site::Rw(x) => set(&mut self.slots, x.0, stamp),
        }
    }
}

// That many clocks, all 0.
fn zeros(alloc: Global, count: u32) -> Result<Vec<u64>, Want>
    ensures { IfOk result (λ clocks. clocks.items ≡ replicate count 0) }
{
    Ok(vec![in alloc; 0; count as usize]?)
}

// Sets the clock of that number, if there is one.
fn set(clocks: &mut Vec<u64>, number: u32, stamp: u64)
    ensures { clocks.new.items ≡ slice_set clocks.old.items number stamp }
{
    if let Some(clock) = clocks.get_mut(number as usize) {
        *clock = stamp;
    }
}

// The clock of that number, 0 if there is none.
fn clock_in(clocks: &[u64], number: u32) -> u64
    ensures { result ≡ get_or clocks.now number 0 }
{
    clocks.get(number as usize).copied().unwrap_or(0)
}

// Whether the event's stamp may follow at once upon that of the last event, if there was one.
fn follows_last(last: &Option<Event>, event: &Event) -> bool
    ensures { IsTrue result ↔ FollowsLast last.now event.now }
{
    match last {
        None => event.stamp == 1,
        Some(last) => follows(last, event),
    }
}

// Whether a stamp may follow at once upon another.
fn follows(last: &Event, event: &Event) -> bool
    ensures { IsTrue result ↔ Follows last.now event.now }
{
    if event.stamp == last.stamp {
        return last.stream.0 < event.stream.0;
    }
    last.stamp < event.stamp && event.stamp - last.stamp == 1
}

// The site of the event, if it has one.
fn site_of(w: &Workload, event: &Event) -> Option<Site>
    requires stream { event.now.stream.0 < w.now.streams }
    requires names { NamesDeclared w.now event.now.what }
    ensures { result ≡ event_site w.now event.now }
{
    match event.what {
        What::Miss(p) => Some(Site::Pool(p)),
        What::Take(p, _) => Some(Site::Pool(p)),
        What::Look(u) => Some(Site::Desk(u)),
        What::Step(u, at, _) => step_site(w, event.stream, u, at),
        What::Call(_, _, _) => None,
        What::Put(_, p) => Some(Site::Pool(p)),
        What::End(u, _) => Some(Site::Desk(u)),
        What::Enter(_) => None,
        What::Leave(_) => None,
    }
}
