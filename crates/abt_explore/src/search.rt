//! A search of all interleavings, breadth first.

ghost use Rattle.std.specs.Prelude.{ℕ, ◌≡◌, ◌<◌, ◌≤◌, ◌∷◌, ◌++◌, [], IfOk, OnOk, IfSome, IfNone, MatchOption, List, None, Option, Some, get_or, is_some, length};
ghost use Rattle.std.specs.Bool.{OnTrue};
ghost use Rattle.abt_bounds.specs.Laws.{visited};
ghost use Rattle.abt_explore.specs.Explored.{MayCallAny};
ghost use Rattle.abt_explore.specs.Named.{MarksNamed};
ghost use Rattle.abt_explore.specs.Orders.{KeepsOrder};
ghost use Rattle.abt_explore.specs.Searches.{NotesIfQuiet, Grows, HasOutcome, IsMet, IsSearching, ListsEnd, Meets, Notes, SeesAfter, SeesAfterEach, SeesAll, SeesNext, SeesOne, SeesStart, Takes, TellsAll};
ghost use Rattle.abt_machine.specs.Rounds.{OrdersStored};
ghost use Rattle.abt_machine.specs.Sound.{Sound};
ghost use Rattle.abt_machine.specs.State.{State};
ghost use Rattle.abt_machine.specs.Stored.{CallsStored, Stored};
ghost use Rattle.abt_machine.specs.Valid.{IsValid};
ghost use Rattle.abt_model.specs.Hints.{HasHints};
ghost use Rattle.abt_model.specs.Models.{IsAfter, StandsFor};
ghost use Rattle.abt_model.specs.Stored.{stored_with};

use crate::exploration::End;
use crate::named::is_private;
use crate::paths::Paths;
use crate::same::lists;
use crate::seen::Seen;
use abt_machine::{Event, Journal, OrderShape, Outcome, StreamNo, Want, What, Workload};
use abt_model::{Choices, Model};
use abt_work::Work;
use std::alloc::Global;
use std::collections::VecDeque;

/// A model that was found: the number of its journal, how many events that has, and the model.
#[derive(Drop)]
pub(crate) struct Found {
    pub(crate) node: u32,
    pub(crate) depth: u64,
    pub(crate) model: Model,
}

/// The journals of the models that were found, their keys, the models that wait to be expanded, and the ends so far.
#[derive(Drop)]
pub(crate) struct Search {
    pub(crate) paths: Paths,
    pub(crate) seen: Seen,
    pub(crate) waiting: VecDeque<Found>,
    pub(crate) ends: Vec<End>,
}

impl Search {
    /// A search that has found the start. Out of memory is the only error.
    pub(crate) fn start(alloc: Global, w: &Workload) -> Result<Search, Want>
        ensures { IfOk result (λ search. (Z : Stored) → SeesStart w.now search × IsSearching w.now Z None search × (length search.paths ≡ length search.waiting.items)) }
    {
        let model = Model::start(alloc, w)?;
        let mut seen = Seen::new(alloc);
        seen.add(&model)?;
        let mut waiting = VecDeque::new(alloc);
        waiting.push_back(Found {
            node: 0,
            depth: 0,
            model,
        })?;
        Ok(Search {
            paths: Paths::new(alloc),
            seen,
            waiting,
            ends: Vec::new(alloc),
        })
    }

    /// Expands a model that was found: notes its end if nothing is left to do, and finds what one event leads to that may be tried
    /// alone, or, if it knows of none, what each event leads to that may come; or returns the number of a function that is to be
    /// called, and may return any word there. `named` marks the units that operations name. Out of memory is the only error.
    pub(crate) fn expand<P: Work>(
        &mut self,
        alloc: Global,
        w: &Workload,
        z: &[OrderShape],
        work: &P,
        named: &[bool],
        found: &Found,
    ) -> Result<Option<u32>, Want>
        requires valid { IsValid w.now }
        requires stored { OrdersStored w.now z.now }
        requires calls { CallsStored w.now (P.count work.now) }
        requires keeps_order { KeepsOrder w.now z.now }
        requires named { MarksNamed w.now named.now }
        requires met { IsMet w.now (stored_with z.now (P.returns work.now)) self.old.paths found.now }
        requires searching { IsSearching w.now (stored_with z.now (P.returns work.now)) (Some found.now.model) self.old }
        ensures grows { OnOk result (Grows self.old self.new) }
        ensures searching { IfOk result (λ any. IfNone any (IsSearching w.now (stored_with z.now (P.returns work.now)) None self.new)) }
        ensures any { IfOk result (λ any. IfSome any (MayCallAny w.now (stored_with z.now (P.returns work.now)))) }
    {
        self.note_if_quiet(alloc, w, found)?;
        if self.expand_one(alloc, w, z, work, named, found)? {
            return Ok(None);
        }
        let any = self.expand_streams(alloc, w, z, work, found)?;
        Ok(any)
    }

    /// Takes the model that has waited longest.
    pub(crate) fn take(&mut self) -> Option<Found>
        ensures { Takes self.old result self.new }
    {
        self.waiting.pop_front()
    }

    /// The ends that it noted.
    pub(crate) fn into_ends(self) -> Vec<End>
        ensures { result ≡ self.ends }
    {
        let Search {
            paths: _,
            seen: _,
            waiting: _,
            ends,
        } = self;
        ends
    }

    // Finds what one event leads to that may be tried alone, and says whether there was one.
    fn expand_one<P: Work>(
        &mut self,
        alloc: Global,
        w: &Workload,
        z: &[OrderShape],
        work: &P,
        named: &[bool],
        found: &Found,
    ) -> Result<bool, Want>
        requires valid { IsValid w.now }
        requires stored { OrdersStored w.now z.now }
        requires calls { CallsStored w.now (P.count work.now) }
        requires keeps_order { KeepsOrder w.now z.now }
        requires named { MarksNamed w.now named.now }
        requires met { IsMet w.now (stored_with z.now (P.returns work.now)) self.old.paths found.now }
        requires searching { IsSearching w.now (stored_with z.now (P.returns work.now)) (Some found.now.model) self.old }
        ensures grows { OnOk result (Grows self.old self.new) }
        ensures searching { OnOk result (IsSearching w.now (stored_with z.now (P.returns work.now)) (Some found.now.model) self.new) }
        ensures one { IfOk result (λ tried. OnTrue tried (SeesOne w.now (stored_with z.now (P.returns work.now)) self.new found.now.model)) }
    {
        for stream in 0..w.streams() {
            if self.try_stream(alloc, w, z, work, named, found, StreamNo(stream))? {
                return Ok(true);
            }
        }
        Ok(false)
    }

    // Finds what the stream's event leads to, if one may come and may be tried alone, and says whether it did.
    fn try_stream<P: Work>(
        &mut self,
        alloc: Global,
        w: &Workload,
        z: &[OrderShape],
        work: &P,
        named: &[bool],
        found: &Found,
        s: StreamNo,
    ) -> Result<bool, Want>
        requires valid { IsValid w.now }
        requires stored { OrdersStored w.now z.now }
        requires calls { CallsStored w.now (P.count work.now) }
        requires keeps_order { KeepsOrder w.now z.now }
        requires named { MarksNamed w.now named.now }
        requires stream { s.0 < w.now.streams }
        requires met { IsMet w.now (stored_with z.now (P.returns work.now)) self.old.paths found.now }
        requires searching { IsSearching w.now (stored_with z.now (P.returns work.now)) (Some found.now.model) self.old }
        ensures grows { OnOk result (Grows self.old self.new) }
        ensures searching { OnOk result (IsSearching w.now (stored_with z.now (P.returns work.now)) (Some found.now.model) self.new) }
        ensures one { IfOk result (λ tried. OnTrue tried (SeesOne w.now (stored_with z.now (P.returns work.now)) self.new found.now.model)) }
    {
        match found.model.choices(alloc, w, z, work, s)? {
            Choices::AnyWord(_) => Ok(false),
            Choices::These(hints) => self.try_hints(alloc, w, z, work, named, found, s, &hints),
        }
    }

    // Finds what the stream's event leads to, if there is one hint, and it tells an event that may be tried alone, and says whether
    // it did.
    fn try_hints<P: Work>(
        &mut self,
        alloc: Global,
        w: &Workload,
        z: &[OrderShape],
        work: &P,
        named: &[bool],
        found: &Found,
        s: StreamNo,
        hints: &[What],
    ) -> Result<bool, Want>
        requires valid { IsValid w.now }
        requires stored { OrdersStored w.now z.now }
        requires calls { CallsStored w.now (P.count work.now) }
        requires keeps_order { KeepsOrder w.now z.now }
        requires named { MarksNamed w.now named.now }
        requires stream { s.0 < w.now.streams }
        requires told { (S : State) → IsAfter w.now (stored_with z.now (P.returns work.now)) 0 S → StandsFor w.now S found.now.model → HasHints w.now (stored_with z.now (P.returns work.now)) S s.0 hints.now }
        requires met { IsMet w.now (stored_with z.now (P.returns work.now)) self.old.paths found.now }
        requires searching { IsSearching w.now (stored_with z.now (P.returns work.now)) (Some found.now.model) self.old }
        ensures grows { OnOk result (Grows self.old self.new) }
        ensures searching { OnOk result (IsSearching w.now (stored_with z.now (P.returns work.now)) (Some found.now.model) self.new) }
        ensures one { IfOk result (λ tried. OnTrue tried (SeesOne w.now (stored_with z.now (P.returns work.now)) self.new found.now.model)) }
    {
        if hints.len() != 1 || is_visit(&hints[0]) {
            return Ok(false);
        }
        self.try_hint(alloc, w, z, work, named, found, s, &hints[0])
    }

    // Finds what the stream's event leads to, which the hint tells, if it may be tried alone, and says whether it did.
    fn try_hint<P: Work>(
        &mut self,
        alloc: Global,
        w: &Workload,
        z: &[OrderShape],
        work: &P,
        named: &[bool],
        found: &Found,
        s: StreamNo,
        hint: &What,
    ) -> Result<bool, Want>
        requires valid { IsValid w.now }
        requires stored { OrdersStored w.now z.now }
        requires calls { CallsStored w.now (P.count work.now) }
        requires keeps_order { KeepsOrder w.now z.now }
        requires named { MarksNamed w.now named.now }
        requires stream { s.0 < w.now.streams }
        requires only { TellsAll w.now (stored_with z.now (P.returns work.now)) found.now.model s.0 hint.now }
        requires met { IsMet w.now (stored_with z.now (P.returns work.now)) self.old.paths found.now }
        requires searching { IsSearching w.now (stored_with z.now (P.returns work.now)) (Some found.now.model) self.old }
        ensures grows { OnOk result (Grows self.old self.new) }
        ensures searching { OnOk result (IsSearching w.now (stored_with z.now (P.returns work.now)) (Some found.now.model) self.new) }
        ensures one { IfOk result (λ tried. OnTrue tried (SeesOne w.now (stored_with z.now (P.returns work.now)) self.new found.now.model)) }
    {
        let mut next = found.model.copy(alloc)?;
        match next.make(w, z, work, s, hint)? {
            None => Ok(false),
            Some(what) => {
                if !is_private(w, named, s, &what) {
                    return Ok(false);
                }
                next.forget_rounds();
                self.meet(found, s, what, next)?;
                Ok(true)
            }
        }
    }

    // Finds what each event of each stream that may come leads to.
    fn expand_streams<P: Work>(
        &mut self,
        alloc: Global,
        w: &Workload,
        z: &[OrderShape],
        work: &P,
        found: &Found,
    ) -> Result<Option<u32>, Want>
        requires valid { IsValid w.now }
        requires stored { OrdersStored w.now z.now }
        requires calls { CallsStored w.now (P.count work.now) }
        requires keeps_order { KeepsOrder w.now z.now }
        requires met { IsMet w.now (stored_with z.now (P.returns work.now)) self.old.paths found.now }
        requires searching { IsSearching w.now (stored_with z.now (P.returns work.now)) (Some found.now.model) self.old }
        ensures grows { OnOk result (Grows self.old self.new) }
        ensures searching { OnOk result (IsSearching w.now (stored_with z.now (P.returns work.now)) (Some found.now.model) self.new) }
        ensures all { IfOk result (λ any. MatchOption any (SeesAll w.now (stored_with z.now (P.returns work.now)) self.new found.now.model) (MayCallAny w.now (stored_with z.now (P.returns work.now)))) }
    {
        for s in 0..w.streams() {
            match self.expand_stream(alloc, w, z, work, found, StreamNo(s))? {
                Some(function) => return Ok(Some(function)),
                None => {}
            }
        }
        Ok(None)
    }

    // Finds what each event of the stream that may come leads to.
    fn expand_stream<P: Work>(
        &mut self,
        alloc: Global,
        w: &Workload,
        z: &[OrderShape],
        work: &P,
        found: &Found,
        s: StreamNo,
    ) -> Result<Option<u32>, Want>
        requires valid { IsValid w.now }
        requires stored { OrdersStored w.now z.now }
        requires calls { CallsStored w.now (P.count work.now) }
        requires keeps_order { KeepsOrder w.now z.now }
        requires stream { s.0 < w.now.streams }
        requires met { IsMet w.now (stored_with z.now (P.returns work.now)) self.old.paths found.now }
        requires searching { IsSearching w.now (stored_with z.now (P.returns work.now)) (Some found.now.model) self.old }
        ensures grows { OnOk result (Grows self.old self.new) }
        ensures searching { OnOk result (IsSearching w.now (stored_with z.now (P.returns work.now)) (Some found.now.model) self.new) }
        ensures all { IfOk result (λ any. MatchOption any (SeesNext w.now (stored_with z.now (P.returns work.now)) self.new found.now.model s.0) (MayCallAny w.now (stored_with z.now (P.returns work.now)))) }
    {
        match found.model.choices(alloc, w, z, work, s)? {
            Choices::AnyWord(function) => Ok(Some(function)),
            Choices::These(hints) => {
                self.follow_all(alloc, w, z, work, found, s, &hints)?;
                Ok(None)
            }
        }
    }

    // Finds what the events of the stream that the hints tell lead to.
    fn follow_all<P: Work>(
        &mut self,
        alloc: Global,
        w: &Workload,
        z: &[OrderShape],
        work: &P,
        found: &Found,
        s: StreamNo,
        hints: &[What],
    ) -> Result<(), Want>
        requires valid { IsValid w.now }
        requires stored { OrdersStored w.now z.now }
        requires calls { CallsStored w.now (P.count work.now) }
        requires keeps_order { KeepsOrder w.now z.now }
        requires stream { s.0 < w.now.streams }
        requires met { IsMet w.now (stored_with z.now (P.returns work.now)) self.old.paths found.now }
        requires searching { IsSearching w.now (stored_with z.now (P.returns work.now)) (Some found.now.model) self.old }
        ensures grows { OnOk result (Grows self.old self.new) }
        ensures searching { OnOk result (IsSearching w.now (stored_with z.now (P.returns work.now)) (Some found.now.model) self.new) }
        ensures all { OnOk result (SeesAfterEach w.now (stored_with z.now (P.returns work.now)) self.new found.now.model s.0 hints.now) }
    {
        for hint in hints {
            self.follow(alloc, w, z, work, found, s, hint)?;
        }
        Ok(())
    }

    // Finds what the event of the stream that the hint tells leads to.
    fn follow<P: Work>(
        &mut self,
        alloc: Global,
        w: &Workload,
        z: &[OrderShape],
        work: &P,
        found: &Found,
        s: StreamNo,
        hint: &What,
    ) -> Result<(), Want>
        requires valid { IsValid w.now }
        requires stored { OrdersStored w.now z.now }
        requires calls { CallsStored w.now (P.count work.now) }
        requires keeps_order { KeepsOrder w.now z.now }
        requires stream { s.0 < w.now.streams }
        requires met { IsMet w.now (stored_with z.now (P.returns work.now)) self.old.paths found.now }
        requires searching { IsSearching w.now (stored_with z.now (P.returns work.now)) (Some found.now.model) self.old }
        ensures grows { OnOk result (Grows self.old self.new) }
        ensures searching { OnOk result (IsSearching w.now (stored_with z.now (P.returns work.now)) (Some found.now.model) self.new) }
        ensures sees { OnOk result (SeesAfter w.now (stored_with z.now (P.returns work.now)) self.new found.now.model s.0 hint.now) }
    {
        let mut model = found.model.copy(alloc)?;
        match model.make(w, z, work, s, hint)? {
            None => Ok(()),
            Some(what) => {
                model.forget_rounds();
                self.meet(found, s, what, model)
            }
        }
    }

    // Adds the model to those that wait, if it is new: the event leads to it from what was found before.
    fn meet(&mut self, before: &Found, s: StreamNo, what: What, model: Model) -> Result<(), Want>
        requires node { before.now.node < length self.old.paths }
        requires few { before.now.depth ≤ before.now.node }
        ensures { OnOk result (Meets self.old before.now s.0 what model self.new) }
    {
        if !self.seen.add(&model)? {
            return Ok(());
        }
        let parent = before.node;
        let depth = before.depth + 1;
        let event = Event {
            stamp: depth,
            stream: s,
            what,
        };
        let node = self.paths.push(parent, event)?;
        self.waiting.push_back(Found { node, depth, model })?;
        Ok(())
    }

    // Notes the end of what was found if nothing is left to do in it.
    fn note_if_quiet(&mut self, alloc: Global, w: &Workload, found: &Found) -> Result<(), Want>
        requires node { found.now.node < length self.old.paths }
        ensures { OnOk result ((Z : Stored) → NotesIfQuiet w.now Z self.old found.now self.new) }
    {
        if !found.model.is_quiet(w) {
            return Ok(());
        }
        self.note(alloc, w, found)
    }

    // Notes the end of what was found, unless one that shows the same was noted.
    fn note(&mut self, alloc: Global, w: &Workload, found: &Found) -> Result<(), Want>
        requires node { found.now.node < length self.old.paths }
        ensures { OnOk result (Notes w.now self.old found.now self.new) }
    {
        let outcome = outcome(&found.model, w);
        let picture = found.model.picture(alloc, w)?;
        if lists(&self.ends, outcome, picture.items()) {
            return Ok(());
        }
        let journal = Journal::new(self.paths.journal(alloc, found.node)?);
        self.ends.push(End {
            outcome,
            journal,
            picture,
        })?;
        Ok(())
    }
}

// Whether the hint tells a visit of a pool.
fn is_visit(hint: &What) -> bool
    ensures { result ≡ is_some (visited hint.now) }
{
    match *hint {
        What::Miss(_) | What::Take(_, _) => true,
        _ => false,
    }
}

// How a model ends in which nothing is left to do.
fn outcome(model: &Model, w: &Workload) -> Outcome
    ensures { (Z : Stored) (S : State) → Sound w.now Z S → StandsFor w.now S model.now → HasOutcome S result }
{
    if model.has_ended(w) {
        return Outcome::Finished;
    }
    Outcome::Stuck
}
