//! Who waits for a reader-writer lock.

ghost use Rattle.std.specs.Prelude.{◌≡◌, [], ◌∷◌, ◌++◌, IfNone, IfOk, IfSome, IsTrue, map, replicate, slice_set};
ghost use Rattle.std.specs.List.{find};
ghost use Rattle.abt_machine.specs.Monitors.{number_of};
ghost use Rattle.abt_machine.specs.Pools.{is_unit};
ghost use Rattle.abt_machine.specs.RwLocks.{first_readers, nobody_waits, reader_is_first, wants_to_read};
ghost use Rattle.abt_machine.specs.declared.events.Wish.TheVariants as wish;
ghost use Rattle.abt_unit.specs.Units.{IsFree};
ghost use Rattle.abt_chain.specs.Results.{unit_found};

use abt_chain::Chain;
use abt_machine::{UnitNo, Want, Wish};
use abt_unit::Unit;
use std::alloc::Global;
use std::marker::Model;

/// The units that wait in order, the first of them apart, and what each unit wanted when it last came to wait.
#[derive(Drop)]
pub struct Waiters {
    wishes: Vec<Wish>,
    first: Option<Box<Unit>>,
    others: Chain,
}

impl Model for Waiters {
    ghost use Rattle.std.specs.Prelude.{◌++◌};
    ghost use Rattle.abt_unit.specs.Units.{units_in};
    ghost use Rattle.abt_rwlock.specs.Parts.{AreInLine, WaitersValue};

    ghost Value = { WaitersValue };

    ghost view = { λ w. record { wishes = w.wishes.items; units = units_in w.first ++ w.others.units } };

    ghost invariant = { λ w. AreInLine w.first w.others.units };
}

impl Waiters {
    /// Nobody waits. There is room for the wishes of that many units.
    pub fn new(alloc: Global, units: u32) -> Result<Waiters, Want>
        ensures { IfOk result (λ waiters. waiters ≡ record { wishes = replicate units wish.Read; units = [] }) }
    {
        Ok(Waiters {
            wishes: vec![in alloc; Wish::Read; units as usize]?,
            first: None,
            others: Chain::new(),
        })
    }

    pub fn is_empty(&self) -> bool
        ensures { result ≡ nobody_waits self.now.units }
    {
        self.first.is_none()
    }

    /// The unit is the last that waits. What it wants is noted if there is room for it.
    pub fn push(&mut self, unit: Box<Unit>, wish: Wish)
        requires { IsFree unit.value }
        ensures units { self.new.units ≡ self.old.units ++ unit.value.owned ∷ [] }
        ensures wishes { self.new.wishes ≡ slice_set self.old.wishes unit.value.owned.number wish }
    {
        let place = unit.number().0 as usize;
        if place < self.wishes.len() {
            self.wishes[place] = wish;
        }
        match self.first {
            None => self.first = Some(unit),
            Some(_) => self.others.push_back(unit),
        }
    }

    /// The first waiter comes out.
    pub fn take_first(&mut self) -> Option<Box<Unit>>
        ensures none { IfNone result ((self.old.units ≡ []) × (self.new.units ≡ [])) }
        ensures first { IfSome result (λ unit. self.old.units ≡ unit.value.owned ∷ self.new.units) }
        ensures free { IfSome result (λ unit. IsFree unit.value) }
        ensures wishes { self.new.wishes ≡ self.old.wishes }
    {
        let unit = self.first.take()?;
        self.first = self.others.take_front();
        Some(unit)
    }

    /// The first waiter comes out if it wants to read.
    #[tactic(auto, using(crate::proofs::Readers::no_first_readers))]
    pub fn take_reader(&mut self) -> Option<Box<Unit>>
        ensures none { IfNone result ((self.new ≡ self.old) × (first_readers self.old.wishes self.old.units ≡ [])) }
        ensures first { IfSome result (λ unit. self.old.units ≡ unit.value.owned ∷ self.new.units) }
        ensures reader { IfSome result (λ unit. IsTrue (wants_to_read self.old.wishes unit.value.owned.number)) }
        ensures free { IfSome result (λ unit. IsFree unit.value) }
        ensures wishes { self.new.wishes ≡ self.old.wishes }
    {
        if !self.reader_is_first() {
            return None;
        }
        self.take_first()
    }

    /// All units that wait, in order. The time is that of a walk over them.
    pub fn into_units(self) -> Chain
        ensures { result.units ≡ self.units }
    {
        let Waiters {
            wishes: _,
            first,
            mut others,
        } = self;
        let mut all = Chain::new();
        if let Some(unit) = first {
            all.push_back(unit);
        }
        others.drain_into(&mut all);
        all
    }

    /// The first waiter of that number. The time is that of a walk over them.
    pub fn find(&self, u: UnitNo) -> Option<&Unit>
        ensures { find (is_unit u.0) self.now.units ≡ unit_found result }
    {
        match &self.first {
            Some(unit) if unit.number() == u => Some(unit),
            _ => self.others.find(u),
        }
    }

    fn reader_is_first(&self) -> bool
        ensures { result ≡ reader_is_first self.now.wishes (map number_of self.now.units) }
    {
        match &self.first {
            None => false,
            Some(unit) => {
                let wish = self.wishes.get(unit.number().0 as usize);
                matches!(wish, Some(Wish::Read))
            }
        }
    }
}
