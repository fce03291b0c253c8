//! A unit's desk and its calls. None of them takes memory.

ghost use Rattle.std.specs.Prelude.{◌≡◌, IfNone, IfOk, IfSome, None, Some, [], false, not, option_map};
ghost use Rattle.std.specs.List.{find};
ghost use Rattle.std.specs.Option.{option_or};
ghost use Rattle.abt_machine.specs.declared.events.Code.TheVariants as code;
ghost use Rattle.abt_machine.specs.declared.events.Shown.TheVariants as shows;
ghost use Rattle.abt_machine.specs.declared.numbers.PoolNo.{PoolNo};
ghost use Rattle.abt_machine.specs.Acts as act;
ghost use Rattle.abt_machine.specs.Acts.{reborn};
ghost use Rattle.abt_machine.specs.Desks.{DeskGives, ended_in, suspended_in, unborn_in};
ghost use Rattle.abt_machine.specs.Pools.{is_unit};
ghost use Rattle.abt_machine.specs.Values.{Ended, Out, Owned, Suspended, Unborn};
ghost use Rattle.abt_unit.specs.Units.{IsFree};
ghost use Rattle.abt_chain.specs.Results.{coded_or, given_or, unit_found, unit_given, units_woken};
ghost use Rattle.abt_desk.specs.Phases.{behind_in, phase_of, shown_in, shown_unit};

use abt_chain::Chain;
use abt_machine::{Cause, Code, PoolNo, Shown, UnitNo};
use abt_unit::Unit;
use std::marker::Model;
use std::mem;

// Where the desk's own unit is: at the desk, or out.
#[derive(Drop)]
enum Phase {
    Unborn(Box<Unit>),
    Out,
    Suspended(Box<Unit>),
    Ended(Box<Unit>, Cause),
}

/// What is asked of a unit: that it ends, and that it goes to another pool.
#[derive(Clone, Copy, Debug, PartialEq, Eq)]
pub struct Asks {
    pub cancel: bool,
    pub migrate: Option<PoolNo>,
}

/// The desk of one unit, with the units that join it and what is asked of it.
#[derive(Drop)]
pub struct Desk {
    number: UnitNo,
    sched: bool,
    phase: Phase,
    joiners: Chain,
    asks: Asks,
    migratable: bool,
}

impl Model for Desk {
    ghost use Rattle.std.specs.Prelude.{◌≡◌, [], option_map};
    ghost use Rattle.abt_machine.specs.declared.numbers.PoolNo.{PoolNo};
    ghost use Rattle.abt_machine.specs.Values.{DeskValue};

    ghost Value = { DeskValue };

    ghost use Rattle.abt_desk.specs.Phases.{behind_in, phase_of};

    ghost view = { λ d. record {
      number = d.number.0;
      sched = d.sched;
      phase = phase_of d.phase;
      joiners = d.joiners.units;
      cancel = d.asks.cancel;
      migrate = option_map (λ (p : PoolNo). p.0) d.asks.migrate;
      migratable = d.migratable;
    } };

    ghost invariant = { λ d. behind_in d.phase ≡ [] };
}

impl Desk {
    /// The desk of an unborn unit, of which nothing is asked. A scheduler unit is never migratable, any other is at first.
    pub fn new(unit: Box<Unit>, sched: bool) -> Desk
        requires { IsFree unit.value }
        ensures { result ≡ record {
          number = unit.value.owned.number;
          sched = sched;
          phase = Unborn unit.value.owned;
          joiners = [];
          cancel = false;
          migrate = None;
          migratable = not sched;
        } }
    {
        Desk {
            number: unit.number(),
            sched,
            phase: Phase::Unborn(unit),
            joiners: Chain::new(),
            asks: Asks {
                cancel: false,
                migrate: None,
            },
            migratable: !sched,
        }
    }

    /// Begins the unit's first life, with that home. `Exists` if it is not unborn.
    pub fn create(&mut self, home: PoolNo) -> Result<Box<Unit>, Code>
        ensures gives { DeskGives self.old (act.Create home.0) (coded_or unit_given result) self.new }
        ensures free { IfOk result (λ unit. IsFree unit.value) }
    {
        match mem::replace(&mut self.phase, Phase::Out) {
            Phase::Unborn(unit) => Ok(begun(unit, home)),
            other => {
                self.phase = other;
                Err(Code::Exists)
            }
        }
    }

    /// Ends the unit's life: the joiners come out in order, and nothing is asked any longer. If the desk is not out, or the
    /// unit is not its own, the unit is kept as the last joiner instead, and nothing comes out.
    pub fn end(&mut self, unit: Box<Unit>, cause: Cause) -> Chain
        requires { IsFree unit.value }
        ensures { DeskGives self.old (act.End unit.value.owned cause) (units_woken result) self.new }
    {
        if self.takes_back(&unit) {
            self.phase = Phase::Ended(unit, cause);
            self.forget();
            mem::replace(&mut self.joiners, Chain::new())
        } else {
            self.joiners.push_back(unit);
            Chain::new()
        }
    }

    /// The unit goes on if the desk's unit has ended; else it is kept as the last joiner.
    pub fn join(&mut self, unit: Box<Unit>) -> Option<Box<Unit>>
        requires { IsFree unit.value }
        ensures gives { DeskGives self.old (act.Join unit.value.owned) (given_or act.Rested result) self.new }
        ensures same { IfSome result (λ back. back.value ≡ unit.value) }
    {
        match &self.phase {
            Phase::Ended(_, _) => Some(unit),
            Phase::Unborn(_) | Phase::Out | Phase::Suspended(_) => {
                self.joiners.push_back(unit);
                None
            }
        }
    }

    /// Asks the unit to end at its next look. `UnitState` if it is unborn or has ended.
    pub fn ask_cancel(&mut self) -> Code
        ensures { DeskGives self.old act.AskCancel (act.Coded result) self.new }
    {
        if !self.is_living() {
            return Code::UnitState;
        }
        self.asks.cancel = true;
        Code::Ok
    }

    /// Asks the unit to go to a pool at its next look, in place of what was asked before. `UnitState` if it is unborn or has
    /// ended, else `NotMigratable` if it is not migratable.
    pub fn ask_migrate(&mut self, p: PoolNo) -> Code
        ensures { DeskGives self.old (act.AskMigrate p.0) (act.Coded result) self.new }
    {
        if !self.is_living() {
            return Code::UnitState;
        }
        if !self.migratable {
            return Code::NotMigratable;
        }
        self.asks.migrate = Some(p);
        Code::Ok
    }

    /// Takes what is asked of the unit: afterwards nothing is asked of it.
    #[inline(always)]
    pub fn look(&mut self) -> Asks
        ensures { DeskGives self.old act.Look (act.Asks result.cancel (option_map (λ (p : PoolNo). p.0) result.migrate)) self.new }
    {
        let asks = self.asks;
        self.forget();
        asks
    }

    /// The number of the desk's own unit, wherever it is.
    pub fn number(&self) -> UnitNo
        ensures { result.0 ≡ self.now.number }
    {
        self.number
    }

    /// Suspends the unit. If the desk is not out, or the unit is not its own, the unit is kept as the last joiner instead.
    pub fn suspend(&mut self, unit: Box<Unit>)
        requires { IsFree unit.value }
        ensures { DeskGives self.old (act.Suspend unit.value.owned) act.Rested self.new }
    {
        if self.takes_back(&unit) {
            self.phase = Phase::Suspended(unit);
        } else {
            self.joiners.push_back(unit);
        }
    }

    /// Lets the suspended unit go on: it comes out. None (`UnitState`) if it is not suspended.
    pub fn resume(&mut self) -> Option<Box<Unit>>
        ensures gives { DeskGives self.old act.Resume (given_or (act.Coded code.UnitState) result) self.new }
        ensures free { IfSome result (λ unit. IsFree unit.value) }
    {
        match mem::replace(&mut self.phase, Phase::Out) {
            Phase::Suspended(unit) => Some(unit),
            other => {
                self.phase = other;
                None
            }
        }
    }

    /// Begins a further life of the unit, with that home: it comes out. None (`UnitState`) if it has not ended.
    pub fn revive(&mut self, home: PoolNo) -> Option<Box<Unit>>
        ensures gives { DeskGives self.old (act.Revive home.0) (given_or (act.Coded code.UnitState) result) self.new }
        ensures free { IfSome result (λ unit. IsFree unit.value) }
    {
        match mem::replace(&mut self.phase, Phase::Out) {
            Phase::Ended(unit, _) => Some(begun(unit, home)),
            other => {
                self.phase = other;
                None
            }
        }
    }

    /// Sets whether the unit may be asked to migrate. `NotMigratable` for a scheduler unit.
    pub fn set_migratable(&mut self, yes: bool) -> Code
        ensures { DeskGives self.old (act.SetMigratable yes) (act.Coded result) self.new }
    {
        if self.sched {
            return Code::NotMigratable;
        }
        self.migratable = yes;
        Code::Ok
    }

    /// The unit that the desk holds. None if it is out.
    pub fn held(&self) -> Option<&Unit>
        ensures none { IfNone result (self.now.phase ≡ Out) }
        ensures found { IfSome result (λ unit.
            option_or (unborn_in self.now.phase) (option_or (suspended_in self.now.phase) (ended_in self.now.phase))
            ≡ Some unit.now.owned) }
    {
        match &self.phase {
            Phase::Unborn(unit) | Phase::Suspended(unit) | Phase::Ended(unit, _) => Some(unit),
            Phase::Out => None,
        }
    }

    /// How a report shows the unit that the desk holds. None if it is out.
    pub fn shown(&self) -> Option<Shown>
        ensures unborn { (o : Owned) → self.now.phase ≡ Unborn o → result ≡ Some shows.Unborn }
        ensures out { self.now.phase ≡ Out → result ≡ None }
        ensures suspended { (o : Owned) → self.now.phase ≡ Suspended o → result ≡ Some shows.Suspended }
        ensures ended { (o : Owned) (c : Cause) → self.now.phase ≡ Ended o c → result ≡ Some (shows.Ended c) }
    {
        match &self.phase {
            Phase::Unborn(_) => Some(Shown::Unborn),
            Phase::Out => None,
            Phase::Suspended(_) => Some(Shown::Suspended),
            Phase::Ended(_, cause) => Some(Shown::Ended(*cause)),
        }
    }

    /// The unit that the desk holds, with how a report shows it, and all joiners in order. No unit if the desk is out.
    pub fn into_units(self) -> (Option<(Shown, Box<Unit>)>, Chain)
        ensures own { option_map shown_unit result.0 ≡ shown_in self.phase }
        ensures free { IfSome result.0 (λ held. IsFree held.1.value) }
        ensures joiners { result.1.units ≡ self.joiners }
    {
        (shown_in(self.phase), self.joiners)
    }

    /// The first joiner of that number. The time is that of a walk over the joiners.
    pub fn joiner(&self, u: UnitNo) -> Option<&Unit>
        ensures { find (is_unit u.0) self.now.joiners ≡ unit_found result }
    {
        self.joiners.find(u)
    }
}

impl Desk {
    ghost use Rattle.abt_machine.specs.Desks.{is_living, takes_back, unasked};

    // Whether the desk is out, and the unit is its own.
    fn takes_back(&self, unit: &Unit) -> bool
        ensures { result ≡ takes_back self.now unit.now.owned }
    {
        matches!(&self.phase, Phase::Out) && unit.number() == self.number
    }

    // Whether the unit has been born and has not ended.
    fn is_living(&self) -> bool
        ensures { result ≡ is_living self.now.phase }
    {
        match &self.phase {
            Phase::Unborn(_) | Phase::Ended(_, _) => false,
            Phase::Out | Phase::Suspended(_) => true,
        }
    }

    // Nothing is asked of the unit any longer.
    fn forget(&mut self)
        ensures { self.new ≡ unasked self.old }
    {
        self.asks = Asks {
            cancel: false,
            migrate: None,
        };
    }
}

// The unit that is held, with how a report shows it.
fn shown_in(phase: Phase) -> Option<(Shown, Box<Unit>)>
    requires { behind_in phase ≡ [] }
    ensures own { option_map shown_unit result ≡ shown_in (phase_of phase) }
    ensures free { IfSome result (λ held. IsFree held.1.value) }
{
    match phase {
        Phase::Unborn(unit) => Some((Shown::Unborn, unit)),
        Phase::Out => None,
        Phase::Suspended(unit) => Some((Shown::Suspended, unit)),
        Phase::Ended(unit, cause) => Some((Shown::Ended(cause), unit)),
    }
}

// The unit at the beginning of a life, with that home.
fn begun(mut unit: Box<Unit>, home: PoolNo) -> Box<Unit>
    ensures { result.value ≡ record unit.value { owned = reborn home.0 unit.value.owned } }
{
    unit.begin_life(home);
    unit
}
