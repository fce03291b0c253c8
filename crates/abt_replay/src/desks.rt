//! Desks: each keeps its unit if that is unborn, suspended or has ended, the units that join it, and what is asked of it.

ghost use Rattle.std.specs.Prelude.{◌≡◌, IfOk};
ghost use Rattle.abt_calls.specs.Allowed.{DeskAllows};
ghost use Rattle.abt_replay.specs.Acts.{act_of, answer_of};
ghost use Rattle.abt_replay.specs.Phases.{phase_of};
ghost use Rattle.abt_machine.specs.Acts.{reborn};
ghost use Rattle.abt_machine.specs.Desks.{DeskGives, is_living, takes_back, unasked};

use crate::acts::{Act, Answer};
use crate::keys::{Keyed, write_queue};
use crate::unit::{Unit, copied};
use abt_desk::Asks;
use abt_machine::{Cause, Code, PoolNo, UnitNo, Want};
use std::alloc::AllocError;
use std::collections::VecDeque;
use std::marker::Model;
use std::mem;

/// Where the desk's own unit is: at the desk, in one of three states, or out.
#[derive(Drop)]
pub enum Phase {
    Unborn(Unit),
    Out,
    Suspended(Unit),
    Ended(Unit, Cause),
}

impl Clone for Phase {
    ghost is_clone = { λ phase copy. copy ≡ phase };

    fn clone(&self) -> Result<Phase, AllocError> {
        Ok(match self {
            Phase::Unborn(unit) => Phase::Unborn(unit.clone()?),
            Phase::Out => Phase::Out,
            Phase::Suspended(unit) => Phase::Suspended(unit.clone()?),
            Phase::Ended(unit, cause) => Phase::Ended(unit.clone()?, *cause),
        })
    }
}

impl Keyed for Phase {
    ghost use Rattle.abt_replay.specs.Keys.{phase_key};
    ghost use Rattle.abt_replay.specs.Phases.{phase_of};

    ghost key = { λ phase. phase_key (phase_of phase) };

    fn write(&self, out: &mut Vec<u8>) -> Result<(), Want> {
        match self {
            Phase::Unborn(unit) => {
                out.push(0)?;
                unit.write(out)
            }
            Phase::Out => {
                out.push(1)?;
                Ok(())
            }
            Phase::Suspended(unit) => {
                out.push(2)?;
                unit.write(out)
            }
            Phase::Ended(unit, cause) => {
                out.push(3)?;
                unit.write(out)?;
                cause.write(out)
            }
        }
    }
}

/// The desk of one unit.
#[derive(Drop)]
pub struct Desk {
    number: UnitNo,
    sched: bool,
    phase: Phase,
    joiners: VecDeque<Unit>,
    asks: Asks,
    migratable: bool,
}

impl Model for Desk {
    ghost use Rattle.std.specs.Prelude.{option_map};
    ghost use Rattle.abt_replay.specs.Phases.{phase_of};
    ghost use Rattle.abt_machine.specs.declared.numbers.PoolNo.{PoolNo};
    ghost use Rattle.abt_machine.specs.Values.{DeskValue};

    ghost Value = { DeskValue };

    ghost view = { λ d. record {
      number = d.number.0;
      sched = d.sched;
      phase = phase_of d.phase;
      joiners = d.joiners.items;
      cancel = d.asks.cancel;
      migrate = option_map (λ (p : PoolNo). p.0) d.asks.migrate;
      migratable = d.migratable;
    } };
}

impl Clone for Desk {
    ghost is_clone = { λ desk copy. copy ≡ desk };

    fn clone(&self) -> Result<Desk, AllocError> {
        Ok(Desk {
            number: self.number,
            sched: self.sched,
            phase: self.phase.clone()?,
            joiners: copied(&self.joiners)?,
            asks: self.asks,
            migratable: self.migratable,
        })
    }
}

impl Keyed for Desk {
    ghost use Rattle.abt_replay.specs.Keys.{desk_key};

    ghost key = { desk_key };

    #[tactic(auto, using(crate::proofs::Written::written))]
    fn write(&self, out: &mut Vec<u8>) -> Result<(), Want> {
        self.number.write(out)?;
        self.sched.write(out)?;
        self.phase.write(out)?;
        write_queue(&self.joiners, out)?;
        self.asks.cancel.write(out)?;
        self.asks.migrate.write(out)?;
        self.migratable.write(out)
    }
}

impl Desk {
    ghost use Rattle.std.specs.Prelude.{None, false, not};

    /// The desk of the unit of that number, which is a scheduler unit if `sched`. Nothing is asked of the unit, and it may
    /// migrate unless it is a scheduler unit.
    pub fn new(number: UnitNo, sched: bool, phase: Phase, joiners: VecDeque<Unit>) -> Desk
        ensures { result ≡ record {
          number = number.0;
          sched = sched;
          phase = phase_of phase;
          joiners = joiners.items;
          cancel = false;
          migrate = None;
          migratable = not sched;
        } }
    {
        Desk {
            number,
            sched,
            phase,
            joiners,
            asks: Asks {
                cancel: false,
                migrate: None,
            },
            migratable: !sched,
        }
    }

    /// Where the desk's own unit is.
    pub fn phase(&self) -> &Phase
        ensures { phase_of result.now ≡ self.now.phase }
    {
        &self.phase
    }

    /// The units that join the desk's own, in order of arrival.
    pub fn joiners(&self) -> &VecDeque<Unit>
        ensures { result.now.items ≡ self.now.joiners }
    {
        &self.joiners
    }

    /// Answers the act.
    pub(crate) fn answer(&mut self, act: Act) -> Result<Answer, Want>
        requires allowed { DeskAllows (act_of act) }
        ensures { IfOk result (λ answer. DeskGives self.old (act_of act) (answer_of answer) self.new) }
    {
        match act {
            Act::Create(home) => Ok(self.create(home)),
            Act::End(unit, cause) => self.end(unit, cause),
            Act::Join(unit) => self.join(unit),
            Act::AskCancel => Ok(self.ask_cancel()),
            Act::AskMigrate(p) => Ok(self.ask_migrate(p)),
            Act::Look => Ok(self.look()),
            Act::Suspend(unit) => self.suspend(unit),
            Act::Resume => Ok(self.resume()),
            Act::Revive(home) => Ok(self.revive(home)),
            Act::SetMigratable(allowed) => Ok(self.set_migratable(allowed)),
            _ => unreachable!(),
        }
    }
}

impl Desk {
    ghost use Rattle.abt_machine.specs.Acts as asked;

    fn create(&mut self, home: PoolNo) -> Answer
        ensures { DeskGives self.old (asked.Create home.0) (answer_of result) self.new }
    {
        match mem::replace(&mut self.phase, Phase::Out) {
            Phase::Unborn(unit) => Answer::Given(begun(unit, home)),
            other => {
                self.phase = other;
                Answer::Code(Code::Exists)
            }
        }
    }

    fn end(&mut self, unit: Unit, cause: Cause) -> Result<Answer, Want>
        ensures { IfOk result (λ answer. DeskGives self.old (asked.End unit cause) (answer_of answer) self.new) }
    {
        let none = VecDeque::new(*self.joiners.allocator());
        if self.takes_back(&unit) {
            self.phase = Phase::Ended(unit, cause);
            self.forget();
            return Ok(Answer::Woke(mem::replace(&mut self.joiners, none)));
        }
        self.joiners.push_back(unit)?;
        Ok(Answer::Woke(none))
    }

    fn join(&mut self, unit: Unit) -> Result<Answer, Want>
        ensures { IfOk result (λ answer. DeskGives self.old (asked.Join unit) (answer_of answer) self.new) }
    {
        match &self.phase {
            Phase::Ended(_, _) => Ok(Answer::Given(unit)),
            Phase::Unborn(_) | Phase::Out | Phase::Suspended(_) => {
                self.joiners.push_back(unit)?;
                Ok(Answer::Rested)
            }
        }
    }

    fn ask_cancel(&mut self) -> Answer
        ensures { DeskGives self.old asked.AskCancel (answer_of result) self.new }
    {
        if !self.is_living() {
            return Answer::Code(Code::UnitState);
        }
        self.asks.cancel = true;
        Answer::Code(Code::Ok)
    }

    fn ask_migrate(&mut self, p: PoolNo) -> Answer
        ensures { DeskGives self.old (asked.AskMigrate p.0) (answer_of result) self.new }
    {
        if !self.is_living() {
            return Answer::Code(Code::UnitState);
        }
        if !self.migratable {
            return Answer::Code(Code::NotMigratable);
        }
        self.asks.migrate = Some(p);
        Answer::Code(Code::Ok)
    }

    fn look(&mut self) -> Answer
        ensures { DeskGives self.old asked.Look (answer_of result) self.new }
    {
        let asks = self.asks;
        self.forget();
        Answer::Asks(asks)
    }

    fn suspend(&mut self, unit: Unit) -> Result<Answer, Want>
        ensures { IfOk result (λ answer. DeskGives self.old (asked.Suspend unit) (answer_of answer) self.new) }
    {
        if self.takes_back(&unit) {
            self.phase = Phase::Suspended(unit);
            return Ok(Answer::Rested);
        }
        self.joiners.push_back(unit)?;
        Ok(Answer::Rested)
    }

    fn resume(&mut self) -> Answer
        ensures { DeskGives self.old asked.Resume (answer_of result) self.new }
    {
        match mem::replace(&mut self.phase, Phase::Out) {
            Phase::Suspended(unit) => Answer::Given(unit),
            other => {
                self.phase = other;
                Answer::Code(Code::UnitState)
            }
        }
    }

    fn revive(&mut self, home: PoolNo) -> Answer
        ensures { DeskGives self.old (asked.Revive home.0) (answer_of result) self.new }
    {
        match mem::replace(&mut self.phase, Phase::Out) {
            Phase::Ended(unit, _) => Answer::Given(begun(unit, home)),
            other => {
                self.phase = other;
                Answer::Code(Code::UnitState)
            }
        }
    }

    fn set_migratable(&mut self, allowed: bool) -> Answer
        ensures { DeskGives self.old (asked.SetMigratable allowed) (answer_of result) self.new }
    {
        if self.sched {
            return Answer::Code(Code::NotMigratable);
        }
        self.migratable = allowed;
        Answer::Code(Code::Ok)
    }

    // Whether the desk is out, and the unit is its own.
    fn takes_back(&self, unit: &Unit) -> bool
        ensures { result ≡ takes_back self.now unit.now }
    {
        matches!(&self.phase, Phase::Out) && unit.number() == self.number
    }

    // Whether the unit has been born and has not ended.
    fn is_living(&self) -> bool
        ensures { result ≡ is_living self.now.phase }
    {
        match &self.phase {
            Phase::Unborn(_) | Phase::Ended(_, _) => false,
            Phase::Out | Phase::Suspended(_) => true,
        }
    }

    // Nothing is asked of the unit any longer.
    fn forget(&mut self)
        ensures { self.new ≡ unasked self.old }
    {
        self.asks = Asks {
            cancel: false,
            migrate: None,
        };
    }
}

// The unit at the beginning of a life, with that home.
fn begun(mut unit: Unit, home: PoolNo) -> Unit
    ensures { result ≡ reborn home.0 unit }
{
    unit.begin_life(home);
    unit
}
