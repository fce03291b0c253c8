//! Reader-writer locks, with the number that they guard.

ghost use Rattle.std.specs.Prelude.{◌≡◌, [], ◌∷◌, IfNone, IfOk, IfSome, IsTrue, None, option_map, replicate, slice_set};
ghost use Rattle.abt_calls.specs.Allowed.{RwLockAllows};
ghost use Rattle.abt_replay.specs.Acts.{act_of, answer_of};
ghost use Rattle.abt_machine.specs.declared.events.Wish.TheVariants as wish;
ghost use Rattle.abt_machine.specs.declared.numbers.UnitNo.{UnitNo};
ghost use Rattle.abt_machine.specs.Acts as asked;
ghost use Rattle.abt_machine.specs.Holders.{holds, is_free, reads, writes};
ghost use Rattle.abt_machine.specs.RwLocks.{RwLockGives, after_readers, all_reading, first_readers, left_by, may_read, passed_on, waiting, wants_to_read, woken};

use crate::acts::{Act, Answer};
use crate::counts::Counts;
use crate::keys::{Keyed, write_list, write_queue};
use crate::unit::{Unit, copied};
use abt_machine::{Code, UnitNo, Want, Wish};
use std::alloc::{AllocError, Global};
use std::collections::VecDeque;
use std::marker::Model;

// How often a unit may read at once.
const READ_LIMIT: u32 = 65_535;

/// A lock that is free, or held by a unit that writes, or by units that read, each with a count of how often it does; what each
/// unit wanted when it last came to wait; the units that wait, in order of arrival; and the number that the lock guards.
#[derive(Drop)]
pub struct RwLock {
    writer: Option<UnitNo>,
    counts: Counts,
    wishes: Vec<Wish>,
    waiters: VecDeque<Unit>,
    number: u64,
}

impl Model for RwLock {
    ghost use Rattle.std.specs.Prelude.{option_map};
    ghost use Rattle.abt_machine.specs.declared.numbers.UnitNo.{UnitNo};
    ghost use Rattle.abt_machine.specs.Values.{RwLockValue};

    ghost Value = { RwLockValue };

    ghost view = { λ l. record {
      lock = record {
        writer = option_map (λ (writer : UnitNo). writer.0) l.writer;
        counts = l.counts;
        wishes = l.wishes.items;
        number = l.number;
      };
      waiters = l.waiters.items;
    } };
}

impl Clone for RwLock {
    ghost is_clone = { λ lock copy. copy ≡ lock };

    fn clone(&self) -> Result<RwLock, AllocError> {
        Ok(RwLock {
            writer: self.writer,
            counts: self.counts.clone()?,
            wishes: Vec::from_slice(*self.wishes.allocator(), self.wishes.as_slice())?,
            waiters: copied(&self.waiters)?,
            number: self.number,
        })
    }
}

impl Keyed for RwLock {
    ghost use Rattle.abt_replay.specs.Keys.{rwlock_key};

    ghost key = { rwlock_key };

    #[tactic(auto, using(crate::proofs::Written::written))]
    fn write(&self, out: &mut Vec<u8>) -> Result<(), Want> {
        self.writer.write(out)?;
        self.counts.write(out)?;
        write_list(self.wishes.as_slice(), out)?;
        self.number.write(out)?;
        write_queue(&self.waiters, out)
    }
}

impl RwLock {
    /// A free lock that guards 0, for units whose numbers are below `units`; nobody waits for it. Out of memory is the only error.
    pub fn new(alloc: Global, units: u32) -> Result<RwLock, Want>
        ensures { IfOk result (λ lock. lock ≡ record {
          lock = record { writer = None; counts = replicate units 0; wishes = replicate units wish.Read; number = 0 };
          waiters = [];
        }) }
    {
        Ok(RwLock {
            writer: None,
            counts: Counts::new(alloc, units)?,
            wishes: vec![in alloc; Wish::Read; units as usize]?,
            waiters: VecDeque::new(alloc),
            number: 0,
        })
    }

    /// The units that wait, in order of arrival.
    pub fn waiters(&self) -> &VecDeque<Unit>
        ensures { result.now.items ≡ self.now.waiters }
    {
        &self.waiters
    }

    /// The unit that writes, if one does.
    pub fn writer(&self) -> Option<UnitNo>
        ensures { option_map (λ (writer : UnitNo). writer.0) result ≡ self.now.lock.writer }
    {
        self.writer
    }

    /// Whether the unit reads.
    pub fn reads(&self, who: UnitNo) -> bool
        ensures { result ≡ reads who.0 self.now.lock }
    {
        self.counts.of(who) > 0
    }

    /// Whether the unit wanted to read when it last came to wait.
    pub fn wants_to_read(&self, who: UnitNo) -> bool
        ensures { result ≡ wants_to_read self.now.lock.wishes who.0 }
    {
        wants_to_read(&self.wishes, who)
    }

    /// Answers the act.
    pub(crate) fn answer(&mut self, act: Act) -> Result<Answer, Want>
        requires allowed { RwLockAllows (act_of act) }
        ensures { IfOk result (λ answer. RwLockGives self.old (act_of act) (answer_of answer) self.new) }
    {
        match act {
            Act::ReadLock(unit) => self.read(unit),
            Act::WriteLock(unit) => self.write(unit),
            Act::RwUnlock(who) => self.unlock(who),
            Act::Load(who) => Ok(self.load(who)),
            Act::Store(who, number) => Ok(self.store(who, number)),
            _ => unreachable!(),
        }
    }

    fn read(&mut self, unit: Unit) -> Result<Answer, Want>
        ensures { IfOk result (λ answer. RwLockGives self.old (asked.ReadLock unit) (answer_of answer) self.new) }
    {
        let who = unit.number();
        if self.is_writer(who) {
            return Ok(Answer::Back(unit, Code::RwHeld));
        }
        let count = self.counts.of(who);
        if count >= READ_LIMIT {
            return Ok(Answer::Back(unit, Code::RwFull));
        }
        if self.may_read(who) {
            self.counts.set(who, count + 1);
            return Ok(Answer::Given(unit));
        }
        self.wait(unit, Wish::Read)
    }

    fn write(&mut self, unit: Unit) -> Result<Answer, Want>
        ensures { IfOk result (λ answer. RwLockGives self.old (asked.WriteLock unit) (answer_of answer) self.new) }
    {
        let who = unit.number();
        if self.holds(who) {
            return Ok(Answer::Back(unit, Code::RwHeld));
        }
        if self.is_free() {
            self.writer = Some(who);
            return Ok(Answer::Given(unit));
        }
        self.wait(unit, Wish::Write)
    }

    fn unlock(&mut self, who: UnitNo) -> Result<Answer, Want>
        ensures { IfOk result (λ answer. RwLockGives self.old (asked.RwUnlock who.0) (answer_of answer) self.new) }
    {
        if !self.holds(who) {
            return Ok(Answer::Code(Code::NotHolder));
        }
        self.give_up(who);
        Ok(Answer::Woke(self.pass_on()?))
    }

    fn load(&self, who: UnitNo) -> Answer
        ensures { RwLockGives self.now (asked.Load who.0) (answer_of result) self.now }
    {
        if !self.holds(who) {
            return Answer::Code(Code::NotHolder);
        }
        Answer::Number(self.number)
    }

    fn store(&mut self, who: UnitNo, number: u64) -> Answer
        ensures { RwLockGives self.old (asked.Store who.0 number) (answer_of result) self.new }
    {
        if !self.is_writer(who) {
            return Answer::Code(Code::NotHolder);
        }
        self.number = number;
        Answer::Code(Code::Ok)
    }

    // The unit writes.
    fn is_writer(&self, who: UnitNo) -> bool
        ensures { result ≡ writes who.0 self.now.lock }
    {
        match self.writer {
            None => false,
            Some(writer) => writer.0 == who.0,
        }
    }

    // The unit writes or reads.
    fn holds(&self, who: UnitNo) -> bool
        ensures { result ≡ holds who.0 self.now.lock }
    {
        self.is_writer(who) || self.reads(who)
    }

    // No unit writes, and none reads.
    fn is_free(&self) -> bool
        ensures { result ≡ is_free self.now.lock }
    {
        self.writer.is_none() && self.counts.are_zero()
    }

    // The unit reads already, or no unit writes and none waits.
    fn may_read(&self, who: UnitNo) -> bool
        ensures { result ≡ may_read who.0 self.now }
    {
        self.reads(who) || (self.writer.is_none() && self.waiters.is_empty())
    }

    // The unit waits, and wants that.
    fn wait(&mut self, unit: Unit, wish: Wish) -> Result<Answer, Want>
        ensures new { IfOk result (λ _. self.new ≡ waiting wish unit self.old) }
        ensures rested { IfOk result (λ answer. answer_of answer ≡ asked.Rested) }
    {
        set_wish(&mut self.wishes, unit.number(), wish);
        self.waiters.push_back(unit)?;
        Ok(Answer::Rested)
    }

    // The unit gives up the lock if it writes, and else reads once less.
    fn give_up(&mut self, who: UnitNo)
        requires { IsTrue (holds who.0 self.old.lock) }
        ensures { self.new ≡ left_by who.0 self.old }
    {
        if self.is_writer(who) {
            self.writer = None;
            return;
        }
        let count = self.counts.of(who);
        self.counts.set(who, count - 1);
    }

    // If the lock is free, it goes to the waiters before the first that wants to write, or to this one if it is the first. They
    // come out in order.
    #[tactic(auto, using(crate::proofs::Serving::serving))]
    fn pass_on(&mut self) -> Result<VecDeque<Unit>, Want>
        ensures woken { IfOk result (λ out. out.items ≡ woken self.old) }
        ensures new { IfOk result (λ _. self.new ≡ passed_on self.old) }
    {
        if !self.is_free() {
            return Ok(VecDeque::new(*self.waiters.allocator()));
        }
        let mut out = take_readers(&self.wishes, &mut self.counts, &mut self.waiters)?;
        if out.is_empty()
            && let Some(unit) = self.waiters.pop_front()
        {
            self.writer = Some(unit.number());
            out.push_back(unit)?;
        }
        Ok(out)
    }
}

// Sets what the unit wants, if there is a place for it.
fn set_wish(wishes: &mut Vec<Wish>, who: UnitNo, wish: Wish)
    ensures { wishes.new.items ≡ slice_set wishes.old.items who.0 wish }
{
    if let Some(slot) = wishes.get_mut(who.0 as usize) {
        *slot = wish;
    }
}

// The unit wants to read.
fn wants_to_read(wishes: &[Wish], who: UnitNo) -> bool
    ensures { result ≡ wants_to_read wishes.now who.0 }
{
    match wishes.get(who.0 as usize) {
        None => false,
        Some(Wish::Read) => true,
        Some(Wish::Write) => false,
    }
}

// The waiters before the first that wants to write come out in order, and each of them reads once.
#[tactic(auto, using(crate::proofs::Serving::serving))]
fn take_readers(
    wishes: &[Wish],
    counts: &mut Counts,
    waiters: &mut VecDeque<Unit>,
) -> Result<VecDeque<Unit>, Want>
    ensures readers { IfOk result (λ readers. readers.items ≡ first_readers wishes.now waiters.old.items) }
    ensures counts { IfOk result (λ readers. counts.new ≡ all_reading readers.items counts.old) }
    ensures others { IfOk result (λ _. waiters.new.items ≡ after_readers wishes.now waiters.old.items) }
{
    let mut readers = VecDeque::new(*waiters.allocator());
    while let Some(unit) = take_reader(wishes, waiters) {
        counts.set(unit.number(), 1);
        readers.push_back(unit)?;
    }
    Ok(readers)
}

// The first waiter comes out if it wants to read.
fn take_reader(wishes: &[Wish], waiters: &mut VecDeque<Unit>) -> Option<Unit>
    ensures none { IfNone result ((waiters.new.items ≡ waiters.old.items) × (first_readers wishes.now waiters.old.items ≡ [])) }
    ensures some { IfSome result (λ unit. waiters.old.items ≡ unit ∷ waiters.new.items) }
    ensures reader { IfSome result (λ unit. IsTrue (wants_to_read wishes.now unit.number)) }
{
    let reader_is_first = match waiters.front() {
        None => false,
        Some(unit) => wants_to_read(wishes, unit.number()),
    };
    if !reader_is_first {
        return None;
    }
    waiters.pop_front()
}
