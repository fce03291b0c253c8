//! Work units. Who has a unit owns it.

ghost use Rattle.std.specs.Prelude.{◌≡◌, ◌<◌, ◌-◌, ◌^◌, IfOk, IsSome, Some, length, option_map, slice_index, slice_set};
ghost use Rattle.abt_machine.specs.declared.numbers.PoolNo.{PoolNo};
ghost use Rattle.abt_machine.specs.declared.events.Piece.TheVariants.{Refused};
ghost use Rattle.abt_machine.specs.Acts.{carrying, moved, received, reborn};
ghost use Rattle.abt_machine.specs.Carrying.{printed, with_home};
ghost use Rattle.abt_machine.specs.Plans.{refusal};
ghost use Rattle.abt_machine.specs.Sites.{home_from};
ghost use Rattle.abt_machine.specs.Start.{start};
ghost use Rattle.abt_machine.specs.Values.{owned_at};
ghost use Rattle.abt_unit.specs.Local.{after_local, with_carried};

use crate::keys::{Keyed, write_list};
use abt_machine::{Code, Op, Piece, PoolNo, UnitNo, Want, Workload};
use std::alloc::{AllocError, Global};
use std::collections::VecDeque;
use std::marker::Model;

// What a unit carries.
#[derive(Clone, Drop)]
struct Load {
    number: UnitNo,
    position: u32,
    acc: u64,
    keys: Vec<u64>,
    home: PoolNo,
    output: Vec<Piece>,
}

/// A work unit. Contracts see its number and what it carries: position, accumulator, keys, home and output.
#[derive(Drop)]
pub struct Unit {
    load: Box<Load>,
}

impl Model for Unit {
    ghost use Rattle.abt_machine.specs.Values.{Owned};

    ghost Value = { Owned };

    ghost view = { λ u. record {
      number = u.load.value.number.0;
      carried = record {
        position = u.load.value.position;
        acc = u.load.value.acc;
        keys = u.load.value.keys.items;
        home = u.load.value.home.0;
        output = u.load.value.output.items;
      };
    } };
}

impl Clone for Unit {
    ghost is_clone = { λ unit copy. copy ≡ unit };

    fn clone(&self) -> Result<Unit, AllocError> {
        let load = self.load.clone()?;
        Ok(Unit { load })
    }
}

impl Keyed for Unit {
    ghost use Rattle.abt_replay.specs.Keys.{unit_key};

    ghost key = { unit_key };

    fn write(&self, out: &mut Vec<u8>) -> Result<(), Want> {
        let load = &self.load;
        load.number.write(out)?;
        load.position.write(out)?;
        load.acc.write(out)?;
        write_list(load.keys.as_slice(), out)?;
        load.home.write(out)?;
        write_list(load.output.as_slice(), out)
    }
}

impl Unit {
    /// Unit `u` of the workload at the start of a run. Out of memory is the only error.
    pub fn make(alloc: Global, w: &Workload, u: UnitNo) -> Result<Unit, Want>
        requires { u.0 < length w.now.units }
        ensures { IfOk result (λ unit. unit ≡ owned_at (start w.now) u.0) }
    {
        w.known();
        let load = Load {
            number: u,
            position: 0,
            acc: 0,
            keys: vec![in alloc; 0; w.keys() as usize]?,
            home: first_home(w.unit(u).start),
            output: Vec::new(alloc),
        };
        Ok(Unit {
            load: Box::new(alloc, load)?,
        })
    }

    /// The unit's number.
    pub fn number(&self) -> UnitNo
        ensures { result.0 ≡ self.now.number }
    {
        self.load.number
    }

    /// The position of its next operation.
    pub fn position(&self) -> u32
        ensures { result ≡ self.now.carried.position }
    {
        self.load.position
    }

    /// Its accumulator.
    pub fn acc(&self) -> u64
        ensures { result ≡ self.now.carried.acc }
    {
        self.load.acc
    }

    /// Its keys.
    pub fn keys(&self) -> &[u64]
        ensures { result.now ≡ self.now.carried.keys }
    {
        self.load.keys.as_slice()
    }

    /// The pool to which it goes when it is ready.
    pub fn home(&self) -> PoolNo
        ensures { result.0 ≡ self.now.carried.home }
    {
        self.load.home
    }

    /// The pieces of its output, the oldest first.
    pub fn output(&self) -> &[Piece]
        ensures { result.now ≡ self.now.carried.output }
    {
        self.load.output.as_slice()
    }

    /// Goes on to the next operation.
    pub(crate) fn advance(&mut self)
        requires { self.old.carried.position < 2 ^ 32 - 1 }
        ensures { self.new ≡ moved self.old }
    {
        self.load.position += 1;
    }

    /// Adds the code of a refusal to the output.
    pub(crate) fn note(&mut self, code: Code) -> Result<(), Want>
        ensures { IfOk result (λ _. self.new ≡ carrying (printed (Refused code)) self.old) }
    {
        self.load.output.push(Piece::Refused(code))?;
        Ok(())
    }

    /// Goes on to the next operation, and adds the code of this one's refusal to the output.
    pub(crate) fn refuse(&mut self, code: Code) -> Result<(), Want>
        requires { self.old.carried.position < 2 ^ 32 - 1 }
        ensures { IfOk result (λ _. Some self.new ≡ (refusal self.old code).hand) }
    {
        self.advance();
        self.note(code)
    }

    /// Sets the accumulator.
    pub(crate) fn receive(&mut self, value: u64)
        ensures { self.new ≡ received value self.old }
    {
        self.load.acc = value;
    }

    /// Sets the home.
    pub(crate) fn set_home(&mut self, p: PoolNo)
        ensures { self.new ≡ carrying (with_home p.0) self.old }
    {
        self.load.home = p;
    }

    /// Begins a life; the output of earlier lives stays.
    pub(crate) fn begin_life(&mut self, home: PoolNo)
        ensures { self.new ≡ reborn home.0 self.old }
    {
        let load = &mut self.load;
        load.position = 0;
        load.acc = 0;
        load.keys.fill(0);
        load.home = home;
    }

    /// Does a local operation.
    pub(crate) fn step(&mut self, op: Op) -> Result<(), Want>
        requires local { IsSome (after_local op self.old.carried) }
        requires position { self.old.carried.position < 2 ^ 32 - 1 }
        ensures { IfOk result (λ _. option_map (with_carried self.old) (after_local op self.old.carried) ≡ Some self.new) }
    {
        let load = &mut self.load;
        let acc = load.acc;
        match op {
            Op::Set(n) => load.acc = n,
            Op::Add(n) => load.acc = acc.wrapping_add(n),
            Op::Say(word) => load.output.push(Piece::Said(word))?,
            Op::Print => load.output.push(Piece::Number(acc))?,
            Op::KeySet(key) => set_key(&mut load.keys, key, acc),
            Op::KeyGet(key) => load.acc = key_in(&load.keys, key),
            Op::Calc(calc, key) => load.acc = calc.word_from(acc, key_in(&load.keys, key)),
            Op::Call(_) => {}
            _ => unreachable!(),
        }
        load.position += 1;
        Ok(())
    }
}

/// A copy of all units, in order. Out of memory is the only error.
pub(crate) fn copied(units: &VecDeque<Unit>) -> Result<VecDeque<Unit>, AllocError>
    ensures { IfOk result (λ copy. copy.items ≡ units.now.items) }
{
    units.clone()
}

// The home of a unit that starts there, or in no pool.
fn first_home(start: Option<PoolNo>) -> PoolNo
    ensures { result.0 ≡ home_from (option_map (λ (p : PoolNo). p.0) start) }
{
    start.unwrap_or(PoolNo(0))
}

// The value of a key, 0 if there is none of that number.
fn key_in(keys: &[u64], key: u32) -> u64
    ensures { result ≡ slice_index keys.now key }
{
    keys.get(key as usize).copied().unwrap_or(0)
}

// Sets a key, if there is one of that number.
fn set_key(keys: &mut Vec<u64>, key: u32, value: u64)
    ensures { keys.new.items ≡ slice_set keys.old.items key value }
{
    if let Some(slot) = keys.get_mut(key as usize) {
        *slot = value;
    }
}
