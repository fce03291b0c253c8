//! A unit, its calls, and the link that makes chains of units.

ghost use Rattle.std.specs.Prelude.{◌≡◌, ◌<◌, ◌≤◌, ◌+◌, ◌-◌, ◌^◌, ◌↔◌, IfOk, IfSome, IsSome, IsTrue, OnErr, OnOk, Some, length, option_map, slice_index, vec_len, vec_capacity};
ghost use Rattle.abt_machine.specs.declared.numbers.PoolNo.{PoolNo};
ghost use Rattle.abt_machine.specs.declared.events.Piece.TheVariants.{Refused};
ghost use Rattle.abt_machine.specs.Acts.{carrying, moved, received, reborn};
ghost use Rattle.abt_machine.specs.Carrying.{printed, with_home};
ghost use Rattle.abt_machine.specs.Operations.{nature_of};
ghost use Rattle.abt_machine.specs.Sites.{home_from};
ghost use Rattle.abt_machine.specs.Start.{start};
ghost use Rattle.abt_machine.specs.Values.{owned_at};
ghost use Rattle.abt_unit.specs.Fits.{Fits};
ghost use Rattle.abt_unit.specs.Local.{IsLocal, after_local, back, local_step, local_step_at};
ghost use Rattle.abt_unit.specs.Units.{IsFree};

use abt_machine::{Code, Op, Output, Piece, PoolNo, UnitNo, Want, Workload};
use std::alloc::Global;
use std::marker::Model;
use std::mem;

/// What a unit carries, with room for pieces of output that was taken ahead.
#[derive(Drop)]
pub struct UnitBody {
    number: UnitNo,
    position: u32,
    acc: u64,
    keys: Vec<u64>,
    home: PoolNo,
    output: Vec<Piece>,
}

impl Model for UnitBody {
    ghost use Rattle.std.specs.Prelude.{◌-◌, vec_len, vec_capacity};
    ghost use Rattle.abt_unit.specs.Units.{BodyValue};

    ghost Value = { BodyValue };

    ghost view = { λ b. record {
      owned = record {
        number = b.number.0;
        carried = record { position = b.position; acc = b.acc; keys = b.keys.items; home = b.home.0; output = b.output.items };
      };
      spare = vec_capacity b.output - vec_len b.output;
    } };
}

/// A unit, and the next unit of the chain that it is in.
pub struct Unit {
    pub body: UnitBody,
    pub link: Option<Box<Unit>>,
}

impl Model for Unit {
    ghost use Rattle.std.specs.Prelude.{length};
    ghost use Rattle.std.proofs.Common.{arith};
    ghost use Rattle.abt_unit.specs.Units.{UnitValue, units_in};

    ghost Value = { UnitValue };

    ghost view = { λ u. record { owned = u.body.owned; spare = u.body.spare; behind = units_in u.link } };

    ghost size = { λ u. length u.behind };

    ghost size_decreases = { λ a h. Prim.grind arith };
}

// A loop, since a chain may be longer than the stack is deep.
impl Drop for Unit {
    fn drop(mut self) {
        loop {
            let Unit { body: _body, link } = self;
            match link {
                None => return,
                Some(next) => self = Box::into_inner(next),
            }
        }
    }
}

impl Unit {
    /// The unit as a run starts with it: at its first operation, with no output and with 0 in its accumulator and keys. Its
    /// home is the pool that it starts in, and pool 0 if it starts in none.
    pub fn make(alloc: Global, w: &Workload, u: UnitNo) -> Result<Box<Unit>, Want>
        requires { u.0 < length w.now.units }
        ensures start { IfOk result (λ unit. unit.value.owned ≡ owned_at (start w.now) u.0) }
        ensures fits { IfOk result (λ unit. Fits w.now unit.value.owned) }
        ensures free { IfOk result (λ unit. IsFree unit.value) }
    {
        w.known();
        let body = UnitBody {
            number: u,
            position: 0,
            acc: 0,
            keys: vec![in alloc; 0; w.keys() as usize]?,
            home: first_home(w.unit(u).start),
            output: Vec::new(alloc),
        };
        Ok(Box::new(alloc, Unit { body, link: None })?)
    }

    /// The unit's number.
    pub fn number(&self) -> UnitNo
        ensures { result.0 ≡ self.now.owned.number }
    {
        self.body.number
    }

    /// How many operations of its present life are behind the unit.
    pub fn position(&self) -> u32
        ensures { result ≡ self.now.owned.carried.position }
    {
        self.body.position
    }

    /// The accumulator.
    pub fn acc(&self) -> u64
        ensures { result ≡ self.now.owned.carried.acc }
    {
        self.body.acc
    }

    /// The pool that the unit goes back to.
    pub fn home(&self) -> PoolNo
        ensures { result.0 ≡ self.now.owned.carried.home }
    {
        self.body.home
    }

    /// What the unit has said and printed in all of its lives.
    pub fn output(&self) -> &[Piece]
        ensures { result.now ≡ self.now.owned.carried.output }
    {
        self.body.output.as_slice()
    }

    /// What the unit has said and printed in all of its lives, moved out of it.
    pub fn into_output(mut self) -> Output
        ensures { result ≡ self.owned.carried.output }
    {
        let output = &mut self.body.output;
        let empty = Vec::new(*output.allocator());
        Output::new(mem::replace(output, empty))
    }

    /// The value of a key.
    pub fn key(&self, k: u32) -> u64
        requires { k < length self.now.owned.carried.keys }
        ensures { result ≡ slice_index self.now.owned.carried.keys k }
    {
        self.body.keys[k as usize]
    }

    /// The values of all keys.
    pub fn keys(&self) -> &[u64]
        ensures { result.now ≡ self.now.owned.carried.keys }
    {
        self.body.keys.as_slice()
    }

    /// Whether there is room for one more piece of output.
    #[inline(always)]
    pub fn has_room(&self) -> bool
        ensures { IsTrue result ↔ 0 < self.now.spare }
    {
        self.body.output.len() < self.body.output.capacity()
    }

    /// Takes room for one more piece of output, if there is none: at first for one alone, since most units never say more. If that
    /// is out of memory, nothing changes.
    pub fn reserve_output(&mut self) -> Result<(), Want>
        ensures room { OnOk result (0 < self.new.spare) }
        ensures kept { self.old.spare ≤ self.new.spare }
        ensures same { self.new ≡ record self.old { spare = self.new.spare } }
        ensures err { OnErr result (self.new ≡ self.old) }
        ensures only_full { OnErr result (self.old.spare ≡ 0) }
    {
        if self.body.output.capacity() == 0 {
            self.body.output.reserve_exact(1)?;
            return Ok(());
        }
        self.body.output.reserve(1)?;
        Ok(())
    }

    /// Does the operation at the unit's position.
    #[inline(always)]
    pub fn step_local(&mut self, w: &Workload)
        requires fits { Fits w.now self.old.owned }
        requires local { IsLocal w.now self.old.owned }
        requires room { 0 < self.old.spare }
        ensures step { local_step w.now self.old.owned ≡ Some self.new.owned }
        ensures fits { Fits w.now self.new.owned }
        ensures room { self.old.spare ≤ self.new.spare + 1 }
        ensures behind { self.new.behind ≡ self.old.behind }
    {
        w.known();
        match w.op(self.number(), self.position()) {
            Some(op) => self.step(op),
            None => unreachable!(),
        }
    }

    /// Goes on to the next operation.
    #[inline(always)]
    pub fn advance(&mut self)
        requires { self.old.owned.carried.position < 2 ^ 32 - 1 }
        ensures { self.new ≡ record self.old { owned = moved self.old.owned } }
    {
        self.body.position += 1;
    }

    /// Goes back to the operation before, if an advance turns out to have no event.
    pub fn retreat(&mut self)
        requires { 0 < self.old.owned.carried.position }
        ensures { self.new ≡ record self.old { owned = carrying back self.old.owned } }
    {
        self.body.position -= 1;
    }

    /// Appends the code of a refused operation to the output.
    pub fn note(&mut self, code: Code)
        requires { 0 < self.old.spare }
        ensures { self.new ≡ record self.old { owned = carrying (printed (Refused code)) self.old.owned; spare = self.old.spare - 1 } }
    {
        self.body.output.push_reserved(Piece::Refused(code));
    }

    /// Sets the accumulator.
    pub fn receive(&mut self, value: u64)
        ensures { self.new ≡ record self.old { owned = received value self.old.owned } }
    {
        self.body.acc = value;
    }

    /// Sets the home.
    pub fn set_home(&mut self, p: PoolNo)
        ensures { self.new ≡ record self.old { owned = carrying (with_home p.0) self.old.owned } }
    {
        self.body.home = p;
    }

    /// Begins a life; the output of earlier lives stays.
    pub fn begin_life(&mut self, home: PoolNo)
        ensures { self.new ≡ record self.old { owned = reborn home.0 self.old.owned } }
    {
        let body = &mut self.body;
        body.position = 0;
        body.acc = 0;
        body.keys.fill(0);
        body.home = home;
    }
}

impl Unit {
    // Does a local operation.
    #[inline(always)]
    fn step(&mut self, op: Op)
        requires local { IsSome (after_local op self.old.owned.carried) }
        requires key { IfSome (nature_of op).key (λ k. k < length self.old.owned.carried.keys) }
        requires position { self.old.owned.carried.position < 2 ^ 32 - 1 }
        requires room { 0 < self.old.spare }
        ensures step { local_step_at (Some op) self.old.owned ≡ Some self.new.owned }
        ensures room { self.old.spare ≤ self.new.spare + 1 }
        ensures behind { self.new.behind ≡ self.old.behind }
    {
        let body = &mut self.body;
        match op {
            Op::Set(n) => body.acc = n,
            Op::Add(n) => body.acc = body.acc.wrapping_add(n),
            Op::Say(word) => body.output.push_reserved(Piece::Said(word)),
            Op::Print => body.output.push_reserved(Piece::Number(body.acc)),
            Op::KeySet(key) => body.keys[key as usize] = body.acc,
            Op::KeyGet(key) => body.acc = body.keys[key as usize],
            Op::Calc(calc, key) => {
                body.acc = calc.word_from(body.acc, body.keys[key as usize]);
            }
            Op::Call(_) => {}
            _ => unreachable!(),
        }
        body.position += 1;
    }
}

// The home of a unit that starts there, or in no pool.
fn first_home(start: Option<PoolNo>) -> PoolNo
    ensures { result.0 ≡ home_from (option_map (λ (p : PoolNo). p.0) start) }
{
    start.unwrap_or(PoolNo(0))
}
