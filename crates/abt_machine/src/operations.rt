//! What a workload is made of: pools, schedulers, objects, units and their operations.

ghost use Rattle.std.specs.Prelude.{◌≡◌};
ghost use Rattle.std.specs.Int.{IsGcd};
ghost use Rattle.abt_machine.specs.Access.{puts, takes};
ghost use Rattle.abt_machine.specs.Carrying.{gcd, word_from};
ghost use Rattle.abt_machine.specs.Operations.{may_block};
ghost use Rattle.abt_machine.specs.Steps.{combined};
ghost use Rattle.abt_machine.specs.Workloads.{is_condition_of, ops_of};
ghost use Rattle.abt_machine.specs.declared.operations.Calc.TheVariants as calc;

use crate::items::Items;
use crate::numbers::{ObjectNo, PoolNo, SchedNo, StreamNo, UnitNo};
use crate::ops::Ops;

/// How a pool orders its units. FIFO pushes at the back and pops at the front (the Argobots API);
/// a deque pops at the back for the streams that own it, and at the front for every other.
#[derive(Clone, Copy, Debug, PartialEq, Eq)]
pub enum Kind {
    Fifo,
    Deque,
}

/// Which streams put into a pool and which take from it: `Priv` both by one, `Spsc` from the first to
/// the second, `Mpsc` from all to one, `Spmc` from one to all, `Mpmc` all (the Argobots API).
#[derive(Clone, Copy, Debug, PartialEq, Eq)]
pub enum Access {
    Priv(StreamNo),
    Spsc(StreamNo, StreamNo),
    Mpsc(StreamNo),
    Spmc(StreamNo),
    Mpmc,
}

impl Access {
    /// Whether the stream of this number may put into a pool of this access.
    pub fn puts(self, stream: u64) -> bool
        ensures { result ≡ puts self stream }
    {
        match self {
            Access::Priv(a) | Access::Spsc(a, _) | Access::Spmc(a) => stream == u64::from(a.0),
            Access::Mpsc(_) | Access::Mpmc => true,
        }
    }

    /// Whether the stream of this number may take from a pool of this access.
    pub fn takes(self, stream: u64) -> bool
        ensures { result ≡ takes self stream }
    {
        match self {
            Access::Priv(b) | Access::Spsc(_, b) | Access::Mpsc(b) => stream == u64::from(b.0),
            Access::Spmc(_) | Access::Mpmc => true,
        }
    }
}

/// In which order a scheduler visits its pools. `Randws` has the seed of its generator, `User` the
/// number of a stored order.
#[derive(Clone, Copy, Debug, PartialEq, Eq)]
pub enum Rule {
    Basic,
    Prio,
    Randws(u64),
    User(u32),
}

/// What a future computes from its compartments' values: their sum modulo 2^64, their maximum, or their number.
#[derive(Clone, Copy, Debug, PartialEq, Eq)]
pub enum Combine {
    Sum,
    Max,
    Count,
}

impl Combine {
    /// The value of a future once one more compartment is filled, with `new`, from `old`, its value before, and `filled`, how many
    /// compartments were filled before.
    pub fn combined(self, old: u64, filled: u32, new: u64) -> u64
        ensures { result ≡ combined self (record { filled = filled; value = old }) new }
    {
        match self {
            Combine::Sum => old.wrapping_add(new),
            Combine::Max => old.max(new),
            Combine::Count => u64::from(filled) + 1,
        }
    }
}

/// What `calc` makes of the accumulator and a key, modulo 2^64: their sum, difference, product, quotient, remainder, minimum or
/// maximum, their bits in common, in either or in one alone, 1 if they are equal or if the accumulator is less and else 0, or
/// their greatest common divisor. A quotient by 0 is 0, and a remainder by 0 is the accumulator.
#[derive(Clone, Copy, Debug, PartialEq, Eq)]
pub enum Calc {
    Add,
    Sub,
    Mul,
    Div,
    Rem,
    Min,
    Max,
    And,
    Or,
    Xor,
    Eq,
    Lt,
    Gcd,
}

impl Calc {
    /// The accumulator after it, from the accumulator before it and the key.
    pub fn word_from(self, acc: u64, key: u64) -> u64
        ensures { result ≡ word_from self acc key }
    {
        match self {
            Calc::Add => acc.wrapping_add(key),
            Calc::Sub => acc.wrapping_sub(key),
            Calc::Mul => acc.wrapping_mul(key),
            Calc::Div => quotient(acc, key),
            Calc::Rem => remainder(acc, key),
            Calc::Min => acc.min(key),
            Calc::Max => acc.max(key),
            Calc::And => acc & key,
            Calc::Or => acc | key,
            Calc::Xor => acc ^ key,
            Calc::Eq => u64::from(acc == key),
            Calc::Lt => u64::from(acc < key),
            Calc::Gcd => gcd(acc, key),
        }
    }
}

// The quotient, 0 if the divisor is 0.
fn quotient(acc: u64, key: u64) -> u64
    ensures { result ≡ word_from calc.Div acc key }
{
    if key == 0 { 0 } else { acc / key }
}

// The remainder, of a division by 0 the accumulator.
fn remainder(acc: u64, key: u64) -> u64
    ensures { result ≡ word_from calc.Rem acc key }
{
    if key == 0 { acc } else { acc % key }
}

/// The greatest common divisor; with 0 it is the other number.
pub fn gcd(a: u64, b: u64) -> u64
    ensures euclid { result ≡ gcd a b }
    ensures greatest { IsGcd a b result }
{
    if b == 0 { a } else { gcd(b, a % b) }
}

/// A synchronization object. A condition has its mutex, a future its number of compartments, a barrier
/// its number of parties.
#[derive(Clone, Copy, Debug, PartialEq, Eq)]
pub enum Thing {
    Mutex,
    Cond(ObjectNo),
    Eventual,
    Future(u32, Combine),
    Barrier(u32),
    RwLock,
}

impl Thing {
    /// Whether it is a condition of this mutex.
    pub fn is_condition_of(self, mutex: ObjectNo) -> bool
        ensures { result ≡ is_condition_of mutex.0 self }
    {
        match self {
            Thing::Cond(m) => m.0 == mutex.0,
            _ => false,
        }
    }
}

/// One operation of a unit's program. `Say` has the number of its word, counted over the whole workload.
#[derive(Clone, Copy, Debug, PartialEq, Eq)]
pub enum Op {
    Set(u64),
    Add(u64),
    Say(u32),
    Print,
    KeySet(u32),
    KeyGet(u32),
    Yield,
    YieldTo(UnitNo, PoolNo),
    Suspend,
    Exit,
    Resume(UnitNo),
    Create(UnitNo, PoolNo),
    Join(UnitNo),
    Cancel(UnitNo),
    Migrate(UnitNo, PoolNo),
    MigrateTo(UnitNo, StreamNo),
    Migratable(UnitNo, bool),
    Revive(UnitNo, PoolNo),
    Lock(ObjectNo),
    TryLock(ObjectNo),
    Unlock(ObjectNo),
    Load(ObjectNo),
    Store(ObjectNo),
    CondWait(ObjectNo),
    Signal(ObjectNo),
    Broadcast(ObjectNo),
    EvWait(ObjectNo),
    EvSet(ObjectNo),
    EvReset(ObjectNo),
    EvTest(ObjectNo),
    FuWait(ObjectNo),
    FuSet(ObjectNo),
    FuReset(ObjectNo),
    FuTest(ObjectNo),
    BarWait(ObjectNo),
    ReadLock(ObjectNo),
    WriteLock(ObjectNo),
    RwUnlock(ObjectNo),
    RwLoad(ObjectNo),
    RwStore(ObjectNo),
    /// Computes the accumulator from itself and a key.
    Calc(Calc, u32),
    /// Calls the user's function of this number.
    Call(u32),
}

impl Op {
    /// Whether the operation may block or yield, which a tasklet must not.
    pub fn may_block(self) -> bool
        ensures { result ≡ may_block self }
    {
        matches!(
            self,
            Op::Yield
                | Op::YieldTo(_, _)
                | Op::Suspend
                | Op::Exit
                | Op::Join(_)
                | Op::Lock(_)
                | Op::CondWait(_)
                | Op::EvWait(_)
                | Op::FuWait(_)
                | Op::BarWait(_)
                | Op::ReadLock(_)
                | Op::WriteLock(_)
        )
    }
}

/// The pools that a scheduler lists.
pub type Pools = Items<PoolNo>;

/// What a unit is: a user-level thread or a tasklet with its program, or a scheduler.
#[derive(Drop)]
pub enum Body {
    Ult(Ops),
    Task(Ops),
    Sched(SchedNo),
}

impl Body {
    /// The operations of the body; a scheduler has none.
    pub fn ops(&self) -> &[Op]
        ensures { result.now ≡ ops_of self.now }
    {
        match self {
            Body::Ult(ops) => ops.items(),
            Body::Task(ops) => ops.items(),
            Body::Sched(_) => &[],
        }
    }
}

/// One of a pool's ends.
#[derive(Clone, Copy, Debug, PartialEq, Eq)]
pub enum Side {
    Front,
    Back,
}

/// What a stored order guarantees about its answer for round r, n pools and place i: `Rotate` (r + i) mod n,
/// `Mirror` n - 1 - i, `Free` any number below n.
#[derive(Clone, Copy, Debug, PartialEq, Eq)]
pub enum OrderShape {
    Rotate,
    Mirror,
    Free,
}
