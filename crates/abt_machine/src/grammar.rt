//! The formats of a workload text, and its lines, as data.

ghost use Rattle.std.specs.Prelude.{◌≡◌};
ghost use Rattle.abt_machine.specs.Limits.{
  object_limit,
  operation_limit,
  pool_limit,
  sched_limit,
  stream_limit,
  text_limit,
  unit_limit,
  unit_operation_limit,
};

use crate::numbers::PoolNo;
use crate::operations::{Access, Op, Rule, Thing};

/// A format of workload texts: `abt 1`, `abt 2` or `abt 3`.
#[derive(Clone, Copy, Debug, PartialEq, Eq)]
pub enum Format {
    One,
    Two,
    Three,
}

impl Format {
    /// The maximum number of bytes of a text.
    pub fn text_limit(self) -> usize
        ensures { result ≡ text_limit self }
    {
        match self {
            Format::One => 4_194_304,
            Format::Two => 8_388_608,
            Format::Three => 134_217_728,
        }
    }

    /// The maximum number of streams that a text declares.
    pub fn stream_limit(self) -> u32
        ensures { result ≡ stream_limit self }
    {
        match self {
            Format::One => 8,
            Format::Two => 16,
            Format::Three => 64,
        }
    }

    /// The maximum number of pools that a text declares.
    pub fn pool_limit(self) -> usize
        ensures { result ≡ pool_limit self }
    {
        match self {
            Format::One | Format::Two => 64,
            Format::Three => 1_024,
        }
    }

    /// The maximum number of schedulers that a text declares.
    pub fn sched_limit(self) -> usize
        ensures { result ≡ sched_limit self }
    {
        match self {
            Format::One | Format::Two => 64,
            Format::Three => 1_024,
        }
    }

    /// The maximum number of objects that a text declares.
    pub fn object_limit(self) -> usize
        ensures { result ≡ object_limit self }
    {
        match self {
            Format::One | Format::Two => 256,
            Format::Three => 65_536,
        }
    }

    /// The maximum number of units that a text declares.
    pub fn unit_limit(self) -> u32
        ensures { result ≡ unit_limit self }
    {
        match self {
            Format::One => 256,
            Format::Two => 4_096,
            Format::Three => 65_536,
        }
    }

    /// The maximum number of operations of a unit.
    pub fn unit_operation_limit(self) -> usize
        ensures { result ≡ unit_operation_limit self }
    {
        match self {
            Format::One | Format::Two => 256,
            Format::Three => 4_096,
        }
    }

    /// The maximum number of operations of all units.
    pub fn operation_limit(self) -> usize
        ensures { result ≡ operation_limit self }
    {
        match self {
            Format::One | Format::Two => 65_536,
            Format::Three => 1_048_576,
        }
    }
}

/// The maximum number of keys that a text declares.
pub const KEY_LIMIT: u32 = 16;

/// The maximum number of functions that units call.
pub const FUNCTION_LIMIT: u32 = 8;

/// The maximum number of pools that a scheduler lists.
pub const LISTED_LIMIT: usize = 8;

/// The maximum number of compartments of a future, and of parties of a barrier.
pub const SIZE_LIMIT: u32 = 4_096;

/// The maximum number of bytes of a said word.
pub const WORD_LIMIT: usize = 64;

/// What a unit is, by its line.
#[derive(Clone, Copy, Debug, PartialEq, Eq)]
pub enum Role {
    Ult,
    Task,
    Sched,
}

/// A form of line. Of the values that it carries, only the variants count, not their numbers: one
/// form, `Operation(Op::Lock(ObjectNo(0)))`, stands for every `lock` line.
#[derive(Clone, Copy, Debug, PartialEq, Eq)]
pub enum Form {
    Version(Format),
    Streams,
    Keys,
    Pool(Access),
    Sched(Rule),
    Stream,
    Object(Thing),
    Units,
    Unit(Role, Option<PoolNo>),
    Many(Role, Option<PoolNo>),
    End,
    Operation(Op),
    Repeat(Op),
}

/// What a number of a line is. `Within` names nothing and has a least and a greatest value; `StreamCount` and
/// `UnitCount` say how many there are, `Copies` how many units a `many` line declares and `Times` how many operations a
/// `repeat` line, which the text's format limits; the next four declare the number
/// that comes next of their kind; all others name what is declared.
#[derive(Clone, Copy, Debug, PartialEq, Eq)]
pub enum Number {
    Within(u64, u64),
    StreamCount,
    UnitCount,
    Copies,
    Times,
    NewPool,
    NewSched,
    NewObject,
    NewUnit,
    Stream,
    Pool,
    Sched,
    Key,
    Unit,
    Mutex,
    Cond,
    Eventual,
    Future,
    Barrier,
    RwLock,
}
