//! The numbers that name streams, pools, schedulers, units and objects, and those that functions return.

ghost use Rattle.std.specs.Prelude.{◌≡◌};

use std::marker::Model;

/// The number of an execution stream.
#[derive(Clone, Copy, Debug, PartialEq, Eq, PartialOrd, Ord)]
pub struct StreamNo(pub u32);

/// The number of a pool.
#[derive(Clone, Copy, Debug, PartialEq, Eq, PartialOrd, Ord)]
pub struct PoolNo(pub u32);

/// The number of a scheduler.
#[derive(Clone, Copy, Debug, PartialEq, Eq, PartialOrd, Ord)]
pub struct SchedNo(pub u32);

/// The number of a work unit.
#[derive(Clone, Copy, Debug, PartialEq, Eq, PartialOrd, Ord)]
pub struct UnitNo(pub u32);

/// The number of a synchronization object.
#[derive(Clone, Copy, Debug, PartialEq, Eq, PartialOrd, Ord)]
pub struct ObjectNo(pub u32);

/// What a function returned, a number of 64 bits. It is kept as two halves, so that it needs no more than the alignment of 32
/// bits, and an event no more than 32 bytes.
#[derive(Clone, Copy, Debug, PartialEq, Eq)]
pub struct Returned {
    high: u32,
    low: u32,
}

impl Model for Returned {
    ghost use Rattle.std.specs.Prelude.{ℕ, ◌+◌, ◌*◌, ◌/◌, ◌%◌, ◌^◌, ◌<◌};

    ghost Value = { ℕ };

    ghost view = { λ w. w.high * 2 ^ 32 + w.low };

    ghost invariant = { λ w. (w.high < 2 ^ 32) × (w.low < 2 ^ 32) };

    ghost inverse = { λ n. record { high = n / 2 ^ 32; low = n % 2 ^ 32 } };
}

impl Returned {
    /// This number, as what a function returned.
    pub fn new(number: u64) -> Self
        ensures { result ≡ number }
    {
        Returned {
            high: (number >> 32) as u32,
            low: (number & 0xffff_ffff) as u32,
        }
    }

    /// The number.
    pub fn get(self) -> u64
        ensures { result ≡ self }
    {
        u64::from(self.high) * 4_294_967_296 + u64::from(self.low)
    }
}
