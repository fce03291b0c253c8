//! Machines, as the laws speak of them.

ghost use Rattle.abt_interleave.specs.Machines.{Machine};

/// A machine of streams and objects.
pub trait AnyMachine {
    ghost machine: { Machine };
}
