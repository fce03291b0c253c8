//! The stamps of the sorted list.

ghost use Rattle.abt_interleave.specs.Laws.{StampsAreLamports, StampsClose};

use crate::machine::AnyMachine;

/// Stamps that leave no gap stamp the sorted list.
pub fn stamps_close<M: AnyMachine>()
    ensures { StampsClose M.machine }
{}

/// Stamps by Lamport's rule are Lamport's in the sorted list.
pub fn stamps_are_lamports<M: AnyMachine>()
    ensures { StampsAreLamports M.machine }
{}
