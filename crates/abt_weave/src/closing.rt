//! What a closed booth has left.

ghost use Rattle.abt_weave.specs.Laws.{AllAreLeft, OneIsLeft};

use abt_booth::Object;
use abt_interleave::AnyMachine;

/// A booth round the one object behind its lock has left a line of that object.
pub fn one_is_left<M: AnyMachine, B: Object, L>()
    ensures { OneIsLeft M.machine B.does L }
{}

/// A booth round all objects behind its lock has left a line of them all.
pub fn all_are_left<M: AnyMachine, B: Object, L>()
    ensures { AllAreLeft M.machine B.does L }
{}
