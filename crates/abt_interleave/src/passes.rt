//! A stream's turns with a pass, whatever the pass may be.

ghost use Rattle.abt_interleave.specs.Machines.{Machine};
ghost use Rattle.abt_interleave.specs.Passes.{MovesOf, TurnsAreGone, TurnsGoOn, TurnsMeet};

/// Passes, as the laws speak of them.
pub trait AnyPass {
    /// What gives a stream its right to call.
    type Pass;

    // The machine.
    ghost machine: { Machine };

    // How passes move.
    ghost moves: { MovesOf machine Self.Pass };

    // A pass of one stream.
    ghost own: { Self.Pass → Type 0 };
}

/// One turn more: a deed, or a call that met a worn clock.
pub fn turns_go_on<P: AnyPass>()
    ensures deed { TurnsGoOn P.machine P.moves }
    ensures met { TurnsMeet P.machine P.moves }
{}

/// If the pass sees lines behind locks, the turns are what the laws of waves ask of a stream.
pub fn turns_are_gone<P: AnyPass, L>()
    ensures { TurnsAreGone P.machine P.moves P.own L }
{}
