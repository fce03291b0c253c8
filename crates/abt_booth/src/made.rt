//! The calls that were made since the turn was taken, which only clauses read.

ghost use Rattle.std.specs.Prelude.{◌≡◌, [], ◌∷◌, ◌++◌};

use std::marker::Model;
use std::snapshot::Snapshot;

/// A call that a seat made in its turn.
#[derive(Drop)]
pub struct Call<A, R> {
    pub stamp: u64,
    pub act: Snapshot<A>,
    pub answer: Snapshot<R>,
}

/// The calls of a turn, seen as their list. It is made only to be remembered, and then takes no memory.
#[derive(Drop)]
pub struct Calls<A, R> {
    pub last: Option<(Snapshot<Calls<A, R>>, Call<A, R>)>,
}

impl<A, R> Model for Calls<A, R> {
    ghost use Rattle.std.specs.Prelude.{List, [], ◌∷◌, ◌++◌, length};
    ghost use Rattle.std.proofs.Common.{arith, length-append};
    ghost use Rattle.abt_booth.specs.declared.made.Call.{Call};
    ghost use Rattle.abt_booth.specs.Made.{listed};

    ghost Value = { List (Call A R) };

    ghost view = { λ c. listed c.last };

    ghost size = { λ c. length c };

    ghost size_decreases = { λ a h. Prim.grind (arith, length-append) };
}

/// No call.
pub(crate) fn no_calls<A, R>() -> Snapshot<Calls<A, R>>
    ensures { result.value ≡ [] }
{
    Snapshot::of(&Calls { last: None })
}

/// One call more.
pub(crate) fn one_more<A, R>(
    before: Snapshot<Calls<A, R>>,
    call: Call<A, R>,
) -> Snapshot<Calls<A, R>>
    ensures { result.value ≡ before.value ++ call ∷ [] }
{
    Snapshot::of(&Calls {
        last: Some((before, call)),
    })
}
