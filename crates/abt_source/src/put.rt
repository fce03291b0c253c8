//! The bytes that a sink of the process handed to the host, which only clauses read.

ghost use Rattle.std.specs.Prelude.{◌≡◌, ◌++◌};
ghost use Rattle.abt_source.specs.RealSink.{remembered};

use std::marker::Model;
use std::snapshot::Snapshot;

/// A byte and those before it, seen as the list of all. It is made only to be remembered, and then takes no memory.
#[derive(Drop)]
pub(crate) struct Put {
    pub(crate) before: Option<Snapshot<Put>>,
    pub(crate) byte: u8,
}

impl Model for Put {
    ghost use Rattle.std.specs.Prelude.{ℕ, List, [], ◌∷◌, ◌++◌, length};
    ghost use Rattle.std.proofs.Common.{arith, length-append};
    ghost use Rattle.abt_source.specs.RealSink.{remembered};

    ghost Value = { List ℕ };

    ghost view = { λ p. remembered p.before ++ p.byte ∷ [] };

    ghost size = { λ p. length p };

    ghost size_decreases = { λ a h. Prim.grind (arith, length-append) };
}

/// Remembers these bytes after those before.
pub(crate) fn remember(last: &mut Option<Snapshot<Put>>, bytes: &[u8])
    ensures { remembered last.new ≡ remembered last.old ++ bytes.now }
{
    for &byte in bytes {
        let before = last.take();
        *last = Some(Snapshot::of(&Put { before, byte }));
    }
}
