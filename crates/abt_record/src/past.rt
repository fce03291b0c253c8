//! The events so far, which only clauses read.

use abt_machine::Event;
use std::marker::Model;
use std::snapshot::Snapshot;

/// An event and those before it, seen as the list of all. It is made only to be remembered, and then takes no memory.
#[derive(Drop)]
pub(crate) struct Past {
    pub(crate) before: Option<Snapshot<Past>>,
    pub(crate) event: Event,
}

impl Model for Past {
    ghost use Rattle.std.specs.Prelude.{List, [], ◌∷◌, ◌++◌, length};
    ghost use Rattle.std.proofs.Common.{arith, length-append};
    ghost use Rattle.abt_machine.specs.declared.events.Event.{Event};
    ghost use Rattle.abt_record.specs.Records.{remembered};

    ghost Value = { List Event };

    ghost view = { λ p. remembered p.before ++ p.event ∷ [] };

    ghost size = { λ p. length p };

    ghost size_decreases = { λ a h. Prim.grind (arith, length-append) };
}
