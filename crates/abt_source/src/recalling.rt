//! What the readings of the process's files gave, which only clauses read.

ghost use Rattle.std.specs.Prelude.{◌≡◌, ◌∷◌, [], false, true};
ghost use Rattle.abt_source.specs.RealFiles.{after_call, recalled};
ghost use Rattle.abt_source.specs.Seen.{read_on, reading};

use crate::put::{Put, remember};
use std::marker::Model;
use std::snapshot::Snapshot;

/// A call on files and those before it, seen as what the readings gave: it began the file of a name, or gave bytes, or none at the
/// end. It is made only to be remembered, and then takes no memory.
#[derive(Drop)]
pub(crate) struct Recalled {
    before: Option<Snapshot<Recalled>>,
    begins: bool,
    bytes: Option<Snapshot<Put>>,
}

impl Model for Recalled {
    ghost use Rattle.std.specs.Prelude.{ℕ, ◌+◌};
    ghost use Rattle.std.proofs.Common.{arith};
    ghost use Rattle.abt_source.specs.RealFiles.{Recall, after_call, recalled};
    ghost use Rattle.abt_source.specs.RealSink.{remembered};

    ghost Value = { Recall };

    ghost view = { λ r. record {
      readings = after_call r.begins (remembered r.bytes) (recalled r.before).readings;
      calls = (recalled r.before).calls + 1;
    } };

    ghost size = { λ r. r.calls };

    ghost size_decreases = { λ a h. Prim.grind (arith) };
}

/// Recalls that the file of this name was begun.
pub(crate) fn recall_begin(last: &mut Option<Snapshot<Recalled>>, name: &str)
    ensures { (recalled last.new).readings ≡ reading name.now [] false ∷ (recalled last.old).readings }
{
    recall(last, true, name.as_bytes());
}

/// Recalls that a read of the file that is begun gave these bytes.
pub(crate) fn recall_read(last: &mut Option<Snapshot<Recalled>>, bytes: &[u8])
    ensures { (recalled last.new).readings ≡ read_on true bytes.now (recalled last.old).readings }
{
    recall(last, false, bytes);
}

// Recalls that a call began the file of this name, or that it gave these bytes.
fn recall(last: &mut Option<Snapshot<Recalled>>, begins: bool, bytes: &[u8])
    ensures { (recalled last.new).readings ≡ after_call begins bytes.now (recalled last.old).readings }
{
    let mut put = None;
    remember(&mut put, bytes);
    let before = last.take();
    *last = Some(Snapshot::of(&Recalled {
        before,
        begins,
        bytes: put,
    }));
}
