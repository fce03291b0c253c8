//! A sink that takes bytes, and bytes written whole.

ghost use Rattle.std.specs.Prelude.{◌≡◌, ◌<◌, ◌≤◌, ℕ, List, length, Option, IfOk, OnOk, OnErr};
ghost use Rattle.abt_source.specs.Source.{Rose, Took, TookPrefix, WriteTakes};

use crate::Failed;

/// Takes bytes in order.
pub trait Sink {
    /// The bytes that were taken, if they are observable.
    ghost taken: { Self → Option (List ℕ) };

    /// How many times a write has failed. It never falls.
    ghost faults: { Self → ℕ };

    /// Takes at least one byte from the start of the piece, or fails and takes none.
    fn write(&mut self, piece: &[u8]) -> Result<usize, Failed>
        requires { 0 < length piece.now }
        ensures least { IfOk result (λ n. 0 < n) }
        ensures bound { IfOk result (λ n. n ≤ length piece.now) }
        ensures takes { WriteTakes (taken self.old) (taken self.new) result piece.now }
        ensures later { faults self.old ≤ faults self.new }
        ensures cause { OnErr result (Rose (faults self.old) (faults self.new)) }
        ensures quiet { OnOk result (faults self.new ≡ faults self.old) };
}

/// Writes all the bytes.
///
/// # Errors
///
/// `Failed` if a write failed; the sink then has a prefix of the bytes.
pub fn write_whole<K: Sink>(sink: &mut K, bytes: &[u8]) -> Result<(), Failed>
    ensures whole { OnOk result (Took (K.taken sink.old) (K.taken sink.new) bytes.now) }
    ensures prefix { OnErr result (TookPrefix (K.taken sink.old) (K.taken sink.new) bytes.now) }
    ensures cause { OnErr result (Rose (K.faults sink.old) (K.faults sink.new)) }
    ensures later { K.faults sink.old ≤ K.faults sink.new }
    ensures quiet { OnOk result (K.faults sink.new ≡ K.faults sink.old) }
{
    let mut at = 0;
    while at < bytes.len() {
        at += sink.write(&bytes[at..])?;
    }
    Ok(())
}
