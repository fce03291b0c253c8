//! What the rows of tables are.

use std::marker::Brand;

/// A table, which is known to proofs alone.
pub trait Table {
    ghost use Rattle.std.specs.Prelude.{ℕ, List};

    // Row u.
    ghost row_at: { ℕ → List ℕ };
}

/// Whoever passes this type picks the rows.
impl Table for Brand {
    ghost use Rattle.std.specs.Prelude.{[]};

    ghost row_at = { λ _. [] };
}
