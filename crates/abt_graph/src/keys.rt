//! What functions make of their keys, and callers of values.

ghost use Rattle.std.specs.Prelude.{◌≡◌};
ghost use Rattle.abt_graph.specs.Shapes.{word_sum};

/// The sum of words, modulo 2^64.
pub fn sum_of(keys: &[u64]) -> u64
    ensures { result ≡ word_sum keys.now }
{
    let mut total: u64 = 0;
    for key in keys {
        total = total.wrapping_add(*key);
    }
    total
}
