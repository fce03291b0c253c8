//! Numbers from a unit's keys.

ghost use Rattle.std.specs.Prelude.{◌≡◌, ◌%◌, ◌^◌, sum};
ghost use Rattle.abt_functions.specs.Functions.{greatest};

/// The sum of the keys, modulo 2^64.
pub(crate) fn sum_of(keys: &[u64]) -> u64
    ensures { result ≡ sum keys.now % 2 ^ 64 }
{
    match keys.split_first() {
        None => 0,
        Some((key, keys)) => key.wrapping_add(sum_of(keys)),
    }
}

/// The greatest of the keys, 0 if there is none.
pub(crate) fn greatest(keys: &[u64]) -> u64
    ensures { result ≡ greatest keys.now }
{
    match keys.split_first() {
        None => 0,
        Some((key, keys)) => greatest(keys).max(*key),
    }
}
