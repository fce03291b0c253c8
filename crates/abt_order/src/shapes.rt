//! The answers of the two shapes that leave no choice.

ghost use Rattle.std.specs.Prelude.{◌≡◌, ◌<◌, ◌≤◌, ◌+◌, ◌-◌, ◌%◌};
ghost use Rattle.abt_machine.specs.Limits.{listed_limit};

/// The answer of shape Rotate: round + i modulo n, for any round.
pub fn rotate(round: u64, n: u32, i: u32) -> u32
    requires count { (0 < n) × (n ≤ listed_limit) }
    requires place { i < n }
    ensures { result ≡ (round + i) % n }
{
    let turn = round % u64::from(n);
    ((turn + u64::from(i)) % u64::from(n)) as u32
}

/// The answer of shape Mirror: n - 1 - i, whatever the round.
pub fn mirror(_round: u64, n: u32, i: u32) -> u32
    requires count { (0 < n) × (n ≤ listed_limit) }
    requires place { i < n }
    ensures { result ≡ n - 1 - i }
{
    n - 1 - i
}
