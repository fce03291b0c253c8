//! How units that waited for a value get it.

ghost use Rattle.std.specs.Prelude.{◌≡◌, [], map};
ghost use Rattle.abt_machine.specs.Acts.{received};

use abt_chain::Chain;

/// All units come out in order, each with the value in its accumulator.
pub fn woken_with(value: u64, waiters: &mut Chain) -> Chain
    ensures all { result.units ≡ map (received value) waiters.old.units }
    ensures none_left { waiters.new.units ≡ [] }
{
    let mut woken = Chain::new();
    while let Some(mut unit) = waiters.take_front() {
        unit.receive(value);
        woken.push_back(unit);
    }
    woken
}
