//! The number and the home of a unit, as events name them.

ghost use Rattle.std.specs.Prelude.{◌≡◌};
ghost use Rattle.abt_machine.specs.Numbers.{pool_no, unit_no};

use abt_machine::{PoolNo, UnitNo};
use abt_unit::Unit;

/// The unit's number.
pub(crate) fn name(unit: &Unit) -> UnitNo
    ensures { result ≡ unit_no unit.now.owned.number }
{
    unit.number()
}

/// The unit's home.
pub(crate) fn home(unit: &Unit) -> PoolNo
    ensures { result ≡ pool_no unit.now.owned.carried.home }
{
    unit.home()
}
