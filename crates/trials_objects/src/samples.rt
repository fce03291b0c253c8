//! Units to try objects with.

ghost use Rattle.std.specs.Prelude.{◌<◌, length, IfOk};
ghost use Rattle.abt_unit.specs.Units.{IsFree};

use abt_machine::{UnitNo, Workload};
use abt_unit::Unit;
use abt_workload::read;
use std::alloc::Global;
use std::process::Abort;
use std::test::Fail;

// Four units that have no operation.
const FOUR: &str = "abt 1
streams 1
pool 0 fifo mpmc
sched 0 prio 0
stream 0 main 0
units 4
unit 0 ult later
unit 1 ult later
unit 2 ult later
unit 3 ult later
end
";

/// The unit of that number, with that in its accumulator.
pub fn unit(rt: &impl Abort, alloc: Global, number: u32, acc: u64) -> Result<Box<Unit>, Fail>
    ensures { IfOk result (λ unit. IsFree unit.value) }
{
    let w = read(alloc, FOUR.as_bytes())?;
    assert!(rt; number < w.units());
    made(alloc, &w, number, acc)
}

fn made(alloc: Global, w: &Workload, number: u32, acc: u64) -> Result<Box<Unit>, Fail>
    requires { number < length w.now.units }
    ensures { IfOk result (λ unit. IsFree unit.value) }
{
    let mut unit = Unit::make(alloc, w, UnitNo(number))?;
    unit.receive(acc);
    Ok(unit)
}
