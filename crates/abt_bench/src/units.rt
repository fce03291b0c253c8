//! Units to move about.

ghost use Rattle.std.specs.Prelude.{IfOk};
ghost use Rattle.abt_unit.specs.Units.{IsFree};

use crate::faults::out_of_memory;
use abt_generate::generate;
use abt_machine::UnitNo;
use abt_unit::Unit;
use std::alloc::Global;
use std::io;

// How many units there are to move about, beside the first.
const ADDERS: u32 = 3;

/// The unit of that number out of four, at its first operation, with that in its accumulator.
pub fn unit(alloc: Global, number: u32, acc: u64) -> io::Result<Box<Unit>>
    ensures { IfOk result (λ unit. IsFree unit.value) }
{
    let w = generate(alloc, ADDERS).map_err(out_of_memory)?;
    if number >= w.units() {
        return Err(io::Error::from(io::ErrorKind::InvalidInput));
    }
    let mut unit = Unit::make(alloc, &w, UnitNo(number)).map_err(out_of_memory)?;
    unit.receive(acc);
    Ok(unit)
}
