//! A unit that an object refused.

use abt_machine::Code;
use abt_unit::Unit;

/// A unit that came to an object and was refused, and why.
#[derive(Drop)]
pub struct Refused {
    pub unit: Box<Unit>,
    pub code: Code,
}
