//! What calls of objects answer, as rows say it.

use abt_barrier::Arrival;
use abt_chain::{Chain, Refused};
use abt_desk::Asks;
use abt_machine::{Code, Shown};
use abt_unit::Unit;

/// A unit's number and accumulator.
pub type Seen = (u32, u64);

/// What a call answers.
#[derive(Clone, Copy, PartialEq, Eq)]
pub enum Answer {
    /// No unit.
    Nobody,
    Unit(Seen),
    /// Units in order, of which there are three at most.
    Units(Option<Seen>, Option<Seen>, Option<Seen>),
    Code(Code),
    Number(u64),
    Truth(bool),
    Shown(Option<Shown>),
    Asks(Asks),
}

/// No units where several may come out.
pub const NO_UNITS: Answer = Answer::Units(None, None, None);

fn seen(unit: &Unit) -> Seen {
    (unit.number().0, unit.acc())
}

/// A unit that is found.
pub fn found(unit: Option<&Unit>) -> Answer {
    match unit {
        Some(unit) => Answer::Unit(seen(unit)),
        None => Answer::Nobody,
    }
}

/// A unit that comes out.
pub fn out(unit: Option<Box<Unit>>) -> Answer {
    match unit {
        Some(unit) => Answer::Unit(seen(&unit)),
        None => Answer::Nobody,
    }
}

/// A unit that comes out, or the code of a call that is refused.
pub fn out_or_code(answer: Result<Option<Box<Unit>>, Code>) -> Answer {
    match answer {
        Ok(unit) => out(unit),
        Err(code) => Answer::Code(code),
    }
}

/// A unit that comes out, or the code with which the caller is refused.
pub fn out_or_refused(answer: Result<Option<Box<Unit>>, Refused>) -> Answer {
    match answer {
        Ok(unit) => out(unit),
        Err(refused) => Answer::Code(refused.code),
    }
}

// The first unit, which is taken.
fn next(units: &mut Chain) -> Option<Seen> {
    let unit = units.take_front()?;
    Some(seen(&unit))
}

/// Units that come out.
pub fn all(mut units: Chain) -> Answer {
    Answer::Units(next(&mut units), next(&mut units), next(&mut units))
}

/// Units that come out, or the code of a call that is refused.
pub fn all_or_code(answer: Result<Chain, Code>) -> Answer {
    match answer {
        Ok(units) => all(units),
        Err(code) => Answer::Code(code),
    }
}

/// A number, or the code of a call that is refused.
pub fn number_or_code(answer: Result<u64, Code>) -> Answer {
    match answer {
        Ok(number) => Answer::Number(number),
        Err(code) => Answer::Code(code),
    }
}

/// The unit that goes through a barrier, and the others with it.
pub fn through(arrival: Arrival) -> Answer {
    match arrival {
        Arrival::Rested => Answer::Nobody,
        Arrival::Through(unit, mut others) => {
            Answer::Units(Some(seen(&unit)), next(&mut others), next(&mut others))
        }
    }
}
