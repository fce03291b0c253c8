//! A chain's parts: units linked one behind the other.

ghost use Rattle.std.specs.Prelude.{◌≡◌, ◌+◌, ◌≤◌, [], ◌∷◌, ◌++◌, None, Some, IfNone, IfSome, length, reverse};
ghost use Rattle.std.specs.List.{find};
ghost use Rattle.abt_machine.specs.Pools.{is_unit, without};
ghost use Rattle.abt_unit.specs.Units.{IsFree, units_in};
ghost use Rattle.abt_chain.specs.Results.{unit_found};

use crate::Steps;
use abt_machine::UnitNo;
use abt_unit::Unit;
use std::sync::ledger::Ledger;

/// Units linked one behind the other.
pub type Part = Option<Box<Unit>>;

/// Takes the first unit.
pub fn pop(part: &mut Part) -> Option<Box<Unit>>
    ensures none { IfNone result ((units_in part.old ≡ []) × (units_in part.new ≡ [])) }
    ensures free { IfSome result (λ unit. IsFree unit.value) }
    ensures first { IfSome result (λ unit. units_in part.old ≡ unit.value.owned ∷ units_in part.new) }
{
    let mut unit = part.take()?;
    *part = unit.link.take();
    Some(unit)
}

/// The units of a part in reverse order, before those of the other; each is a link walked.
pub fn turned<L: Ledger>(part: Part, onto: Part, steps: &mut Steps<L>) -> Part
    ensures units { units_in result ≡ reverse (units_in part) ++ units_in onto }
    ensures links { steps.new ≡ steps.old + length (units_in part) }
{
    let mut rest = part;
    let mut done = onto;
    while let Some(mut unit) = rest {
        rest = unit.link.take();
        unit.link = done;
        done = Some(unit);
        steps.tick();
    }
    done
}

/// The units of a part in reverse order, before those of the other.
pub fn reversed_onto(part: Part, onto: Part) -> Part
    ensures { units_in result ≡ reverse (units_in part) ++ units_in onto }
{
    let mut rest = part;
    let mut done = onto;
    while let Some(mut unit) = rest {
        rest = unit.link.take();
        unit.link = done;
        done = Some(unit);
    }
    done
}

/// The units of a part in reverse order.
#[tactic(auto, using(crate::proofs::Finds::mirrored))]
pub fn flipped(part: Part) -> Part
    ensures { units_in part ≡ reverse (units_in result) }
{
    reversed_onto(part, None)
}

/// A part cut in two.
#[derive(Drop)]
pub struct Halves {
    /// The first units, in order.
    pub front: Part,
    /// The others, in reverse order.
    pub back: Part,
}

/// Cuts a part in the middle; of an odd number of units the back has one more.
#[tactic(auto, using(crate::proofs::Halves::halves))]
pub fn halved(part: Part) -> Halves
    ensures units { units_in part ≡ units_in result.front ++ reverse (units_in result.back) }
    ensures some { units_in result.back ≡ [] → units_in part ≡ [] }
{
    let mut left = counted(&part) / 2;
    let mut passed = None;
    let mut rest = part;
    while 0 < left {
        left -= 1;
        shift(&mut rest, &mut passed);
    }
    Halves {
        front: flipped(passed),
        back: flipped(rest),
    }
}

// How many units a part has, or the greatest `usize` if it has more.
fn counted(part: &Part) -> usize
    ensures { result ≤ length (units_in part.now) }
{
    let mut count: usize = 0;
    let mut at = part;
    while let Some(unit) = at {
        count = count.saturating_add(1);
        at = &unit.link;
    }
    count
}

// Moves the first unit of one part to the head of another.
fn shift(rest: &mut Part, passed: &mut Part)
    ensures units { reverse (units_in passed.new) ++ units_in rest.new ≡ reverse (units_in passed.old) ++ units_in rest.old }
    ensures one { length (units_in passed.new) ≤ length (units_in passed.old) + 1 }
{
    if let Some(mut unit) = rest.take() {
        *rest = unit.link.take();
        unit.link = passed.take();
        *passed = Some(unit);
    }
}

/// A part without the first unit of some number.
#[derive(Drop)]
pub struct Parted {
    /// The units before it in reverse order.
    pub passed: Part,
    pub found: Option<Box<Unit>>,
    /// The units behind it.
    pub rest: Part,
}

/// Takes the first unit of that number out of a part.
#[tactic(auto, using(crate::proofs::Finds::leaving))]
pub fn part_at(part: Part, u: UnitNo) -> Parted
    ensures none { IfNone result.found ((find (is_unit u.0) (units_in part) ≡ None) × (without u.0 (units_in part) ≡ units_in part)) }
    ensures free { IfSome result.found (λ unit. IsFree unit.value) }
    ensures found { IfSome result.found (λ unit. find (is_unit u.0) (units_in part) ≡ Some unit.value.owned) }
    ensures others { without u.0 (units_in part) ≡ reverse (units_in result.passed) ++ units_in result.rest }
{
    let mut passed = None;
    let mut rest = part;
    while let Some(mut unit) = rest {
        rest = unit.link.take();
        if unit.number() == u {
            return Parted {
                passed,
                found: Some(unit),
                rest,
            };
        }
        unit.link = passed;
        passed = Some(unit);
    }
    Parted {
        passed,
        found: None,
        rest: None,
    }
}

/// The first unit of that number.
pub fn find_first(part: &Part, number: UnitNo) -> Option<&Unit>
    ensures { find (is_unit number.0) (units_in part.now) ≡ unit_found result }
{
    let mut at = part;
    while let Some(unit) = at {
        if unit.number() == number {
            return Some(unit);
        }
        at = &unit.link;
    }
    None
}

/// The last unit of that number.
#[tactic(auto, using(crate::proofs::Finds::leaving))]
pub fn find_last(part: &Part, number: UnitNo) -> Option<&Unit>
    ensures { find (is_unit number.0) (reverse (units_in part.now)) ≡ unit_found result }
{
    let mut found = None;
    let mut at = part;
    while let Some(unit) = at {
        if unit.number() == number {
            found = Some(&**unit);
        }
        at = &unit.link;
    }
    found
}
