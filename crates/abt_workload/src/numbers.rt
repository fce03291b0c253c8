//! The numbers of a line.

ghost use Rattle.std.specs.Prelude.{◌≡◌, ◌++◌, ◌∷◌, [], map, drop, IfOk};
ghost use Rattle.std.specs.Bool.{OnTrue};
ghost use Rattle.std.specs.List.{list_all};
ghost use Rattle.abt_machine.specs.Declaring.{at, listed};
ghost use Rattle.abt_machine.specs.Faults.{has_repeated, valued, values};
ghost use Rattle.abt_machine.specs.Forms.{numerals};
ghost use Rattle.abt_machine.specs.Spelling.{is_number};
ghost use Rattle.abt_machine.specs.Words.{Text};
ghost use Rattle.abt_machine.specs.declared.grammar.Number.{Number};
ghost use Rattle.abt_machine.specs.declared.grammar.Number.TheVariants as number;
ghost use Rattle.abt_workload.specs.Slots.{numeral_in, repeat_slots, slot_of};

use crate::forms::Slot;
use crate::text::number;
use abt_machine::{Number, Rule, Want};
use std::alloc::Global;
use std::collections::BTreeSet;

/// A number and what it is.
pub(crate) type Numbered = (Number, u64);

/// Adds the numbers of a line; false if a word in a number's place is not a number.
pub(crate) fn add_numbers(
    slots: &[Slot],
    words: &[&[u8]],
    numbers: &mut Vec<Numbered>,
) -> Result<bool, Want>
    ensures all { IfOk result (λ all. all ≡ list_all (λ p. is_number p.1) (numerals (map slot_of slots.now) (map (λ w. w.now) words.now))) }
    ensures numbers { IfOk result (λ all. OnTrue all (numbers.new.items ≡ numbers.old.items ++ valued (numerals (map slot_of slots.now) (map (λ w. w.now) words.now)))) }
{
    match slots.split_first() {
        None => Ok(true),
        Some((Slot::PoolList, _)) => add_pools(words, numbers),
        Some((slot, slots)) => match words.split_first() {
            None => Ok(true),
            Some((word, words)) => {
                if !add_number(*slot, word, numbers)? {
                    return Ok(false);
                }
                add_numbers(slots, words, numbers)
            }
        },
    }
}

/// The same for a `repeat` line whose operation has these places.
pub(crate) fn add_repeated(
    slots: &[Slot],
    words: &[&[u8]],
    numbers: &mut Vec<Numbered>,
) -> Result<bool, Want>
    ensures all { IfOk result (λ all. all ≡ list_all (λ p. is_number p.1) (numerals (repeat_slots (map slot_of slots.now)) (map (λ w. w.now) words.now))) }
    ensures numbers { IfOk result (λ all. OnTrue all (numbers.new.items ≡ numbers.old.items ++ valued (numerals (repeat_slots (map slot_of slots.now)) (map (λ w. w.now) words.now)))) }
{
    match words.split_first() {
        None => Ok(true),
        Some((_, words)) => match words.split_first() {
            None => Ok(true),
            Some((word, words)) => {
                if !add(Number::Times, word, numbers)? {
                    return Ok(false);
                }
                add_numbers(slots, words, numbers)
            }
        },
    }
}

// Adds the number of a word in a place, if it is a number's place.
fn add_number(slot: Slot, word: &[u8], numbers: &mut Vec<Numbered>) -> Result<bool, Want>
    ensures all { IfOk result (λ all. all ≡ list_all (λ p. is_number p.1) (numeral_in (slot_of slot) word.now)) }
    ensures numbers { IfOk result (λ all. OnTrue all (numbers.new.items ≡ numbers.old.items ++ valued (numeral_in (slot_of slot) word.now))) }
{
    match slot {
        Slot::Numeral(kind) => add(kind, word, numbers),
        _ => Ok(true),
    }
}

// Adds the number that a word is, if it is one.
fn add(kind: Number, word: &[u8], numbers: &mut Vec<Numbered>) -> Result<bool, Want>
    ensures all { IfOk result (λ all. all ≡ is_number word.now) }
    ensures numbers { IfOk result (λ all. OnTrue all (numbers.new.items ≡ numbers.old.items ++ valued ((kind, word.now) ∷ []))) }
{
    match number(word) {
        None => Ok(false),
        Some(n) => {
            numbers.push((kind, n))?;
            Ok(true)
        }
    }
}

// Adds the numbers of pools.
fn add_pools(words: &[&[u8]], numbers: &mut Vec<Numbered>) -> Result<bool, Want>
    ensures all { IfOk result (λ all. all ≡ list_all (λ (p : Number × Text). is_number p.1) (map (λ word. (number.Pool, word)) (map (λ w. w.now) words.now))) }
    ensures numbers { IfOk result (λ all. OnTrue all (numbers.new.items ≡ numbers.old.items ++ valued (map (λ word. (number.Pool, word)) (map (λ w. w.now) words.now)))) }
{
    for word in words {
        if !add(Number::Pool, word, numbers)? {
            return Ok(false);
        }
    }
    Ok(true)
}

/// The number at a place, counted from 0, and 0 if there is none.
pub(crate) fn value(numbers: &[Numbered], k: usize) -> u64
    ensures { result ≡ at (values numbers.now) k }
{
    match numbers.get(k) {
        Some((_, n)) => *n,
        None => 0,
    }
}

/// The pools that a `sched` line of this rule lists.
pub(crate) fn listed(rule: Rule, numbers: &[Numbered]) -> &[Numbered]
    ensures { values result.now ≡ listed rule (values numbers.now) }
{
    match rule {
        Rule::Basic | Rule::Prio => after(numbers, 1),
        Rule::Randws(_) | Rule::User(_) => after(numbers, 2),
    }
}

/// What follows the first k.
pub(crate) fn after(numbers: &[Numbered], k: usize) -> &[Numbered]
    ensures { values result.now ≡ drop k (values numbers.now) }
{
    if k < numbers.len() {
        &numbers[k..]
    } else {
        &[]
    }
}

/// Whether a number appears twice.
pub(crate) fn has_repeated(alloc: Global, numbers: &[Numbered]) -> Result<bool, Want>
    ensures { IfOk result (λ repeated. repeated ≡ has_repeated (values numbers.now)) }
{
    let mut seen = BTreeSet::new(alloc);
    let mut left = numbers.len();
    while left > 0 {
        left -= 1;
        let (_, n) = numbers[left];
        if !seen.insert(n)? {
            return Ok(true);
        }
    }
    Ok(false)
}
