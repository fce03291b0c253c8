//! Values as bytes, by which each is told from all others.

ghost use Rattle.std.specs.Prelude.{◌≡◌, ◌++◌, IfOk};
ghost use Rattle.std.specs.List.{flat_map};
ghost use Rattle.abt_replay.specs.Keys.{IsPrefixCode, lane_key, list_key, number_key, objects_key};

use abt_machine::{Piece, PoolNo, UnitNo, Want};
use std::collections::VecDeque;

/// A value that can be written as bytes.
pub trait Keyed {
    ghost use Rattle.std.specs.Prelude.{ℕ, List};

    // The bytes as which a value is written.
    ghost key: { Self → List ℕ };

    /// Appends the bytes of the value. Out of memory is the only error.
    fn write(&self, out: &mut Vec<u8>) -> Result<(), Want>
        ensures { IfOk result (λ _. out.new.items ≡ out.old.items ++ key self.now) };
}

/// What is written of what a stream holds tells it, and where it ends.
pub fn lanes_are_told()
    ensures { IsPrefixCode lane_key }
{}

/// What is written of all objects tells them, and where it ends.
pub fn objects_are_told()
    ensures { IsPrefixCode objects_key }
{}

/// Appends the length of the list, and the bytes of its elements in order. Out of memory is the only error.
#[tactic(auto, unfolding(crate::specs::Keys::list_key))]
pub fn write_list<T: Keyed>(items: &[T], out: &mut Vec<u8>) -> Result<(), Want>
    ensures { IfOk result (λ _. out.new.items ≡ out.old.items ++ list_key T.key items.now) }
{
    write_number(items.len() as u64, out)?;
    write_each(items, out)
}

/// Appends the length of the queue, and the bytes of its elements from the first on. Out of memory is the only error.
#[tactic(auto, unfolding(crate::specs::Keys::list_key))]
pub(crate) fn write_queue<T: Keyed>(items: &VecDeque<T>, out: &mut Vec<u8>) -> Result<(), Want>
    ensures { IfOk result (λ _. out.new.items ≡ out.old.items ++ list_key T.key items.now.items) }
{
    write_number(items.len() as u64, out)?;
    let (first, others) = items.as_slices();
    write_each(first, out)?;
    write_each(others, out)
}

// Appends the bytes of the elements in order.
fn write_each<T: Keyed>(items: &[T], out: &mut Vec<u8>) -> Result<(), Want>
    ensures { IfOk result (λ _. out.new.items ≡ out.old.items ++ flat_map T.key items.now) }
{
    for item in items {
        item.write(out)?;
    }
    Ok(())
}

// Appends the bytes of a number.
#[tactic(auto, unfolding(crate::specs::Keys::number_key))]
fn write_number(n: u64, out: &mut Vec<u8>) -> Result<(), Want>
    ensures { IfOk result (λ _. out.new.items ≡ out.old.items ++ number_key n) }
{
    if n < 254 {
        out.push(n as u8)?;
        return Ok(());
    }
    out.push(254)?;
    out.extend_from_slice(&n.to_le_bytes())?;
    Ok(())
}

impl Keyed for u64 {
    ghost use Rattle.abt_replay.specs.Keys.{number_key};

    ghost key = { number_key };

    fn write(&self, out: &mut Vec<u8>) -> Result<(), Want> {
        write_number(*self, out)
    }
}

impl Keyed for u32 {
    ghost use Rattle.abt_replay.specs.Keys.{number_key};

    ghost key = { number_key };

    fn write(&self, out: &mut Vec<u8>) -> Result<(), Want> {
        write_number(u64::from(*self), out)
    }
}

impl Keyed for PoolNo {
    ghost use Rattle.abt_replay.specs.Keys.{number_key};

    ghost key = { λ p. number_key p.0 };

    fn write(&self, out: &mut Vec<u8>) -> Result<(), Want> {
        self.0.write(out)
    }
}

impl Keyed for UnitNo {
    ghost use Rattle.abt_replay.specs.Keys.{number_key};

    ghost key = { λ u. number_key u.0 };

    fn write(&self, out: &mut Vec<u8>) -> Result<(), Want> {
        self.0.write(out)
    }
}

impl Keyed for bool {
    ghost use Rattle.abt_replay.specs.Keys.{bool_tag, tag_key};

    ghost key = { tag_key bool_tag };

    fn write(&self, out: &mut Vec<u8>) -> Result<(), Want> {
        out.push(u8::from(*self))?;
        Ok(())
    }
}

impl<T: Keyed> Keyed for Option<T> {
    ghost use Rattle.abt_replay.specs.Keys.{option_key};

    ghost key = { option_key T.key };

    fn write(&self, out: &mut Vec<u8>) -> Result<(), Want> {
        match self {
            None => {
                out.push(0)?;
                Ok(())
            }
            Some(value) => {
                out.push(1)?;
                value.write(out)
            }
        }
    }
}

impl Keyed for Piece {
    ghost use Rattle.abt_replay.specs.Keys.{piece_key};

    ghost key = { piece_key };

    fn write(&self, out: &mut Vec<u8>) -> Result<(), Want> {
        match self {
            Piece::Said(word) => {
                out.push(0)?;
                word.write(out)
            }
            Piece::Number(number) => {
                out.push(1)?;
                number.write(out)
            }
            Piece::Refused(code) => {
                out.push(2)?;
                code.write(out)
            }
        }
    }
}
