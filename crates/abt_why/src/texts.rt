//! The lines of what units wait for.

ghost use Rattle.std.specs.Prelude.{◌≡◌, ◌++◌, OnOk, decimal, map};
ghost use Rattle.abt_machine.specs.declared.numbers.UnitNo.{UnitNo};
ghost use Rattle.abt_machine.specs.Words.{spaced};
ghost use Rattle.abt_why.specs.Texts.{at_text, awaited_text, holders_text, numbered_word, owner_text, pool_text, readers_text, share_text, state_text, unit_line, wait_line, wait_lines, wait_text, wish_text};

use crate::waits::{Awaited, Holders, Wait};
use abt_lines::{end_line, push_decimal, push_number, push_word};
use abt_machine::{ObjectNo, Shown, UnitNo, Want, Wish};

/// Appends the lines of all units, which wait for this.
pub(crate) fn push_waits(out: &mut Vec<u8>, waits: &[Wait]) -> Result<(), Want>
    ensures { OnOk result (out.new.items ≡ out.old.items ++ wait_lines 0 waits.now) }
{
    for (u, wait) in waits.iter().enumerate() {
        push_line(out, u as u64, wait)?;
    }
    Ok(())
}

// Appends the line of unit u, if it waits for something.
fn push_line(out: &mut Vec<u8>, u: u64, wait: &Wait) -> Result<(), Want>
    ensures { OnOk result (out.new.items ≡ out.old.items ++ wait_line u wait.now) }
{
    match wait {
        Wait::Nothing => Ok(()),
        _ => push_unit(out, u, wait),
    }
}

// Appends the line of unit u.
fn push_unit(out: &mut Vec<u8>, u: u64, wait: &Wait) -> Result<(), Want>
    ensures { OnOk result (out.new.items ≡ out.old.items ++ unit_line u wait.now) }
{
    out.extend_from_slice(b"unit")?;
    push_decimal(out, u)?;
    push_wait(out, wait)?;
    end_line(out)
}

// Appends what a unit waits for.
fn push_wait(out: &mut Vec<u8>, wait: &Wait) -> Result<(), Want>
    ensures { OnOk result (out.new.items ≡ out.old.items ++ wait_text wait.now) }
{
    match wait {
        Wait::Nothing => Ok(()),
        Wait::Pool(p, listed) => push_pool(out, p.0, *listed),
        Wait::Stream(s) => {
            push(out, b" on")?;
            push_numbered(out, b"stream", s.0)
        }
        Wait::Resume => push(out, b" suspended"),
        Wait::Join(awaited) => {
            push(out, b" joins")?;
            push_awaited(out, awaited)
        }
        Wait::Mutex(x, owner) => {
            push_at(out, b"mutex", *x)?;
            push_owner(out, owner)
        }
        Wait::Condition(x, m) => {
            push_at(out, b"condition", *x)?;
            push(out, b" of")?;
            push_numbered(out, b"mutex", m.0)
        }
        Wait::Eventual(x) => {
            push_at(out, b"eventual", *x)?;
            push(out, b", which is not ready")
        }
        Wait::Future(x, filled, size) => {
            push_at(out, b"future", *x)?;
            push_share(out, *filled, *size)?;
            push(out, b" values")
        }
        Wait::Barrier(x, waiting, size) => {
            push_at(out, b"barrier", *x)?;
            push_share(out, *waiting, *size)?;
            push(out, b" parties")
        }
        Wait::RwLock(x, wish, holders) => {
            push_at(out, b"rwlock", *x)?;
            push_wish(out, *wish)?;
            push_holders(out, holders)
        }
    }
}

// Appends a pool in which a unit is.
fn push_pool(out: &mut Vec<u8>, p: u32, listed: bool) -> Result<(), Want>
    ensures { OnOk result (out.new.items ≡ out.old.items ++ pool_text p listed) }
{
    push(out, b" in")?;
    push_numbered(out, b"pool", p)?;
    if listed {
        return Ok(());
    }
    push(out, b", which no main scheduler lists")
}

// Appends an object at which a unit is.
fn push_at(out: &mut Vec<u8>, kind: &[u8], x: ObjectNo) -> Result<(), Want>
    ensures { OnOk result (out.new.items ≡ out.old.items ++ at_text kind.now x) }
{
    push(out, b" at")?;
    push_numbered(out, kind, x.0)
}

// Appends how many of how many there are.
fn push_share(out: &mut Vec<u8>, part: u64, whole: u64) -> Result<(), Want>
    ensures { OnOk result (out.new.items ≡ out.old.items ++ share_text part whole) }
{
    push(out, b", ")?;
    push_number(out, part)?;
    push(out, b" of ")?;
    push_number(out, whole)
}

// Appends the owner of a mutex, if it has one.
fn push_owner(out: &mut Vec<u8>, owner: &Option<Awaited>) -> Result<(), Want>
    ensures { OnOk result (out.new.items ≡ out.old.items ++ owner_text owner.now) }
{
    match owner {
        Some(awaited) => {
            push(out, b", owned by")?;
            push_awaited(out, awaited)
        }
        None => Ok(()),
    }
}

// Appends what a unit wants that waits at a reader-writer lock.
fn push_wish(out: &mut Vec<u8>, wish: Wish) -> Result<(), Want>
    ensures { OnOk result (out.new.items ≡ out.old.items ++ wish_text wish) }
{
    match wish {
        Wish::Read => push(out, b" to read"),
        Wish::Write => push(out, b" to write"),
    }
}

// Appends who holds a reader-writer lock.
fn push_holders(out: &mut Vec<u8>, holders: &Holders) -> Result<(), Want>
    ensures { OnOk result (out.new.items ≡ out.old.items ++ holders_text holders.now) }
{
    match holders {
        Holders::Writer(awaited) => {
            push(out, b", written by")?;
            push_awaited(out, awaited)
        }
        Holders::Reader(awaited) => {
            push(out, b", read by")?;
            push_awaited(out, awaited)
        }
        Holders::Readers(units) => push_readers(out, units.items()),
    }
}

// Appends the units that read.
fn push_readers(out: &mut Vec<u8>, units: &[UnitNo]) -> Result<(), Want>
    ensures { OnOk result (out.new.items ≡ out.old.items ++ readers_text units.now) }
{
    push(out, b", read by units")?;
    push_numbers(out, units)
}

// Appends the numbers of units, with a space before each.
fn push_numbers(out: &mut Vec<u8>, units: &[UnitNo]) -> Result<(), Want>
    ensures { OnOk result (out.new.items ≡ out.old.items ++ spaced (map (λ (u : UnitNo). decimal u.0) units.now)) }
{
    for u in units {
        push_decimal(out, u64::from(u.0))?;
    }
    Ok(())
}

// Appends a unit for which another waits.
fn push_awaited(out: &mut Vec<u8>, awaited: &Awaited) -> Result<(), Want>
    ensures { OnOk result (out.new.items ≡ out.old.items ++ awaited_text awaited.now) }
{
    push_numbered(out, b"unit", awaited.unit.0)?;
    push_state(out, awaited.shown)
}

// Appends where a unit is for which another waits.
fn push_state(out: &mut Vec<u8>, shown: Shown) -> Result<(), Want>
    ensures { OnOk result (out.new.items ≡ out.old.items ++ state_text shown) }
{
    match shown {
        Shown::Unborn => push(out, b", which is unborn"),
        Shown::Pool(p) => {
            push(out, b", which is in")?;
            push_numbered(out, b"pool", p.0)
        }
        Shown::Stream(s) => {
            push(out, b", which is on")?;
            push_numbered(out, b"stream", s.0)
        }
        Shown::Suspended => push(out, b", which is suspended"),
        Shown::Join(_) | Shown::Object(_) => push(out, b", which is blocked"),
        Shown::Ended(_) => push(out, b", which has ended"),
    }
}

// Appends a word and a number, with a space before each.
fn push_numbered(out: &mut Vec<u8>, word: &[u8], n: u32) -> Result<(), Want>
    ensures { OnOk result (out.new.items ≡ out.old.items ++ numbered_word word.now n) }
{
    push_word(out, word)?;
    push_decimal(out, u64::from(n))
}

// Appends bytes.
fn push(out: &mut Vec<u8>, bytes: &[u8]) -> Result<(), Want>
    ensures { OnOk result (out.new.items ≡ out.old.items ++ bytes.now) }
{
    out.extend_from_slice(bytes)?;
    Ok(())
}
