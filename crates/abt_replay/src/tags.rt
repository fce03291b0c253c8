//! Choices among forms without parts, each form as one byte.

ghost use Rattle.std.specs.Prelude.{◌≡◌};
ghost use Rattle.abt_plans.specs.Marks.{mark_of};
ghost use Rattle.abt_replay.specs.Keys.{cause_tag, code_tag, combine_tag, kind_tag, mark_tag, wish_tag};

use crate::keys::Keyed;
use abt_machine::{Cause, Code, Combine, Kind, Want, Wish};
use abt_plans::Mark;

impl Keyed for Code {
    ghost use Rattle.abt_replay.specs.Keys.{code_tag, tag_key};

    ghost key = { tag_key code_tag };

    fn write(&self, out: &mut Vec<u8>) -> Result<(), Want> {
        out.push(code_tag(*self))?;
        Ok(())
    }
}

impl Keyed for Cause {
    ghost use Rattle.abt_replay.specs.Keys.{cause_tag, tag_key};

    ghost key = { tag_key cause_tag };

    fn write(&self, out: &mut Vec<u8>) -> Result<(), Want> {
        out.push(cause_tag(*self))?;
        Ok(())
    }
}

impl Keyed for Wish {
    ghost use Rattle.abt_replay.specs.Keys.{tag_key, wish_tag};

    ghost key = { tag_key wish_tag };

    fn write(&self, out: &mut Vec<u8>) -> Result<(), Want> {
        out.push(wish_tag(*self))?;
        Ok(())
    }
}

impl Keyed for Kind {
    ghost use Rattle.abt_replay.specs.Keys.{kind_tag, tag_key};

    ghost key = { tag_key kind_tag };

    fn write(&self, out: &mut Vec<u8>) -> Result<(), Want> {
        out.push(kind_tag(*self))?;
        Ok(())
    }
}

impl Keyed for Combine {
    ghost use Rattle.abt_replay.specs.Keys.{combine_tag, tag_key};

    ghost key = { tag_key combine_tag };

    fn write(&self, out: &mut Vec<u8>) -> Result<(), Want> {
        out.push(combine_tag(*self))?;
        Ok(())
    }
}

impl Keyed for Mark {
    ghost use Rattle.abt_plans.specs.Marks.{mark_of};
    ghost use Rattle.abt_replay.specs.Keys.{mark_tag, tag_key};

    ghost key = { λ mark. tag_key mark_tag (mark_of mark) };

    fn write(&self, out: &mut Vec<u8>) -> Result<(), Want> {
        out.push(mark_tag(*self))?;
        Ok(())
    }
}

fn code_tag(code: Code) -> u8
    ensures { result ≡ code_tag code }
{
    match code {
        Code::Ok => 0,
        Code::PoolAccess => 1,
        Code::Exists => 2,
        Code::UnitState => 3,
        Code::NotMigratable => 4,
        Code::Absent => 5,
        Code::MutexLocked => 6,
        Code::NotOwner => 7,
        Code::EventualSet => 8,
        Code::FutureFull => 9,
        Code::RwHeld => 10,
        Code::RwFull => 11,
        Code::NotHolder => 12,
    }
}

fn cause_tag(cause: Cause) -> u8
    ensures { result ≡ cause_tag cause }
{
    match cause {
        Cause::Done => 0,
        Cause::Asked => 1,
        Cause::Access => 2,
        Cause::Own => 3,
    }
}

fn wish_tag(wish: Wish) -> u8
    ensures { result ≡ wish_tag wish }
{
    match wish {
        Wish::Read => 0,
        Wish::Write => 1,
    }
}

fn kind_tag(kind: Kind) -> u8
    ensures { result ≡ kind_tag kind }
{
    match kind {
        Kind::Fifo => 0,
        Kind::Deque => 1,
    }
}

fn combine_tag(combine: Combine) -> u8
    ensures { result ≡ combine_tag combine }
{
    match combine {
        Combine::Sum => 0,
        Combine::Max => 1,
        Combine::Count => 2,
    }
}

fn mark_tag(mark: Mark) -> u8
    ensures { result ≡ mark_tag (mark_of mark) }
{
    match mark {
        Mark::Plain => 0,
        Mark::Asked => 1,
        Mark::Left => 2,
        Mark::Exited => 3,
    }
}
