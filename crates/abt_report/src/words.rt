//! The words of codes and causes, and words with a number.

ghost use Rattle.std.specs.Prelude.{◌≡◌, ◌++◌, ◌∷◌, OnOk, decimal};
ghost use Rattle.abt_machine.specs.Texts.{cause_name, code_name, ended_name};

use abt_lines::{push_decimal, push_word};
use abt_machine::{Cause, Code, Want};

/// The word of a code in a journal.
pub fn name_of_code(code: Code) -> &'static [u8]
    ensures { result.now ≡ code_name code }
{
    match code {
        Code::Ok => b"ok",
        Code::PoolAccess => b"pool-access",
        Code::Exists => b"exists",
        Code::UnitState => b"unit-state",
        Code::NotMigratable => b"not-migratable",
        Code::Absent => b"absent",
        Code::MutexLocked => b"mutex-locked",
        Code::NotOwner => b"not-owner",
        Code::EventualSet => b"eventual-set",
        Code::FutureFull => b"future-full",
        Code::RwHeld => b"rw-held",
        Code::RwFull => b"rw-full",
        Code::NotHolder => b"not-holder",
    }
}

/// The word of a cause in a journal.
pub fn name_of_cause(cause: Cause) -> &'static [u8]
    ensures { result.now ≡ cause_name cause }
{
    match cause {
        Cause::Done => b"done",
        Cause::Asked => b"asked",
        Cause::Access => b"access",
        Cause::Own => b"own",
    }
}

/// The word of a cause in a report.
pub(crate) fn name_of_end(cause: Cause) -> &'static [u8]
    ensures { result.now ≡ ended_name cause }
{
    match cause {
        Cause::Done | Cause::Asked | Cause::Access => name_of_cause(cause),
        Cause::Own => b"exited",
    }
}

/// Appends a word and its number, with a space before each.
pub(crate) fn push_numbered(out: &mut Vec<u8>, word: &[u8], n: u64) -> Result<(), Want>
    ensures { OnOk result (out.new.items ≡ out.old.items ++ ((32 ∷ word.now) ++ 32 ∷ decimal n)) }
{
    push_word(out, word)?;
    push_decimal(out, n)
}
