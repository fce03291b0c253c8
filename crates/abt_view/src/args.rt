//! The arguments of the slices of a trace, in JSON.

ghost use Rattle.std.specs.Prelude.{◌≡◌, ◌++◌, OnOk, option_map};
ghost use Rattle.abt_machine.specs.Lives.{unit_of as unit_of_event};
ghost use Rattle.abt_view.specs.Args.{args_by, args_text, json_byte, json_text, object_arg, object_arg_of, object_at, operation_arg, outcome_arg, output_arg, unit_end};
ghost use Rattle.abt_view.specs.Named.{output_of as output_in};

use crate::named::{op_of, operation_of, output_of};
use crate::notes::Note;
use crate::texts::push_around;
use abt_machine::{Op, Want, What, Workload};
use abt_report::name_of_code;
use std::alloc::Global;

// The unit that an event is of, if it is of one.
fn unit_of(what: What) -> Option<u32>
    ensures { result ≡ unit_of_event what }
{
    match what {
        What::Miss(_) => None,
        What::Take(_, u)
        | What::Look(u)
        | What::Step(u, _, _)
        | What::Call(u, _, _)
        | What::Put(u, _)
        | What::End(u, _)
        | What::Enter(u)
        | What::Leave(u) => Some(u.0),
    }
}

// Appends a byte to a string.
fn push_json_byte(out: &mut Vec<u8>, b: u8) -> Result<(), Want>
    ensures { OnOk result (out.new.items ≡ out.old.items ++ json_byte b) }
{
    match b {
        b'"' => out.extend_from_slice(b"\\\"")?,
        b'\\' => out.extend_from_slice(b"\\\\")?,
        _ => out.push(b)?,
    }
    Ok(())
}

// Appends a text to a string.
fn push_json(out: &mut Vec<u8>, text: &[u8]) -> Result<(), Want>
    ensures { OnOk result (out.new.items ≡ out.old.items ++ json_text text.now) }
{
    for b in text {
        push_json_byte(out, *b)?;
    }
    Ok(())
}

// Appends the operation that an event names.
fn push_operation(out: &mut Vec<u8>, operation: &Option<Vec<u8>>) -> Result<(), Want>
    ensures { OnOk result (out.new.items ≡ out.old.items ++ operation_arg (option_map (λ text. text.items) operation.now)) }
{
    match operation {
        None => Ok(()),
        Some(text) => {
            out.extend_from_slice(b",\"operation\":\"")?;
            push_json(out, text)?;
            out.extend_from_slice(b"\"")?;
            Ok(())
        }
    }
}

// Appends the object of a kind and of a number.
fn push_object_at(out: &mut Vec<u8>, kind: &[u8], x: u32) -> Result<(), Want>
    ensures { OnOk result (out.new.items ≡ out.old.items ++ object_at kind.now x) }
{
    out.extend_from_slice(b",\"object\":\"")?;
    out.extend_from_slice(kind)?;
    push_around(out, b" ", u64::from(x), b"\"")
}

// Appends the object that an operation names, if it names one.
fn push_object(out: &mut Vec<u8>, op: Op) -> Result<(), Want>
    ensures { OnOk result (out.new.items ≡ out.old.items ++ object_arg op) }
{
    match op {
        Op::Lock(x) | Op::TryLock(x) | Op::Unlock(x) | Op::Load(x) | Op::Store(x) => {
            push_object_at(out, b"mutex", x.0)
        }
        Op::CondWait(x) | Op::Signal(x) | Op::Broadcast(x) => {
            push_object_at(out, b"condition", x.0)
        }
        Op::EvWait(x) | Op::EvSet(x) | Op::EvReset(x) | Op::EvTest(x) => {
            push_object_at(out, b"eventual", x.0)
        }
        Op::FuWait(x) | Op::FuSet(x) | Op::FuReset(x) | Op::FuTest(x) => {
            push_object_at(out, b"future", x.0)
        }
        Op::BarWait(x) => push_object_at(out, b"barrier", x.0),
        Op::ReadLock(x) | Op::WriteLock(x) | Op::RwUnlock(x) | Op::RwLoad(x) | Op::RwStore(x) => {
            push_object_at(out, b"rwlock", x.0)
        }
        Op::Set(_) | Op::Add(_) | Op::Say(_) | Op::Print | Op::KeySet(_) | Op::KeyGet(_) => Ok(()),
        Op::Yield | Op::YieldTo(_, _) | Op::Suspend | Op::Exit | Op::Resume(_) => Ok(()),
        Op::Create(_, _) | Op::Join(_) | Op::Cancel(_) | Op::Revive(_, _) => Ok(()),
        Op::Migrate(_, _) | Op::MigrateTo(_, _) | Op::Migratable(_, _) => Ok(()),
        Op::Calc(_, _) | Op::Call(_) => Ok(()),
    }
}

// Appends the object that an event's operation names, if there is a workload that has it.
fn push_object_of(out: &mut Vec<u8>, op: Option<Op>) -> Result<(), Want>
    ensures { OnOk result (out.new.items ≡ out.old.items ++ object_arg_of op) }
{
    match op {
        None => Ok(()),
        Some(op) => push_object(out, op),
    }
}

// Appends what came of an event: the code of a step, and the word that a call returned.
fn push_outcome(out: &mut Vec<u8>, what: What) -> Result<(), Want>
    ensures { OnOk result (out.new.items ≡ out.old.items ++ outcome_arg what) }
{
    match what {
        What::Step(_, _, code) => {
            out.extend_from_slice(b",\"code\":\"")?;
            out.extend_from_slice(name_of_code(code))?;
            out.extend_from_slice(b"\"")?;
            Ok(())
        }
        What::Call(_, _, value) => push_around(out, b",\"value\":\"", value.get(), b"\""),
        What::Miss(_) | What::Take(_, _) | What::Look(_) | What::Put(_, _) => Ok(()),
        What::End(_, _) | What::Enter(_) | What::Leave(_) => Ok(()),
    }
}

// Appends what an event put out.
fn push_output(out: &mut Vec<u8>, output: &Option<Vec<u8>>) -> Result<(), Want>
    ensures { OnOk result (out.new.items ≡ out.old.items ++ output_arg (option_map (λ text. text.items) output.now)) }
{
    match output {
        None => Ok(()),
        Some(text) => {
            out.extend_from_slice(b",\"output\":\"")?;
            push_json(out, text)?;
            out.extend_from_slice(b"\"")?;
            Ok(())
        }
    }
}

// Appends what an event put out, if there is a workload that has its operation and that is known.
fn push_output_of(
    alloc: Global,
    out: &mut Vec<u8>,
    names: &Option<Workload>,
    note: &Note,
) -> Result<(), Want>
    ensures { OnOk result (out.new.items ≡ out.old.items ++ output_arg (output_in names.now note.now)) }
{
    let output = output_of(alloc, names, note)?;
    push_output(out, &output)
}

// Appends the arguments of an event of this unit.
fn push_args_by(
    alloc: Global,
    out: &mut Vec<u8>,
    names: &Option<Workload>,
    note: &Note,
    unit: Option<u32>,
) -> Result<(), Want>
    ensures { OnOk result (out.new.items ≡ out.old.items ++ args_by names.now note.now unit) }
{
    let Some(u) = unit else {
        return Ok(());
    };
    let operation = operation_of(alloc, names, note.event.what)?;
    push_around(out, b",\"args\":{\"unit\":", u64::from(u), b"")?;
    push_operation(out, &operation)?;
    push_object_of(out, op_of(names, note.event.what))?;
    push_outcome(out, note.event.what)?;
    push_output_of(alloc, out, names, note)?;
    out.extend_from_slice(b"}")?;
    Ok(())
}

// Appends the arguments of an event: none if it is of no unit.
pub(crate) fn push_args(
    alloc: Global,
    out: &mut Vec<u8>,
    names: &Option<Workload>,
    note: &Note,
) -> Result<(), Want>
    ensures { OnOk result (out.new.items ≡ out.old.items ++ args_text names.now note.now) }
{
    push_args_by(alloc, out, names, note, unit_of(note.event.what))
}

// Appends the end of a slice whose name ends with the number of its unit.
pub(crate) fn push_unit_end(out: &mut Vec<u8>, u: u32) -> Result<(), Want>
    ensures { OnOk result (out.new.items ≡ out.old.items ++ unit_end u) }
{
    push_around(out, b"", u64::from(u), b"\",\"args\":{\"unit\":")?;
    push_around(out, b"", u64::from(u), b"}}")
}
