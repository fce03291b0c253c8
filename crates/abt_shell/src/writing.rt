//! Messages and the output, written to sinks.

ghost use Rattle.std.specs.Prelude.{◌≡◌, ◌≤◌, ◌⊎◌, ◌++◌, [], IfOk, codes};
ghost use Rattle.abt_shell.specs.More.{IsStopTold, more_text};
ghost use Rattle.abt_shell.specs.Status.{line_text, number_of_stop};
ghost use Rattle.abt_shell.specs.Told.{IsTold, WroteAll, WrotePart};
ghost use Rattle.abt_shell.specs.declared.status.Stop.{Stop};
ghost use Rattle.abt_shell.specs.declared.status.Stop.TheVariants.{BadWords, OutOfMemory};

use crate::more::{More, line_of};
use crate::status::{Said, Stop};
use abt_lines::push_number;
use abt_machine::{Ended, Journal, Want};
use abt_source::{Failed, Sink, write_whole};
use std::alloc::Global;

// Writes a text. If a write fails, the sink has a prefix of it.
fn write<E: Sink>(err: &mut E, text: &[u8])
    ensures told { IsTold (E.taken err.old, E.taken err.new) (E.faults err.old, E.faults err.new) text.now }
    ensures later { E.faults err.old ≤ E.faults err.new }
{
    let _ = write_whole(err, text);
}

// Writes the name of a program, and what it says. If a write fails, the sink has a prefix of the two.
fn tell<E: Sink>(name: &[u8], err: &mut E, text: &[u8])
    ensures told { IsTold (E.taken err.old, E.taken err.new) (E.faults err.old, E.faults err.new) (name.now ++ text.now) }
    ensures later { E.faults err.old ≤ E.faults err.new }
{
    match write_whole(err, name) {
        Ok(()) => write(err, text),
        Err(Failed) => {}
    }
}

// What is said about a line, and what is wrong with it.
fn text_of_line(alloc: Global, line: u32, wrong: &[u8]) -> Result<Vec<u8>, Want>
    ensures { IfOk result (λ text. text.items ≡ line_text line wrong.now) }
{
    let mut text = Vec::from_slice(alloc, b": line ")?;
    push_number(&mut text, u64::from(line))?;
    text.extend_from_slice(b": ")?;
    text.extend_from_slice(wrong)?;
    text.extend_from_slice(b"\n")?;
    Ok(text)
}

// Writes what is said after the line of a stop. If a write fails, the sink has a prefix of it.
fn write_more<E: Sink>(err: &mut E, more: More<'_>)
    ensures told { IsTold (E.taken err.old, E.taken err.new) (E.faults err.old, E.faults err.new) (more_text more.entry) }
    ensures later { E.faults err.old ≤ E.faults err.new }
{
    match more {
        More::Nothing => write(err, b""),
        More::Usage(usage) => tell(b"usage: ", err, usage),
        More::Hint(line) => write(err, line),
        More::File { name, why } => tell(name, err, line_of(why)),
    }
}

// Writes a text, and what is said after it. If a write fails, the sink has a prefix of the two.
fn write_with<E: Sink>(err: &mut E, text: &[u8], more: More<'_>)
    ensures told { IsTold (E.taken err.old, E.taken err.new) (E.faults err.old, E.faults err.new) (text.now ++ more_text more.entry) }
    ensures later { E.faults err.old ≤ E.faults err.new }
{
    match write_whole(err, text) {
        Ok(()) => write_more(err, more),
        Err(Failed) => {}
    }
}

// Writes the name of a program, what it says, and what is said after that. If a write fails, the sink has a prefix of the three.
fn tell_with<E: Sink>(name: &[u8], err: &mut E, text: &[u8], more: More<'_>)
    ensures told { IsTold (E.taken err.old, E.taken err.new) (E.faults err.old, E.faults err.new) (name.now ++ (text.now ++ more_text more.entry)) }
    ensures later { E.faults err.old ≤ E.faults err.new }
{
    match write_whole(err, name) {
        Ok(()) => write_with(err, text, more),
        Err(Failed) => {}
    }
}

/// Writes the message of a call that stopped, and what is said after its line, if there is memory for the message, and otherwise that
/// there is none; why the call stopped. The message of words that are not a command takes no memory.
pub fn stop_by<E: Sink>(alloc: Global, name: &[u8], err: &mut E, stop: Stop, more: More<'_>) -> Stop
    ensures told { IsStopTold (E.taken err.old, E.taken err.new) (E.faults err.old, E.faults err.new) name.now stop (more_text more.entry) result }
    ensures same { (result ≡ stop) ⊎ (result ≡ OutOfMemory) }
    ensures words { stop ≡ BadWords → result ≡ BadWords }
    ensures later { E.faults err.old ≤ E.faults err.new }
{
    match stop.said() {
        Said::Fixed(text) => {
            tell_with(name, err, text, more);
            stop
        }
        Said::Line { line, wrong } => match text_of_line(alloc, line, wrong) {
            Ok(text) => {
                tell_with(name, err, &text, more);
                stop
            }
            Err(Want) => {
                tell(name, err, b": out of memory\n");
                Stop::OutOfMemory
            }
        },
    }
}

/// Writes the output of a call that is to end with this exit status. If a write fails the sink has a prefix of it, and a message is
/// written; the exit status of the call.
pub fn write_out<K: Sink, E: Sink>(
    name: &[u8],
    out: &mut K,
    err: &mut E,
    text: &[u8],
    status: u8,
) -> u8
    ensures { ((result ≡ status) × WroteAll (K.taken out.old, K.taken out.new) (E.taken err.old, E.taken err.new) text.now)
        ⊎ ((result ≡ 6) × WrotePart (K.taken out.old, K.taken out.new) (K.faults out.old, K.faults out.new)
        (E.taken err.old, E.taken err.new) (E.faults err.old, E.faults err.new) text.now (name.now ++ codes ": cannot write\n")) }
{
    match write_whole(out, text) {
        Ok(()) => status,
        Err(Failed) => {
            tell(name, err, b": cannot write\n");
            6
        }
    }
}

/// Writes the output of a call that made a run, as `write_out` does; how the call ended.
pub fn conclude_run<K: Sink, E: Sink>(
    name: &[u8],
    out: &mut K,
    err: &mut E,
    text: &[u8],
    status: u8,
    journal: Journal,
) -> Ended
    ensures status { ((result.status ≡ status) × WroteAll (K.taken out.old, K.taken out.new) (E.taken err.old, E.taken err.new) text.now)
        ⊎ ((result.status ≡ 6) × WrotePart (K.taken out.old, K.taken out.new) (K.faults out.old, K.faults out.new)
        (E.taken err.old, E.taken err.new) (E.faults err.old, E.faults err.new) text.now (name.now ++ codes ": cannot write\n")) }
    ensures journal { result.journal ≡ journal }
{
    let status = write_out(name, out, err, text, status);
    Ended { status, journal }
}

/// Writes the message of a call that stopped before it made a run, as `stop_by` does; how the call ended, which is with an empty
/// journal.
pub fn stop_without_run<E: Sink>(
    alloc: Global,
    name: &[u8],
    err: &mut E,
    stop: Stop,
    more: More<'_>,
) -> Ended
    ensures stopped { (why : Stop) × (result.status ≡ number_of_stop why) × ((why ≡ stop) ⊎ (why ≡ OutOfMemory))
        × IsStopTold (E.taken err.old, E.taken err.new) (E.faults err.old, E.faults err.new) name.now stop (more_text more.entry) why }
    ensures journal { result.journal ≡ [] }
{
    let why = stop_by(alloc, name, err, stop, more);
    Ended {
        status: why.number(),
        journal: Journal::new(Vec::new(alloc)),
    }
}
