//! How calls end: why a command was not carried out, exit statuses, and what is said about them.

ghost use Rattle.std.specs.Prelude.{◌≡◌};
ghost use Rattle.abt_shell.specs.Status.{IsFixed, fault_word, hint_of, number_of_outcome, number_of_stop, said_text, stop_text, wrong_word};
ghost use Rattle.abt_shell.specs.declared.status.Stop.TheVariants.{BadWords};

use abt_machine::{Fault, Outcome, Want};
use std::alloc::AllocError;

/// What is wrong with a line of a file, and what is said further of it: a line with its end, or nothing.
#[derive(Clone, Copy, Debug, PartialEq, Eq)]
pub enum Wrong {
    /// It breaks a rule of workload texts.
    Workload(Fault, &'static [u8]),
    /// It is not the line of an event.
    Journal(&'static [u8]),
    /// It is not the line of a life.
    Lives(&'static [u8]),
}

impl Wrong {
    // What is said further: a line with its end, or nothing.
    pub(crate) fn hint(self) -> &'static [u8]
        ensures { result.now ≡ hint_of self }
    {
        match self {
            Wrong::Workload(_, hint) | Wrong::Journal(hint) | Wrong::Lives(hint) => hint,
        }
    }
}

/// Why a command was not carried out.
#[derive(Clone, Copy, Debug, PartialEq, Eq)]
pub enum Stop {
    /// The words are not a command.
    BadWords,
    /// A line of a file, counted from 1, and what is wrong with it; line 0 means the file's length.
    BadLine(u32, Wrong),
    /// A file cannot be read.
    CannotRead,
    /// Memory is refused.
    OutOfMemory,
}

// What is said about a stop, after the name of the program.
#[derive(Clone, Copy)]
pub(crate) enum Said {
    /// These bytes.
    Fixed(&'static [u8]),
    /// The number of a line, and what is wrong with that line, in a word.
    Line { line: u32, wrong: &'static [u8] },
}

impl From<Want> for Stop {
    ghost use Rattle.abt_shell.specs.declared.status.Stop.TheVariants as stop;

    ghost from_gives = { λ _ why. why ≡ stop.OutOfMemory };

    fn from(_: Want) -> Self {
        Stop::OutOfMemory
    }
}

impl From<AllocError> for Stop {
    ghost use Rattle.abt_shell.specs.declared.status.Stop.TheVariants as stop;

    ghost from_gives = { λ _ why. why ≡ stop.OutOfMemory };

    fn from(_: AllocError) -> Self {
        Stop::OutOfMemory
    }
}

impl Stop {
    /// The exit status.
    pub fn number(self) -> u8
        ensures { result ≡ number_of_stop self }
    {
        match self {
            Stop::BadWords => 2,
            Stop::BadLine(_, _) => 3,
            Stop::CannotRead => 5,
            Stop::OutOfMemory => 7,
        }
    }

    // What is said about it, after the name of the program.
    pub(crate) fn said(self) -> Said
        ensures text { said_text result ≡ stop_text self }
        ensures fixed { self ≡ BadWords → IsFixed result }
    {
        match self {
            Stop::BadWords => Said::Fixed(b": bad command line\n"),
            Stop::BadLine(line, wrong) => Said::Line {
                line,
                wrong: word_of(wrong),
            },
            Stop::CannotRead => Said::Fixed(b": cannot read\n"),
            Stop::OutOfMemory => Said::Fixed(b": out of memory\n"),
        }
    }
}

/// The exit status of a run that ended this way, if all of its output was written.
pub fn number_of_outcome(outcome: Outcome) -> u8
    ensures { result ≡ number_of_outcome outcome }
{
    match outcome {
        Outcome::Finished => 0,
        Outcome::Stuck => 1,
        Outcome::Budget(_) => 4,
    }
}

fn word_of(wrong: Wrong) -> &'static [u8]
    ensures { result.now ≡ wrong_word wrong }
{
    match wrong {
        Wrong::Workload(fault, _) => word_of_fault(fault),
        Wrong::Journal(_) => b"journal",
        Wrong::Lives(_) => b"life",
    }
}

fn word_of_fault(fault: Fault) -> &'static [u8]
    ensures { result.now ≡ fault_word fault }
{
    match fault {
        Fault::Utf8 => b"utf8",
        Fault::Version => b"version",
        Fault::Unknown => b"unknown",
        Fault::Shape => b"shape",
        Fault::Number => b"number",
        Fault::Twice => b"twice",
        Fault::Undeclared => b"undeclared",
        Fault::Limit => b"limit",
        Fault::TaskBlocks => b"task-blocks",
        Fault::Access => b"access",
        Fault::NoEnd => b"no-end",
        Fault::Missing => b"missing",
    }
}
