//! What a message says after the line of a stop.

ghost use Rattle.std.specs.Prelude.{◌≡◌, option_map};
ghost use Rattle.abt_shell.specs.More.{more_after, more_text, reason_line};
ghost use Rattle.abt_source.specs.Fault.{blame_of};

use crate::status::Stop;
use abt_source::{Blamed, Reason};

/// What is said after the line of a stop, on lines of its own.
#[derive(Clone, Copy)]
pub enum More<'a> {
    Nothing,
    /// How the program is called: one or more lines, each with its end.
    Usage(&'static [u8]),
    /// What is said further of a line: a line with its end, or nothing.
    Hint(&'static [u8]),
    /// The file that cannot be read, and why.
    File { name: &'a [u8], why: Reason },
}

/// What is said after the line of this stop: how the program is called, if the words are not a command, what is said further of
/// a line, and the file that is to blame, if it is known and cannot be read.
pub fn more_of<'a>(stop: Stop, usage: &'static [u8], blamed: Option<Blamed<'a>>) -> More<'a>
    ensures { more_text result ≡ more_after usage.now (option_map blame_of blamed.entry) stop }
{
    match stop {
        Stop::BadWords => More::Usage(usage),
        Stop::CannotRead => match blamed {
            Some(blamed) => More::File {
                name: blamed.name.as_bytes(),
                why: blamed.reason,
            },
            None => More::Nothing,
        },
        Stop::BadLine(_, wrong) => More::Hint(wrong.hint()),
        Stop::OutOfMemory => More::Nothing,
    }
}

// What is said of the reason, after the name of a file.
pub(crate) fn line_of(why: Reason) -> &'static [u8]
    ensures { result.now ≡ reason_line why }
{
    match why {
        Reason::Absent => b": absent\n",
        Reason::NotAllowed => b": not allowed\n",
        Reason::Folder => b": a folder\n",
        Reason::Other => b": cannot be read\n",
    }
}
