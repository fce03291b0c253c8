//! How a program is run, and the words that its process passes to it.

ghost use Rattle.std.specs.Prelude.{◌≡◌, ◌⊎◌};
ghost use Rattle.std.specs.Fn.{FnOnceReturnsAt};
ghost use Rattle.std.specs.Process.{exit_status};
ghost use Rattle.abt_shell.specs.Status.{number_of_stop};
ghost use Rattle.abt_shell.specs.declared.status.Stop.TheVariants.{BadWords, OutOfMemory};

use crate::more::More;
use crate::status::Stop;
use crate::writing::stop_by;
use abt_source::RealSink;
use std::alloc::Global;
use std::process::ExitCode;
use std::rt::Runtime;
use std::{env, io};

/// Runs a program of this name: a call that takes the words after the name and returns the exit status, which is the program's.
/// If the words can't be obtained, a message is written in its place, and the exit status is 2, or 7 if out of memory.
pub fn run<R: Runtime + AllocGlobal, C: FnOnce(&[String]) -> u8>(
    rt: &R,
    name: &[u8],
    call: C,
) -> ExitCode
    requires { C.IsAlwaysCallable call }
    ensures { ((words : _) × FnOnceReturnsAt C.FnOnce call words (exit_status result))
        ⊎ (exit_status result ≡ number_of_stop BadWords) ⊎ (exit_status result ≡ number_of_stop OutOfMemory) }
{
    let alloc = rt.alloc();
    let status = match words_of(rt, alloc) {
        Ok(words) => call(&words),
        Err(e) => {
            let stop = if e.kind() == io::ErrorKind::OutOfMemory {
                Stop::OutOfMemory
            } else {
                Stop::BadWords
            };
            let err = &mut RealSink::err(rt);
            stop_by(alloc, name, err, stop, More::Nothing).number()
        }
    };
    ExitCode::from(status)
}

// The words after the program's name.
fn words_of<R: Runtime>(rt: &R, alloc: Global) -> io::Result<Vec<String<R::A>>> {
    let mut words = Vec::new(alloc);
    for word in env::args(rt)?.skip(1) {
        words.push(word)?;
    }
    Ok(words)
}
