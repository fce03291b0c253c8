//! Errors of calls as errors of `main`.

use abt_machine::Want;
use std::io;

pub fn no_memory() -> io::Error {
    io::Error::from(io::ErrorKind::OutOfMemory)
}

pub fn out_of_memory(_want: Want) -> io::Error {
    no_memory()
}
