//! Bytes written whole: to outputs of the process, to a host that takes none, and in memory.

use abt_source::{Failed, MemorySink, RealSink, write_whole};
use std::alloc::Global;
use std::fmt::Display;
use std::io;
use std::test::Fail;

// A host that takes no bytes and reports no error.
#[derive(Drop)]
struct Full;

impl Print for Full {
    fn print<D: Display + Drop>(&self, _value: D) -> io::Result<()> {
        Ok(())
    }

    fn println<D: Display + Drop>(&self, _value: D) -> io::Result<()> {
        Ok(())
    }

    fn write_all(&self, _bytes: &[u8]) -> io::Result<()> {
        Ok(())
    }

    fn write_some(&self, _bytes: &[u8]) -> io::Result<usize> {
        Ok(0)
    }
}

impl Eprint for Full {
    fn eprint<D: Display + Drop>(&self, _value: D) -> io::Result<()> {
        Err(io::Error::from(io::ErrorKind::StorageFull))
    }

    fn eprintln<D: Display + Drop>(&self, _value: D) -> io::Result<()> {
        Err(io::Error::from(io::ErrorKind::StorageFull))
    }
}

#[test]
fn the_host_takes_bytes_and_text(rt: HostRuntime) -> Result<(), Fail> {
    write_whole(&mut RealSink::out(&rt), b"bytes: \xff\n")?;
    let mut err = RealSink::err(&rt);
    write_whole(&mut err, b"text\n")?;
    assert!(rt; write_whole(&mut err, b"no text: \xff\n") == Err(Failed));
    Ok(())
}

#[test]
fn a_host_that_takes_nothing_fails(rt: HostRuntime) {
    for mut sink in [RealSink::out(&Full), RealSink::err(&Full)] {
        assert!(rt; write_whole(&mut sink, b"bytes") == Err(Failed));
    }
}

// Whether a sink with so much room, which takes a byte at each write and fails at these writes, answers so and takes these bytes.
fn takes(
    alloc: Global,
    room: usize,
    failing: &[u64],
    bytes: &[u8],
    answer: Result<(), Failed>,
    taken: &[u8],
) -> Result<bool, Fail> {
    let mut sink = MemorySink::new(alloc, room, 1, Vec::from_slice(alloc, failing)?)?;
    let written = write_whole(&mut sink, bytes);
    Ok(written == answer && sink.bytes() == taken)
}

#[test]
fn a_failing_write_and_a_full_sink_stop_the_rest(rt: HostRuntime) -> Result<(), Fail> {
    let bytes = b"too long";
    for call in 0..9usize {
        let taken = &bytes[..call.min(7)];
        let is = takes(rt.alloc(), 7, &[call as u64], bytes, Err(Failed), taken)?;
        assert!(rt; is, "write {call}");
    }
    let is = takes(rt.alloc(), 5, &[], b"bytes", Ok(()), b"bytes")?;
    assert!(rt; is);
    Ok(())
}
