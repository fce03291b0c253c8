//! The standard output and the standard error of the process. Each failed write is counted. Contracts see the bytes of
//! which the host answered that its standard output took them, and none of those of the standard error.

ghost use Rattle.std.specs.Prelude.{◌≡◌, ◌<◌, ◌≤◌, length, take, None, Some, [], IfOk, OnErr};
ghost use Rattle.abt_source.specs.RealSink.{after_fault, after_putting};

use crate::put::{Put, remember};
use crate::{Failed, Sink};
use std::io;
use std::marker::Model;
use std::snapshot::Snapshot;

#[derive(Clone, Copy, PartialEq, Eq)]
enum Stream {
    Out,
    Err,
}

/// Standard output, which takes bytes, or standard error, which takes text. A host write of 0 bytes is a fault. The bytes
/// that were put are for the proof alone and take no memory.
#[derive(Drop)]
pub struct RealSink<'a, R: Print + Eprint> {
    rt: &'a R,
    stream: Stream,
    faults: u64,
    last: Option<Snapshot<Put>>,
}

impl<'a, R: Print + Eprint> Model for RealSink<'a, R> {
    ghost use Rattle.abt_source.specs.RealSink.{SinkOfProcess, put_of, remembered};

    ghost Value = { SinkOfProcess };

    ghost view = { λ sink. record { put = put_of sink.stream (remembered sink.last); faults = sink.faults } };
}

impl<'a, R: Print + Eprint> RealSink<'a, R> {
    /// The standard output, which took nothing yet.
    pub fn out(rt: &'a R) -> Self
        ensures { result ≡ record { put = Some []; faults = 0 } }
    {
        RealSink {
            rt,
            stream: Stream::Out,
            faults: 0,
            last: None,
        }
    }

    /// The standard error, of which it is not observable what it takes. A piece that is not UTF-8, or that the host takes in
    /// part, is a fault.
    pub fn err(rt: &'a R) -> Self
        ensures { result ≡ record { put = None; faults = 0 } }
    {
        RealSink {
            rt,
            stream: Stream::Err,
            faults: 0,
            last: None,
        }
    }

    // How many bytes the host took.
    fn hand(&self, piece: &[u8]) -> io::Result<usize>
        ensures { IfOk result (λ n. n ≤ length piece.now) }
    {
        match self.stream {
            Stream::Out => self.rt.write_some(piece),
            Stream::Err => {
                let Ok(text) = str::from_utf8(piece) else {
                    return Ok(0);
                };
                self.rt.eprint(text)?;
                Ok(piece.len())
            }
        }
    }
}

impl<R: Print + Eprint> Sink for RealSink<'_, R> {
    ghost taken = { λ sink. sink.put };

    ghost faults = { λ sink. sink.faults };

    fn write(&mut self, piece: &[u8]) -> Result<usize, Failed>
        requires { 0 < length piece.now }
        ensures least { IfOk result (λ n. 0 < n) }
        ensures bound { IfOk result (λ n. n ≤ length piece.now) }
        ensures ok { IfOk result (λ n. self.new ≡ after_putting self.old (take n piece.now)) }
        ensures failed { OnErr result (self.new ≡ after_fault self.old) }
    {
        match self.hand(piece) {
            Ok(n) if n > 0 => {
                remember(&mut self.last, &piece[..n]);
                Ok(n)
            }
            _ => {
                self.faults = self.faults.saturating_add(1);
                Err(Failed)
            }
        }
    }
}
