//! A sink in memory, which fails at chosen writes.

ghost use Rattle.std.specs.Prelude.{◌≡◌, ◌<◌, ◌↔◌, length, take, Some, IsErr, IfOk, OnErr};
ghost use Rattle.abt_source.specs.MemorySink.{FailsToWrite, count_taken, not_written, after_taking, after_failing};

use crate::{Failed, Sink};
use abt_machine::Want;
use std::alloc::Global;
use std::marker::Model;

/// A sink in memory that keeps a fixed number of bytes at most.
#[derive(Drop)]
pub struct MemorySink {
    bytes: Vec<u8>,
    room: usize,
    most: usize,
    failing: Vec<u64>,
    calls: u64,
    faults: u64,
}

impl Model for MemorySink {
    ghost use Rattle.std.specs.Prelude.{◌<◌, ◌≤◌, vec_capacity};
    ghost use Rattle.abt_source.specs.MemorySink.{SinkInMemory};

    ghost Value = { SinkInMemory };

    ghost view = { λ s. record {
      bytes = s.bytes.items;
      room = s.room;
      most = s.most;
      failing = s.failing.items;
      calls = s.calls;
      faults = s.faults;
    } };

    ghost invariant = { λ s. (0 < s.most) × (s.room ≤ vec_capacity s.bytes) };
}

impl MemorySink {
    /// It keeps `room` bytes, and a write takes at most `most`. The writes whose numbers, counted from 0, are in `failing` fail,
    /// and so does one that finds the room full. Err: out of memory; no later call takes memory.
    pub fn new(
        alloc: Global,
        room: usize,
        most: usize,
        failing: Vec<u64>,
    ) -> Result<MemorySink, Want>
        requires { 0 < most }
        ensures { IfOk result (λ s. s ≡ not_written room most failing.items) }
    {
        let bytes = Vec::with_capacity(alloc, room)?;
        Ok(MemorySink {
            bytes,
            room,
            most,
            failing,
            calls: 0,
            faults: 0,
        })
    }

    /// The bytes that were taken.
    pub fn bytes(&self) -> &[u8]
        ensures { result.now ≡ self.now.bytes }
    {
        &self.bytes
    }
}

impl Sink for MemorySink {
    ghost taken = { λ s. Some s.bytes };

    ghost faults = { λ s. s.faults };

    fn write(&mut self, piece: &[u8]) -> Result<usize, Failed>
        requires { 0 < length piece.now }
        ensures fails { IsErr result ↔ FailsToWrite self.old }
        ensures count { IfOk result (λ n. n ≡ count_taken self.old piece.now) }
        ensures least { IfOk result (λ n. 0 < n) }
        ensures ok { IfOk result (λ n. self.new ≡ after_taking self.old (take n piece.now)) }
        ensures err { OnErr result (self.new ≡ after_failing self.old) }
    {
        let call = self.calls;
        self.calls = call.saturating_add(1);
        if self.failing.contains(&call) || self.room <= self.bytes.len() {
            self.faults = self.faults.saturating_add(1);
            return Err(Failed);
        }
        let n = piece.len().min(self.most).min(self.room - self.bytes.len());
        match self.bytes.extend_from_slice(&piece[..n]) {
            Ok(()) => Ok(n),
            Err(_) => unreachable!(),
        }
    }
}
