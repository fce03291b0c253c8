//! Files in memory, which fail at chosen calls.

ghost use Rattle.std.specs.Prelude.{◌≡◌, ◌<◌, ◌+◌, ◌^◌, ◌++◌, ◌↔◌, [], length, take, drop, position, min, Some};
ghost use Rattle.std.specs.Prelude.{IsErr, IsNone, IsTrue, IfOk, IfSome, OnOk, OnErr, IsErrOf, Contains, option_map};
ghost use Rattle.abt_source.specs.Fault.{blame, blame_of};
ghost use Rattle.abt_source.specs.Seen.{Holds};
ghost use Rattle.abt_source.specs.Source.{next_count};
ghost use Rattle.abt_source.specs.MemoryFiles.{FailsToBegin, IsWhy, file_of, is_named, left_of};
ghost use Rattle.abt_source.specs.MemoryFiles.{not_begun, given_name, after_success, after_failure};
ghost use Rattle.abt_source.specs.declared.fault.Reason.TheVariants as reason;

use crate::fault::{blame_for, kept_name};
use crate::{Blamed, Failed, Files, NotFetched, Reason};
use std::marker::Model;

/// A file's name and its bytes.
#[derive(Drop)]
pub struct NamedBytes {
    pub name: String,
    pub bytes: Vec<u8>,
}

impl Model for NamedBytes {
    ghost use Rattle.std.specs.Prelude.{string_bytes};
    ghost use Rattle.abt_source.specs.MemoryFiles.{NamedFile};

    ghost Value = { NamedFile };

    ghost view = { λ file. record { name = string_bytes file.name; bytes = file.bytes.items } };
}

/// Files in memory. Of two with one name the first counts.
#[derive(Drop)]
pub struct MemoryFiles {
    files: Vec<NamedBytes>,
    failing: Vec<u64>,
    calls: u64,
    faults: u64,
    row: Option<usize>,
    at: usize,
    name: Option<String>,
    reason: Option<Reason>,
}

impl Model for MemoryFiles {
    ghost use Rattle.std.specs.Prelude.{option_map, string_bytes};
    ghost use Rattle.abt_source.specs.MemoryFiles.{FilesInMemory, left_of};

    ghost Value = { FilesInMemory };

    ghost view = { λ m. record {
      files = m.files.items;
      failing = m.failing.items;
      calls = m.calls;
      faults = m.faults;
      left = left_of m.files.items m.row m.at;
      name = option_map string_bytes m.name;
      reason = m.reason;
    } };
}

impl MemoryFiles {
    /// Files of which none is begun, and so nothing is left. The calls of `begin` and `read` are numbered together from 0;
    /// those whose numbers are in `failing` fail.
    pub fn new(files: Vec<NamedBytes>, failing: Vec<u64>) -> Self
        ensures { result ≡ not_begun files.items failing.items }
    {
        MemoryFiles {
            files,
            failing,
            calls: 0,
            faults: 0,
            row: None,
            at: 0,
            name: None,
            reason: None,
        }
    }

    // Counts this call, and says whether it is one of those that fail.
    fn fails(&mut self) -> bool
        ensures fails { IsTrue result ↔ Contains self.old.failing self.old.calls }
        ensures counted { self.new ≡ record self.old { calls = next_count self.old.calls } }
    {
        let call = self.calls;
        self.calls = call.saturating_add(1);
        is_listed(&self.failing, call)
    }

    // Begins the file of that name, unless this call fails.
    fn open(&mut self, name: &str) -> Result<(), NotFetched>
        ensures fails { IsErr result ↔ FailsToBegin self.old name.now }
        ensures absent { IsNone (file_of self.old.files name.now) → IsErrOf result NotFetched.Failed }
        ensures memory { IsErrOf result NotFetched.Memory → ⊥ }
        ensures opens { OnOk result (file_of self.old.files name.now ≡ Some self.new.left) }
        ensures ok { OnOk result (self.new ≡ after_success self.old self.new.left) }
        ensures err { OnErr result (self.new ≡ after_failure self.old self.new.reason []) }
        ensures reason { OnErr result (IsWhy self.old name.now self.new.reason) }
    {
        if self.fails() {
            self.row = None;
            self.reason = Some(Reason::Other);
            self.faults = self.faults.saturating_add(1);
            return Err(NotFetched::Failed);
        }
        self.row = find(&self.files, name);
        self.at = 0;
        if self.row.is_none() {
            self.reason = Some(Reason::Absent);
            self.faults = self.faults.saturating_add(1);
            return Err(NotFetched::Failed);
        }
        Ok(())
    }
}

// Whether the call of this number fails.
fn is_listed(failing: &[u64], call: u64) -> bool
    ensures { IsTrue result ↔ Contains failing.now call }
{
    failing.contains(&call)
}

// The first file with the name.
fn find(files: &[NamedBytes], name: &str) -> Option<usize>
    ensures { result ≡ position (is_named name.now) files.now }
{
    files.iter().position(|file| file.name.as_str() == name)
}

// The bytes that are left of a file.
fn bytes_left(files: &[NamedBytes], row: Option<usize>, at: usize) -> &[u8]
    ensures left { result.now ≡ left_of files.now row at }
    ensures fits { 0 < length result.now → at + length result.now < 2 ^ 64 }
{
    let Some(row) = row else {
        return &[];
    };
    match files.get(row) {
        Some(file) if at < file.bytes.len() => &file.bytes[at..],
        _ => &[],
    }
}

// Copies as many bytes as there is room for.
fn copy(from: &[u8], into: &mut [u8]) -> usize
    ensures count { result ≡ min (length from.now) (length into.old) }
    ensures copied { into.new ≡ take result from.now ++ drop result into.old }
{
    let n = from.len().min(into.len());
    into[..n].copy_from_slice(&from[..n]);
    n
}

impl Files for MemoryFiles {
    ghost seen = { λ m. Holds (file_of m.files) };

    ghost absent = { λ m n. IsNone (file_of m.files n) };

    ghost begun = { λ m. m.name };

    ghost left = { λ m. Some m.left };

    ghost faults = { λ m. m.faults };

    fn begin(&mut self, name: &str) -> Result<(), NotFetched>
        ensures fails { IsErr result ↔ FailsToBegin self.old name.now }
        ensures absent { IsNone (file_of self.old.files name.now) → IsErrOf result NotFetched.Failed }
        ensures memory { IsErrOf result NotFetched.Memory → ⊥ }
        ensures begun { IfSome self.new.name (λ n. n ≡ name.now) }
        ensures opens { OnOk result (file_of self.old.files name.now ≡ Some self.new.left) }
        ensures ok { OnOk result (self.new ≡ after_success (given_name self.old self.new.name) self.new.left) }
        ensures err { OnErr result (self.new ≡ after_failure (given_name self.old self.new.name) self.new.reason []) }
        ensures reason { OnErr result (IsWhy self.old name.now self.new.reason) }
    {
        self.name = kept_name(*self.files.allocator(), name);
        self.reason = None;
        self.open(name)
    }

    fn read(&mut self, into: &mut [u8]) -> Result<usize, Failed>
        requires { 0 < length into.old }
        ensures fails { IsErr result ↔ Contains self.old.failing self.old.calls }
        ensures count { IfOk result (λ n. n ≡ min (length self.old.left) (length into.old)) }
        ensures into { IfOk result (λ n. into.new ≡ take n self.old.left ++ drop n into.old) }
        ensures ok { IfOk result (λ n. self.new ≡ after_success self.old (drop n self.old.left)) }
        ensures untouched { OnErr result (into.new ≡ into.old) }
        ensures err { OnErr result (self.new ≡ after_failure self.old (Some reason.Other) self.old.left) }
    {
        if self.fails() {
            self.reason = Some(Reason::Other);
            self.faults = self.faults.saturating_add(1);
            return Err(Failed);
        }
        let left = bytes_left(&self.files, self.row, self.at);
        if left.is_empty() {
            return Ok(0);
        }
        let n = copy(left, into);
        self.at += n;
        Ok(n)
    }

    fn fault(&self) -> Option<Blamed<'_>>
        ensures exact { option_map blame_of result ≡ blame self.now.name self.now.reason }
        ensures names { IfSome result (λ blamed. self.now.name ≡ Some blamed.name.now) }
    {
        blame_for(&self.name, self.reason)
    }
}
