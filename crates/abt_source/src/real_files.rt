//! The files and the standard input of the process. Contracts see of what they hold what the host gave when it was read; and
//! whether a file is begun, the name that was given last, if it is kept, and the count of failed calls.

ghost use Rattle.std.specs.Prelude.{◌≡◌, ◌<◌, ◌≤◌, [], ◌∷◌, length, take, None, Some, IfOk, IfSome, OnOk, OnErr, IsErrOf, false};
ghost use Rattle.abt_source.specs.RealFiles.{after_fault, after_reading, none_begun, one_begun, unread};
ghost use Rattle.abt_source.specs.Seen.{Gave, reading};
ghost use Rattle.abt_source.specs.Source.{next_count};

use crate::fault::{blame_for, kept_name};
use crate::recalling::{Recalled, recall_begin, recall_read};
use crate::{Blamed, Failed, Files, NotFetched, Reason};
use std::alloc::Global;
use std::io::{ErrorKind, Read};
use std::marker::Model;
use std::rt::Files as HostFiles;
use std::snapshot::Snapshot;
use std::{fs, io};

/// The files of the process, and its standard input by the name `-`. Contracts see what each reading gave, whether one is begun,
/// the name that was given last, if there was memory to keep it, and the count of faults. A directory is begun, and each read of
/// it fails. What readings gave is recalled for the proof alone and takes no memory.
#[derive(Drop)]
pub struct RealFiles<'a, R: HostFiles + Input> {
    rt: &'a R,
    alloc: Global,
    begun: Option<Begun<R::File>>,
    name: Option<String>,
    reason: Option<Reason>,
    faults: u64,
    last: Option<Snapshot<Recalled>>,
}

// The file that was begun last.
#[derive(Drop)]
enum Begun<F> {
    StandardInput,
    File(F),
}

impl<'a, R: HostFiles + Input> Model for RealFiles<'a, R> {
    ghost use Rattle.std.specs.Prelude.{is_some, option_map, string_bytes};
    ghost use Rattle.abt_source.specs.RealFiles.{FilesOfProcess, recalled};

    ghost Value = { FilesOfProcess };

    ghost view = { λ files. record {
      begun = is_some files.begun;
      name = option_map string_bytes files.name;
      faults = files.faults;
      readings = (recalled files.last).readings;
    } };
}

impl<'a, R: HostFiles + Input> RealFiles<'a, R> {
    /// No file is begun, and so nothing is left.
    pub fn new(rt: &'a R, alloc: Global) -> Self
        ensures { result ≡ none_begun None 0 [] }
    {
        RealFiles {
            rt,
            alloc,
            begun: None,
            name: None,
            reason: None,
            faults: 0,
            last: None,
        }
    }

    // What the host opens by the name.
    fn open(&self, name: &str) -> io::Result<Begun<R::File>> {
        if name == "-" {
            return Ok(Begun::StandardInput);
        }
        Ok(Begun::File(fs::open(self.rt, name)?))
    }

    // How many bytes the host wrote into the slice.
    fn fetch(&mut self, into: &mut [u8]) -> io::Result<usize>
        ensures bound { IfOk result (λ n. n ≤ length into.new) }
        ensures nothing { self.old.begun ≡ false → IfOk result (λ n. n ≡ 0) }
        ensures same { self.new ≡ self.old }
    {
        match &mut self.begun {
            None => Ok(0),
            Some(Begun::StandardInput) => self.rt.reader().read(into),
            Some(Begun::File(file)) => file.read(into),
        }
    }
}

impl<R: HostFiles + Input> Files for RealFiles<'_, R> {
    ghost seen = { λ files. Gave files.begun files.readings };

    ghost absent = { λ _ _. ⊥ };

    ghost begun = { λ files. files.name };

    ghost left = { λ files. unread files.begun };

    ghost faults = { λ files. files.faults };

    fn begin(&mut self, name: &str) -> Result<(), NotFetched>
        ensures begun { IfSome self.new.name (λ n. n ≡ name.now) }
        ensures ok { OnOk result (self.new ≡ one_begun self.new.name self.old.faults (reading name.now [] false ∷ self.old.readings)) }
        ensures failed { IsErrOf result NotFetched.Failed → self.new ≡ none_begun self.new.name (next_count self.old.faults) self.old.readings }
        ensures memory { IsErrOf result NotFetched.Memory → self.new ≡ none_begun self.new.name self.old.faults self.old.readings }
    {
        self.begun = None;
        self.name = kept_name(self.alloc, name);
        self.reason = None;
        match self.open(name) {
            Ok(begun) => {
                self.begun = Some(begun);
                recall_begin(&mut self.last, name);
                Ok(())
            }
            Err(e) if e.kind() == ErrorKind::OutOfMemory => Err(NotFetched::Memory),
            Err(e) => {
                self.reason = Some(reason_of(e.kind()));
                self.faults = self.faults.saturating_add(1);
                Err(NotFetched::Failed)
            }
        }
    }

    fn read(&mut self, into: &mut [u8]) -> Result<usize, Failed>
        requires { 0 < length into.old }
        ensures bound { IfOk result (λ n. n ≤ length into.new) }
        ensures nothing { self.old.begun ≡ false → IfOk result (λ n. n ≡ 0) }
        ensures ok { IfOk result (λ n. self.new ≡ after_reading self.old (take n into.new)) }
        ensures failed { OnErr result (self.new ≡ after_fault self.old) }
    {
        match self.fetch(into) {
            Ok(n) => {
                if self.begun.is_some() {
                    recall_read(&mut self.last, &into[..n]);
                }
                Ok(n)
            }
            Err(e) => {
                self.reason = Some(reason_of(e.kind()));
                self.faults = self.faults.saturating_add(1);
                Err(Failed)
            }
        }
    }

    fn fault(&self) -> Option<Blamed<'_>>
        ensures { IfSome result (λ blamed. self.now.name ≡ Some blamed.name.now) }
    {
        blame_for(&self.name, self.reason)
    }
}

// What the host's kind of error says of a file.
fn reason_of(kind: ErrorKind) -> Reason {
    match kind {
        ErrorKind::NotFound => Reason::Absent,
        ErrorKind::PermissionDenied => Reason::NotAllowed,
        ErrorKind::IsADirectory => Reason::Folder,
        _ => Reason::Other,
    }
}
