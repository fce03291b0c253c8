//! Files that are read by name, and a whole file read.

ghost use Rattle.std.specs.Prelude.{◌≡◌, ◌<◌, ◌≤◌, ◌+◌, ℕ, List, [], false, length, take, drop, Option, Some, option_map};
ghost use Rattle.std.specs.Prelude.{IfSome, IfOk, OnOk, OnErr, IsErrOf};
ghost use Rattle.abt_source.specs.declared.reading.NotFetched.TheVariants.{Memory};
ghost use Rattle.abt_source.specs.Seen.{Agree, Grows, Seen, closed, gave, gave_on, held, reading};
ghost use Rattle.abt_source.specs.Source.{Rose, NothingLeft, ReadGives, LeavesAnEnd};

use crate::{Blamed, Failed};
use std::alloc::{AllocError, Global};
use thiserror::Error;

/// Why a file was not fetched.
#[derive(Clone, Copy, Debug, PartialEq, Eq, Error)]
pub enum NotFetched {
    /// A call failed, and the count of faults rose.
    #[error("the file cannot be read")]
    Failed,
    #[error("out of memory")]
    Memory,
}

impl From<AllocError> for NotFetched {
    ghost from_gives = { λ _ e. e ≡ Memory };

    fn from(_: AllocError) -> Self {
        NotFetched::Memory
    }
}

/// Files that are read by name, each from its first byte on.
pub trait Files {
    /// What is observable of the bytes: those of each name, which no call changes, or what each reading gave until now.
    ghost seen: { Self → Seen };

    /// That no file has the name, if that is observable. It stays so.
    ghost absent: { Self → List ℕ → Type 0 };

    /// The name that `begin` was given last, if it is kept.
    ghost begun: { Self → Option (List ℕ) };

    /// The bytes that are left of the file that was begun last, if they are observable.
    ghost left: { Self → Option (List ℕ) };

    /// A count that each failed call raises, up to its last value, and that no other call changes.
    ghost faults: { Self → ℕ };

    /// Starts at the first byte of a file. A name that no file has is a fault.
    fn begin(&mut self, name: &str) -> Result<(), NotFetched>
        ensures begins { OnOk result (seen self.new ≡ gave (reading name.now [] false) (seen self.old)) }
        ensures closed { OnErr result (seen self.new ≡ closed (seen self.old)) }
        ensures absent { absent self.old name.now → IsErrOf result NotFetched.Failed }
        ensures missing { (n : List ℕ) → absent self.old n → absent self.new n }
        ensures begun { IfSome (begun self.new) (λ n. n ≡ name.now) }
        ensures left { OnOk result (left self.new ≡ held (seen self.old) name.now) }
        ensures nothing { OnErr result (NothingLeft (left self.new)) }
        ensures later { faults self.old ≤ faults self.new }
        ensures cause { IsErrOf result NotFetched.Failed → Rose (faults self.old) (faults self.new) }
        ensures quiet { OnOk result (faults self.new ≡ faults self.old) }
        ensures memory { IsErrOf result NotFetched.Memory → faults self.new ≡ faults self.old };

    /// Writes the next bytes into the slice, and none only at the end, and returns how many.
    fn read(&mut self, into: &mut [u8]) -> Result<usize, Failed>
        requires { 0 < length into.old }
        ensures seen { IfOk result (λ n. seen self.new ≡ gave_on (take n into.new) (seen self.old)) }
        ensures unseen { OnErr result (seen self.new ≡ seen self.old) }
        ensures missing { (n : List ℕ) → absent self.old n → absent self.new n }
        ensures begun { begun self.new ≡ begun self.old }
        ensures bound { IfOk result (λ n. n ≤ length into.new) }
        ensures gives { ReadGives (left self.old) (left self.new) result into.new }
        ensures later { faults self.old ≤ faults self.new }
        ensures cause { OnErr result (Rose (faults self.old) (faults self.new)) }
        ensures quiet { OnOk result (faults self.new ≡ faults self.old) };

    /// The file that was begun last, if its name is kept, and why a call on it failed, if one did.
    fn fault(&self) -> Option<Blamed<'_>>
        ensures { IfSome result (λ blamed. begun self.now ≡ Some blamed.name.now) };
}

// How many bytes one read asks for at most.
const PIECE: usize = 8192;

/// The whole file, or its first `most + 1` bytes if it is longer.
///
/// # Errors
///
/// `Failed` if a call failed, `Memory` if memory is refused.
pub fn read_all<F: Files>(
    alloc: Global,
    files: &mut F,
    name: &str,
    most: usize,
) -> Result<Vec<u8>, NotFetched>
    requires { most < usize.MAX }
    ensures bytes { (file_of : List ℕ → Option (List ℕ)) → Agree (F.seen files.old) (F.seen files.new) file_of
        → IfOk result (λ v. IfSome (file_of name.now) (λ xs. v.items ≡ take (most + 1) xs)) }
    ensures grows { Grows (F.seen files.old) (F.seen files.new) }
    ensures absent { F.absent files.old name.now → IsErrOf result NotFetched.Failed }
    ensures bound { IfOk result (λ v. length v.items ≤ most + 1) }
    ensures left { OnOk result (F.left files.new
        ≡ option_map (drop (most + 1)) (held (F.seen files.old) name.now)) }

    // After a failure, or if memory ran out, an end of the file is left.
    ensures stands { OnErr result (LeavesAnEnd (held (F.seen files.old) name.now) (F.left files.new)) }
    ensures cause { IsErrOf result NotFetched.Failed → Rose (F.faults files.old) (F.faults files.new) }
    ensures quiet { OnOk result (F.faults files.new ≡ F.faults files.old) }
    ensures memory { IsErrOf result NotFetched.Memory → F.faults files.new ≡ F.faults files.old }

    ensures missing { (n : List ℕ) → F.absent files.old n → F.absent files.new n }
    ensures begun { IfSome (F.begun files.new) (λ n. n ≡ name.now) }
    ensures later { F.faults files.old ≤ F.faults files.new }
{
    files.begin(name)?;
    let mut bytes = Vec::new(alloc);
    let mut piece = [0u8; PIECE];
    while bytes.len() <= most {
        let room = PIECE.min(most - bytes.len() + 1);
        match files.read(&mut piece[..room]) {
            Ok(0) => return Ok(bytes),
            Ok(n) => bytes.extend_from_slice(&piece[..n])?,
            Err(Failed) => return Err(NotFetched::Failed),
        }
    }
    Ok(bytes)
}
