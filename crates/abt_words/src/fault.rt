//! Why words are refused.

ghost use Rattle.std.specs.Prelude.{◌≡◌};
ghost use Rattle.clap.specs.Words.{kind_of};
ghost use Rattle.abt_words.specs.declared.fault.WordFault.TheVariants.{Memory};
ghost use Rattle.abt_words.specs.Asked.{fault_of_kind};

use clap::error::ErrorKind;
use std::alloc::AllocError;
use thiserror::Error;

/// Why words are not a command.
#[derive(Clone, Copy, Debug, PartialEq, Eq, Error)]
pub enum WordFault {
    /// They are outside the grammar of the command line.
    #[error("bad command line")]
    Bad,
    #[error("out of memory")]
    Memory,
}

impl From<AllocError> for WordFault {
    ghost from_gives = { λ _ fault. fault ≡ Memory };

    fn from(_: AllocError) -> Self {
        WordFault::Memory
    }
}

impl From<clap::Error> for WordFault {
    ghost from_gives = { λ error fault. fault ≡ fault_of_kind (kind_of error) };

    fn from(error: clap::Error) -> Self {
        match error.kind() {
            ErrorKind::OutOfMemory => WordFault::Memory,
            _ => WordFault::Bad,
        }
    }
}
