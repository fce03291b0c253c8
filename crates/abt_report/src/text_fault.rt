//! Why a text of lines was not read.

ghost use Rattle.std.specs.Prelude.{◌≡◌};
ghost use Rattle.abt_report.specs.declared.text_fault.TextFault.TheVariants.{Memory};

use abt_machine::Want;
use std::alloc::AllocFailed;
use thiserror::Error;

/// Why a text of lines was not read.
#[derive(Clone, Copy, Debug, PartialEq, Eq, Error)]
pub enum TextFault {
    /// The first line, counted from 1, that is refused, as the reader of the text states.
    #[error("line {line} is refused")]
    Bad { line: u32 },
    #[error("out of memory")]
    Memory,
}

impl From<Want> for TextFault {
    ghost from_gives = { λ _ e. e ≡ Memory };

    fn from(_: Want) -> Self {
        TextFault::Memory
    }
}

impl<T: Drop> From<AllocFailed<T>> for TextFault {
    ghost from_gives = { λ _ e. e ≡ Memory };

    fn from(_: AllocFailed<T>) -> Self {
        TextFault::Memory
    }
}
