//! What a call does before its first write.

ghost use Rattle.std.specs.Prelude.{◌≡◌, None};

use crate::status::Conclusion;
use abt_machine::Journal;

/// What a call answers and writes, and what its command came to.
#[derive(Drop)]
pub(crate) struct Prepared {
    pub(crate) journal: Option<Journal>,
    pub(crate) text: Vec<u8>,
    pub(crate) conclusion: Conclusion,
}

/// A call that makes no run.
pub(crate) fn without_run(text: Vec<u8>, conclusion: Conclusion) -> Prepared
    ensures journal { result.journal ≡ None }
    ensures text { result.text.items ≡ text.items }
    ensures conclusion { result.conclusion ≡ conclusion }
{
    Prepared {
        journal: None,
        text,
        conclusion,
    }
}
