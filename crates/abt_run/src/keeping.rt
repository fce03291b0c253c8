//! What a call keeps.

ghost use Rattle.std.specs.Prelude.{◌≡◌};
ghost use Rattle.abt_run.specs.Kept.{either, keeps};

/// Which runs keep their journal. A run that does not takes no memory for its events.
#[derive(Clone, Copy, Debug, PartialEq, Eq)]
pub enum Keep {
    /// Every run: the answer has its journal in every status of a run.
    Always,
    /// A run whose journal the command prints, or of which it says what units wait for. The answer has no other journal.
    IfPrinted,
}

impl Keep {
    // Whether a run keeps its journal, if the command needs it, or if it does not.
    pub(crate) fn keeps(self, needs: bool) -> bool
        ensures { result ≡ keeps self needs }
    {
        match self {
            Keep::Always => true,
            Keep::IfPrinted => needs,
        }
    }
}

// Whether one of both is asked for.
pub(crate) fn either(first: bool, second: bool) -> bool
    ensures { result ≡ either first second }
{
    if first {
        return true;
    }
    second
}
