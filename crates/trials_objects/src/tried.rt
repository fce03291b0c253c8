//! Objects that are tried call by call.

use crate::answers::Answer;
use std::alloc::Global;
use std::process::Abort;
use std::test::Fail;

/// An object that rows of calls try.
pub trait Tried {
    type Call: Copy;

    // What each call finds and leaves true of the object.
    ghost stays: { Self → Type 0 };

    /// What the call answers.
    fn answer<R: Abort>(&mut self, rt: &R, alloc: Global, call: Self::Call) -> Result<Answer, Fail>
        requires { stays self.old }
        ensures { stays self.new };
}

/// Tries the object, call by call.
pub fn check<R: Abort, T: Tried>(
    rt: &R,
    alloc: Global,
    tried: &mut T,
    rows: &[(T::Call, Answer)],
) -> Result<(), Fail>
    requires { T.stays tried.old }
    ensures { T.stays tried.new }
{
    for (at, (call, wanted)) in rows.iter().enumerate() {
        let answer = tried.answer(rt, alloc, *call)?;
        assert!(rt; answer == *wanted, "row {at}");
    }
    Ok(())
}
