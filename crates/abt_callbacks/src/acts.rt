//! A future behind a lock with seats.

use crate::fold::Fold;
use crate::future::CalledFuture;
use abt_booth::Object;

/// What a future is asked.
#[derive(Clone, Copy, Debug, PartialEq, Eq)]
pub enum FutureAct {
    /// To set one more value.
    Set(u64),
    /// To return its answer.
    Read,
    /// To take all values away.
    Reset,
}

/// What a future answers.
#[derive(Clone, Copy, Debug, PartialEq, Eq)]
pub enum FutureAnswer {
    /// The value stands, and more are to come.
    Kept,
    /// The fold's answer, which came with the last value.
    Ready(u64),
    /// There is no answer yet; also the answer to every reset.
    Vacant,
    /// The future has all its values.
    Full,
}

impl<F: Fold> Object for CalledFuture<F> {
    ghost use Rattle.abt_callbacks.specs.Futures.{Does};
    ghost use Rattle.abt_callbacks.specs.Seen.{future_of};

    type Act = FutureAct;

    type Answer = FutureAnswer;

    ghost allowed = { λ future act. Unit {0} };

    ghost does = { λ old act answer new. Does F.shape F.may_return (future_of old) act answer (future_of new) };

    ghost keeps = { λ _ _ _ _ _ _ _. tt };

    fn run(&mut self, act: FutureAct) -> FutureAnswer {
        match act {
            FutureAct::Set(value) => match self.set(value) {
                Err(_) => FutureAnswer::Full,
                Ok(Some(answer)) => FutureAnswer::Ready(answer),
                Ok(None) => FutureAnswer::Kept,
            },
            FutureAct::Read => match self.value() {
                Some(answer) => FutureAnswer::Ready(answer),
                None => FutureAnswer::Vacant,
            },
            FutureAct::Reset => {
                self.reset();
                FutureAnswer::Vacant
            }
        }
    }
}
