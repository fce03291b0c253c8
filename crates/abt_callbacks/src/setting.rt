//! Setting the values of a future, reading its answer, and starting it anew.

ghost use Rattle.std.specs.Prelude.{◌≡◌, ◌<◌, ◌≤◌, ◌↔◌, length, IfOk, None};
ghost use Rattle.abt_callbacks.specs.Folding.{number_limit};
ghost use Rattle.abt_callbacks.specs.Futures.{SetGives, empty};
ghost use Rattle.abt_callbacks.specs.Seen.{future_of};

use crate::fold::Fold;
use crate::future::CalledFuture;
use abt_machine::{Code, Want};
use std::alloc::Global;

impl<F: Fold> CalledFuture<F> {
    /// A future for `n` values, none of which stands. Room for them is taken here: no other call takes memory.
    pub fn new(alloc: Global, n: u32, fold: F) -> Result<CalledFuture<F>, Want>
    where
        F: Drop,
        requires { (1 ≤ n) × (n ≤ number_limit) }
        ensures { IfOk result (λ f. future_of f ≡ empty fold n) }
    {
        let values = Vec::with_capacity(alloc, n as usize)?;
        Ok(CalledFuture {
            fold,
            values,
            most: n,
            answer: None,
        })
    }

    /// Sets one more value. Some is the fold's answer, which comes with the last value and is kept.
    ///
    /// # Errors
    ///
    /// `FutureFull` if all values stand; nothing then changes.
    pub fn set(&mut self, value: u64) -> Result<Option<u64>, Code>
        ensures { SetGives F.shape F.may_return (future_of self.old) value result (future_of self.new) }
    {
        if self.values.len() == self.most as usize {
            return Err(Code::FutureFull);
        }
        self.values.push_reserved(value);
        if self.values.len() < self.most as usize {
            return Ok(None);
        }
        let answer = self.fold.fold(&self.values);
        self.answer = Some(answer);
        Ok(Some(answer))
    }

    /// The kept answer, None if fewer values stand than the future is for.
    pub fn value(&self) -> Option<u64>
        ensures kept { result ≡ (future_of self.now).answer }
        ensures vacant { (result ≡ None) ↔ (length (future_of self.now).values < (future_of self.now).most) }
    {
        self.answer
    }

    /// Takes all values away.
    pub fn reset(&mut self)
        ensures { future_of self.new ≡ empty (future_of self.old).fold (future_of self.old).most }
    {
        self.values.clear();
        self.answer = None;
    }
}
