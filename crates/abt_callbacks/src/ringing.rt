//! Setting the keys of a ring, and ending it.

ghost use Rattle.std.specs.Prelude.{◌≡◌, ◌<◌, ◌≤◌, IfOk, [], Some, None, length, replicate, slice_set, vec_capacity};
ghost use Rattle.abt_callbacks.specs.declared.ring.TheConstants.{RING_LIMIT};
ghost use Rattle.abt_callbacks.specs.Ending.{AnswersAgree};
ghost use Rattle.abt_callbacks.specs.Rings.{ends_of, values_of};

use crate::end::End;
use crate::ring::KeyRing;
use abt_machine::Want;
use std::alloc::Global;

impl<E: End> KeyRing<E> {
    ghost use Rattle.std.specs.Prelude.{⊤};
    ghost use Rattle.std.specs.Borrow.{sem, follows_so};
    ghost use Rattle.abt_callbacks.specs.contracts.ring.KeyRing.{the_row};
    ghost use mathlib.Core.Option.{none};

    /// A ring with a key for each function, none of which is set. Room for the answers is taken here: no other call takes memory.
    pub fn new(alloc: Global, ends: Vec<E>) -> Result<KeyRing<E>, Want>
    where
        E: Drop,
        requires { (1 ≤ length ends.items) × (length ends.items ≤ RING_LIMIT) }
        ensures ends { IfOk result (λ ring. ends_of ring ≡ ends.items) }
        ensures values { IfOk result (λ ring. values_of ring ≡ replicate (length ends.items) None) }
    {
        let values = vec![in alloc; None; ends.len()]?;
        let answers = Vec::with_capacity(alloc, ends.len())?;
        Ok(KeyRing {
            ends,
            values,
            answers,
        })
    }

    /// Sets a key's value.
    pub fn set(&mut self, key: u32, value: u64)
        requires { key < length (ends_of self.old) }
        ensures ends { ends_of self.new ≡ ends_of self.old }
        ensures values { values_of self.new ≡ slice_set (values_of self.old) key (Some value) }
    {
        self.values[key as usize] = Some(value);
    }

    /// Calls the function of each key that was set since the last call, in order of key, for the key's last value, and returns
    /// their answers. Afterwards no key is set.
    pub fn end(&mut self) -> &[u64]
        ensures answers { AnswersAgree E.may_answer (ends_of self.old) (values_of self.old) result.now }
        ensures* after { sem 𝓛 (follows_so (the_row E.row) (the_row E.row) self.entry.ghost_name none (λ _ _. ⊤)
            (λ ring. (ends_of ring ≡ ends_of self.old) × (values_of ring ≡ replicate (length (ends_of self.old)) None))) }
    {
        self.answers.clear();
        call_each(&self.ends, &self.values, &mut self.answers);
        self.values.fill(None);
        &self.answers
    }
}

// The answers of the functions whose keys are set, in order.
fn call_each<E: End>(ends: &[E], values: &[Option<u64>], answers: &mut Vec<u64>)
    requires many { length values.now ≡ length ends.now }
    requires room { (answers.old.items ≡ []) × (length ends.now ≤ vec_capacity answers.old) }
    ensures answers { AnswersAgree E.may_answer ends.now values.now answers.new.items }
    ensures room { length ends.now ≤ vec_capacity answers.new }
{
    for (key, end) in ends.iter().enumerate() {
        if let Some(value) = values[key] {
            answers.push_reserved(end.answer(value));
        }
    }
}
