//! The models that a search has seen, by their keys.

ghost use Rattle.std.specs.Prelude.{◌≡◌, ◌≤◌, ◌+◌, IfOk, OnOk, List, ℕ, false, length, true};
ghost use Rattle.std.specs.Bool.{OnFalse, OnTrue};
ghost use Rattle.abt_explore.specs.Seen.{IsAdded, has};
ghost use Rattle.abt_model.specs.Keys.{model_key};

use abt_machine::Want;
use abt_model::Model;
use std::alloc::Global;
use std::collections::HashSet;

/// The keys of the models, how many bytes they have, and the memory in which the key of the next one is written.
#[derive(Drop)]
pub(crate) struct Seen {
    keys: HashSet<Vec<u8>>,
    bytes: u64,
    next: Vec<u8>,
}

impl Seen {
    /// No model.
    pub(crate) fn new(alloc: Global) -> Seen
        ensures none { (key : List ℕ) → has result key ≡ false }
        ensures bytes { result.bytes ≡ 0 }
    {
        Seen {
            keys: HashSet::new(alloc),
            bytes: 0,
            next: Vec::new(alloc),
        }
    }

    /// Adds a model, and returns whether it is new. Out of memory is the only error.
    pub(crate) fn add(&mut self, model: &Model) -> Result<bool, Want>
        ensures added { OnOk result (IsAdded (model_key model.now) self.old self.new) }
        ensures old { IfOk result (λ new. OnFalse new (has self.old (model_key model.now) ≡ true)) }
        ensures new { IfOk result (λ new. OnTrue new (has self.old (model_key model.now) ≡ false)) }
        ensures same { IfOk result (λ new. OnFalse new (self.new.bytes ≡ self.old.bytes)) }
        ensures bytes { OnOk result (self.new.bytes ≤ self.old.bytes + length (model_key model.now)) }
    {
        self.next.clear();
        model.write(&mut self.next)?;
        if self.keys.contains(self.next.as_slice()) {
            return Ok(false);
        }
        self.keys.insert(self.next.clone()?)?;
        self.bytes = self.bytes.saturating_add(self.next.len() as u64);
        Ok(true)
    }

    /// How many bytes the keys have.
    pub(crate) fn bytes(&self) -> u64
        ensures { result ≡ self.now.bytes }
    {
        self.bytes
    }
}
