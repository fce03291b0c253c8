//! Copies of models, and models as bytes.

ghost use Rattle.std.specs.Prelude.{◌≡◌, ◌++◌, IfOk, map};
ghost use Rattle.abt_model.specs.Keys.{KeysTellModels, model_key, unnumbered_model};
ghost use Rattle.abt_replay.specs.Keys.{IsPrefixCode};
ghost use Rattle.abt_replay.specs.Unnumbered.{unnumbered_held};

use crate::model::Model;
use abt_machine::Want;
use abt_replay::{Keyed, Lane, write_list};
use std::alloc::Global;

impl Model {
    /// A copy. Out of memory is the only error.
    pub fn copy(&self, alloc: Global) -> Result<Model, Want>
        ensures { IfOk result (λ copy. copy ≡ self.now) }
    {
        Ok(Model {
            lanes: Vec::from_clones(alloc, self.lanes.as_slice())?,
            objects: self.objects.clone()?,
        })
    }

    /// The round of each frame becomes 0.
    pub fn forget_rounds(&mut self)
        ensures { self.new ≡ unnumbered_model self.old }
    {
        forget_rounds(&mut self.lanes);
    }

    /// Appends the bytes that tell this model from all others. Out of memory is the only error.
    pub fn write(&self, out: &mut Vec<u8>) -> Result<(), Want>
        ensures { IfOk result (λ _. out.new.items ≡ out.old.items ++ model_key self.now) }
    {
        write_list(self.lanes.as_slice(), out)?;
        self.objects.write(out)
    }
}

// The round of each frame of each stream becomes 0.
fn forget_rounds(lanes: &mut Vec<Lane>)
    ensures { lanes.new.items ≡ map unnumbered_held lanes.old.items }
{
    for lane in lanes.iter_mut() {
        lane.forget_rounds();
    }
}

/// What is written of a model tells it, and where it ends.
pub fn models_are_told()
    ensures told { IsPrefixCode model_key }
    ensures one { KeysTellModels }
{}
