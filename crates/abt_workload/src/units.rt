//! Units, and how many operations they have.

ghost use Rattle.std.specs.Prelude.{◌≡◌, ◌≤◌, ◌+◌, ◌++◌, ◌∷◌, [], OnOk, length};
ghost use Rattle.abt_machine.specs.Limits.{operation_limit};
ghost use Rattle.abt_machine.specs.Workloads.{all_ops, ops_of};
ghost use Rattle.abt_machine.specs.declared.grammar.Format.TheVariants as format;

use abt_machine::{UnitPart, Want};
use std::alloc::Global;
use std::marker::Model;

/// A list of units that knows how many operations all of them have.
#[derive(Drop)]
pub(crate) struct Units {
    parts: Vec<UnitPart>,
    ops: usize,
}

impl Model for Units {
    ghost use Rattle.std.specs.Prelude.{◌≡◌, List, length};
    ghost use Rattle.abt_machine.specs.Workloads.{all_ops};
    ghost use Rattle.abt_machine.specs.declared.workload.UnitPart.{UnitPart};

    ghost Value = { List UnitPart };

    ghost view = { λ u. u.parts.items };

    ghost invariant = { λ u. u.ops ≡ length (all_ops u.parts.items) };
}

impl Units {
    /// No unit.
    pub(crate) fn new(alloc: Global) -> Units
        ensures { result ≡ [] }
    {
        Units {
            parts: Vec::new(alloc),
            ops: 0,
        }
    }

    /// The units, in order.
    pub(crate) fn parts(&self) -> &[UnitPart]
        ensures { result.now ≡ self.now }
    {
        &self.parts
    }

    /// How many operations all units have.
    pub(crate) fn ops(&self) -> usize
        ensures { result ≡ length (all_ops self.now) }
    {
        self.ops
    }

    /// Appends a unit.
    pub(crate) fn push(&mut self, part: UnitPart) -> Result<(), Want>
        requires { length (all_ops self.old) + length (ops_of part.body) ≤ operation_limit format.Three }
        ensures { OnOk result (self.new ≡ self.old ++ part ∷ []) }
    {
        let ops = part.body.ops().len();
        self.parts.push(part)?;
        self.ops += ops;
        Ok(())
    }

    /// The units alone.
    pub(crate) fn into_parts(self) -> Vec<UnitPart>
        ensures { result.items ≡ self }
    {
        self.parts
    }
}
