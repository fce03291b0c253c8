//! A unit's program.

ghost use Rattle.std.specs.Prelude.{◌≡◌, ◌++◌, ◌∷◌, [], IfOk, OnOk};

use crate::operations::Op;
use std::alloc::{AllocError, Global};
use std::marker::Model;
use std::sync::Arc;

/// A unit's program, which contracts see as its operations. Units with the same program may share it.
#[derive(Drop)]
pub struct Ops {
    list: Arc<Vec<Op>>,
}

impl Model for Ops {
    ghost use Rattle.std.specs.Prelude.{List};
    ghost use Rattle.std.specs.Arc.{arc_value};
    ghost use Rattle.abt_machine.specs.declared.operations.Op.{Op};

    ghost Value = { List Op };

    ghost view = { λ ops. (arc_value ops.list).items };
}

impl Ops {
    pub fn new(alloc: Global, list: Vec<Op>) -> Result<Ops, AllocError>
        ensures { IfOk result (λ ops. ops ≡ list.items) }
    {
        let list = Arc::new(alloc, list)?;
        Ok(Ops { list })
    }

    pub fn items(&self) -> &[Op]
        ensures { result.now ≡ self.now }
    {
        self.list.as_slice()
    }

    /// The same program, for one unit more. No operation is copied.
    pub fn share(&self) -> Result<Ops, AllocError>
        ensures { IfOk result (λ ops. ops ≡ self.now) }
    {
        let list = Arc::try_clone(&self.list)?;
        Ok(Ops { list })
    }

    /// Appends an operation. Units that share the program keep it as it was.
    pub fn push(&mut self, op: Op) -> Result<(), AllocError>
        ensures { OnOk result (self.new ≡ self.old ++ op ∷ []) }
    {
        Arc::make_mut(&mut self.list)?.push(op)?;
        Ok(())
    }
}
