//! The function of the nodes.

ghost use Rattle.std.specs.Prelude.{Some};

use crate::made::{Row, Rows};
use crate::makers::MakesRows;
use crate::tables::Table;
use abt_machine::{StreamNo, UnitNo};
use abt_work::Work;
use std::alloc::Global;
use std::marker::PhantomData;
use std::sync::OnceLock;

/// Function 0 makes the row of the unit's number, writes it to its cell, and returns 0. If the row cannot be made, the cell stays
/// empty.
#[derive(Drop)]
pub(crate) struct WritesRows<'a, T: Table, M: MakesRows<T>> {
    pub(crate) alloc: Global,
    pub(crate) maker: &'a M,
    pub(crate) cells: &'a [OnceLock<Row<T>>],
}

impl<'a, T: Table, M: MakesRows<T>> WritesRows<'a, T, M> {
    // Row u, if it can be made.
    fn make(&self, u: u32) -> Option<Row<T>> {
        let rows = Rows { cells: self.cells };
        let words = self.maker.make(self.alloc, u, &rows)?;
        Some(Row {
            number: u,
            words,
            of: PhantomData,
        })
    }

    fn write(&self, u: u32) {
        let Some(cell) = self.cells.get(u as usize) else {
            return;
        };
        if let Some(row) = self.make(u) {
            // No other call writes this cell.
            let _ = cell.try_set(row);
        }
    }
}

impl<'a, T: Table, M: MakesRows<T>> Work for WritesRows<'a, T, M> {
    ghost count = { λ _. 1 };

    ghost returns = { λ _ _ _ _ _. Some 0 };

    fn before_step(&self, _stream: StreamNo, _unit: UnitNo, _at: u32) {}

    fn watches(&self) -> bool {
        false
    }

    fn call(&self, _function: u32, unit: UnitNo, _acc: u64, _keys: &[u64]) -> u64 {
        self.write(unit.0);
        0
    }

    fn accepts(&self, _function: u32, _unit: UnitNo, _acc: u64, _keys: &[u64], value: u64) -> bool {
        value == 0
    }
}
