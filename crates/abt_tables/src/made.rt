//! Rows that are made.

ghost use Rattle.std.specs.Prelude.{◌≡◌, IfSome};

use crate::tables::Table;
use std::marker::PhantomData;
use std::sync::OnceLock;

/// A row of a table, with its number. Whoever reads it knows from its type what it is.
#[derive(Drop)]
pub(crate) struct Row<T: Table> {
    pub(crate) number: u32,
    pub(crate) words: Vec<u64>,
    pub(crate) of: PhantomData<T>,
    ghost right: { words.items ≡ T.row_at number },
}

/// The rows of a table that are made so far. Each is written once, and any thread may read it then.
#[derive(Drop)]
pub struct Rows<'a, T: Table> {
    pub(crate) cells: &'a [OnceLock<Row<T>>],
}

impl<'a, T: Table> Rows<'a, T> {
    /// Row u, if it is made.
    pub fn row(&self, u: u32) -> Option<&[u64]>
        ensures { IfSome result (λ words. words.now ≡ T.row_at u) }
    {
        let row = self.cells.get(u as usize)?.get()?;
        if row.number == u {
            return Some(row.words.as_slice());
        }
        None
    }
}
