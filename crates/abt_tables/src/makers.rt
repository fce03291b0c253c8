//! Who makes the rows of tables.

ghost use Rattle.std.specs.Prelude.{◌≡◌, IfSome};

use crate::made::Rows;
use crate::tables::Table;
use std::alloc::Global;

/// Who makes the rows of a table. Threads share it by reference, and no lock is held while it makes a row.
pub trait MakesRows<T: Table> {
    /// Row u, from rows that it needs. It is called once for each node, on some stream's thread, and makes the row of the node's
    /// number. By then `rows` has the row of each node that node u waits for, and of each that those wait for, if it could be made;
    /// whether it has another depends on the schedule. None says that there was no memory, or that a row which it needs is not
    /// made. A call that does not return holds up its stream for ever.
    fn make(&self, alloc: Global, u: u32, rows: &Rows<'_, T>) -> Option<Vec<u64>>
        ensures { IfSome result (λ words. words.items ≡ T.row_at u) };
}
