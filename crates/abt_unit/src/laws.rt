//! Laws of local operations: each function's contract is a law, and its body is empty.

ghost use Rattle.abt_unit.specs.Local.{LocalOperationsAreTheirRows};

/// A local operation is in the machine what it is in a unit.
pub fn local_operations_are_their_rows()
    ensures { LocalOperationsAreTheirRows }
{}
