//! The law of desks: its function's contract is the law, and its body is empty.

ghost use Rattle.abt_desk.specs.Keeps.{DesksKeepWhatFits};

/// If the units that a desk holds and that come in fit a workload, and the pools that come in or are asked for are declared,
/// the units that come out and that it then holds fit too, and the pools that it answers and still asks for are declared.
pub fn desks_keep_what_fits()
    ensures { DesksKeepWhatFits }
{}
