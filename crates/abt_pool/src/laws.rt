//! The law of pools: its function's contract is the law, and its body is empty.

ghost use Rattle.abt_pool.specs.Keeps.{PoolsKeepWhatFits};

/// If the units that a pool holds and that come in fit a workload, those that come out and that it then holds do too.
pub fn pools_keep_what_fits()
    ensures { PoolsKeepWhatFits }
{}
