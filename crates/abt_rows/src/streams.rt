//! Rows of two streams, on their access to pools and on their rounds. Each row speaks of one run of its workload.

ghost use Rattle.abt_rows.specs.Rows.{IsReported, stored};
ghost use Rattle.abt_rows.specs.Streams.{foreign_create_text, foreign_create_report, home_return_text, home_return_report, foreign_yieldto_text, foreign_yieldto_report, foreign_pools_text, foreign_pools_report, access_text, access_report, empty_round_text, empty_round_report};

/// A stream that must not put into a pool creates no unit there.
pub fn foreign_create()
    ensures { IsReported stored 10000 foreign_create_text foreign_create_report }
{}

/// A unit that yields returns to its home, also if its stream must not put into that pool.
pub fn home_return()
    ensures { IsReported stored 10000 home_return_text home_return_report }
{}

/// A stream that must not take from a pool yields to no unit there.
pub fn foreign_yieldto()
    ensures { IsReported stored 10000 foreign_yieldto_text foreign_yieldto_report }
{}

/// Each operation that names a pool is refused for lack of access before it looks at the unit.
pub fn foreign_pools()
    ensures { IsReported stored 10000 foreign_pools_text foreign_pools_report }
{}

/// A scheduler unit ends at once if its stream must not take from its pools.
pub fn access()
    ensures { IsReported stored 10000 access_text access_report }
{}

/// An empty round counts: after it, a rotated order begins one pool later.
pub fn empty_round()
    ensures { IsReported stored 10000 empty_round_text empty_round_report }
{}
