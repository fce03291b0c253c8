//! The law of counted calls: its function's contract is the law, and its body is empty.

ghost use Rattle.abt_chain.specs.Links.{CallsWalkFewLinks};

/// From an empty chain, any `m` counted calls in any order walk at most `m` links.
pub fn calls_walk_few_links()
    ensures { CallsWalkFewLinks }
{}
