//! Runs on threads, compared with numbers that are known.

use graph_caller::squares_on_threads;
use std::test::Fail;

#[test]
fn numbers_are_squared(rt: HostRuntime) -> Result<(), Fail> {
    let squares = squares_on_threads(&rt, rt.alloc(), 1_000)?;
    assert!(rt; squares.len() == 1_000);
    assert!(rt; squares[999] == 998_001);
    Ok(())
}
