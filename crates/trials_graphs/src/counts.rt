//! Counts on four threads, compared with numbers that are known.

use abt_kernels::{count_primes, count_queens, sum_turns};
use std::test::Fail;

// How many primes are below a number.
const PRIMES: [(u32, u64); 6] = [
    (0, 0),
    (2, 0),
    (3, 1),
    (1_000, 168),
    (1_025, 172),
    (100_000, 9_592),
];

// In how many ways queens stand on a board.
const QUEENS: [(u32, u64); 6] = [(1, 1), (2, 0), (3, 0), (4, 2), (6, 4), (8, 92)];

#[test]
fn primes_are_counted(rt: HostRuntime) -> Result<(), Fail> {
    for (limit, primes) in PRIMES {
        assert_eq!(rt; count_primes(&rt, rt.alloc(), limit, 4)?, primes);
    }
    Ok(())
}

#[test]
fn queens_are_counted(rt: HostRuntime) -> Result<(), Fail> {
    for (n, ways) in QUEENS {
        assert!(rt; 0 < n && n <= 8);
        assert_eq!(rt; count_queens(&rt, rt.alloc(), n, 4)?, ways);
    }
    Ok(())
}

// One turn leads from 0 to 7, from 1 to 10 and from 2 to 17; two lead from 0 to 112 and from 1 to 217.
#[test]
fn turns_are_added_up(rt: HostRuntime) -> Result<(), Fail> {
    assert_eq!(rt; sum_turns(&rt, rt.alloc(), 3, 0, 4)?, 3);
    assert_eq!(rt; sum_turns(&rt, rt.alloc(), 3, 1, 4)?, 34);
    assert_eq!(rt; sum_turns(&rt, rt.alloc(), 2, 2, 4)?, 329);
    Ok(())
}
