//! The functions' values, beside those of number tables.

use crate::functions::TextFunctions;
use abt_machine::UnitNo;
use abt_work::Work;

// What a function returns.
fn value(function: u32, acc: u64, keys: &[u64]) -> u64 {
    if function < 8 {
        TextFunctions.call(function, UnitNo(0), acc, keys)
    } else {
        0
    }
}

#[test]
fn values_are_those_of_tables(rt: HostRuntime) {
    let table: [(u32, u64, u64); 19] = [
        (0, 0, 0),
        (0, 1, 1),
        (0, 27, 112),
        (0, u64::MAX, 620),
        (1, 2, 0),
        (1, 100, 25),
        (1, 1_048_576 + 1_000, 168),
        (2, 15, 3),
        (2, 16, 4),
        (2, u64::MAX, 4_294_967_295),
        (3, 1, 0),
        (3, 97, 97),
        (3, 13_195, 29),
        (3, 1_048_575, 41),
        (4, 10, 55),
        (4, 90, 2_880_067_194_370_816_120),
        (4, 1_048_576, 0),
        (5, 0, 0),
        (5, u64::MAX, 64),
    ];
    for (function, acc, expected) in table {
        assert_eq!(rt; value(function, acc, &[]), expected);
    }
    for (keys, total, greatest) in [
        (&[] as &[u64], 0, 0),
        (&[3, u64::MAX, 5], 7, u64::MAX),
        (&[9, 40, 2], 51, 40),
    ] {
        assert_eq!(rt; value(6, 1, keys), total);
        assert_eq!(rt; value(7, 1, keys), greatest);
    }
}
