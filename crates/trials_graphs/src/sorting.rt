//! Sorts on threads, compared with std's.

use abt_kernels::merge_sort;
use std::test::Fail;

#[test]
fn few_numbers_are_sorted(rt: HostRuntime) -> Result<(), Fail> {
    let sorted = merge_sort(&rt, rt.alloc(), &[], 1)?;
    assert!(rt; sorted.is_empty());
    let sorted = merge_sort(&rt, rt.alloc(), &[7], 2)?;
    assert!(rt; sorted.as_slice() == [7].as_slice());
    let sorted = merge_sort(&rt, rt.alloc(), &[3, 1, 2, 3, 0, u64::MAX, 1], 2)?;
    assert!(rt; sorted.as_slice() == [0, 1, 1, 2, 3, 3, u64::MAX].as_slice());
    Ok(())
}

#[test]
fn many_numbers_are_sorted(rt: HostRuntime) -> Result<(), Fail> {
    let mut numbers = Vec::new(rt.alloc());
    let mut word: u64 = 88_172_645_463_325_252;
    for _ in 0..100_000 {
        word = word
            .wrapping_mul(6_364_136_223_846_793_005)
            .wrapping_add(1_442_695_040_888_963_407);
        numbers.push(word >> 20)?;
    }
    let sorted = merge_sort(&rt, rt.alloc(), &numbers, 4)?;
    numbers.sort_unstable();
    assert!(rt; sorted.as_slice() == numbers.as_slice());
    Ok(())
}

#[test]
fn equal_numbers_are_sorted(rt: HostRuntime) -> Result<(), Fail> {
    let mut numbers = Vec::new(rt.alloc());
    for k in 0..20_000_u64 {
        numbers.push(k * 7 % 10)?;
    }
    let sorted = merge_sort(&rt, rt.alloc(), &numbers, 3)?;
    assert!(rt; sorted.len() == 20_000);
    assert!(rt; sorted[1_999] == 0);
    assert!(rt; sorted[2_000] == 1);
    assert!(rt; sorted[19_999] == 9);
    Ok(())
}
