//! Lengths of common subsequences on threads, beside those of a plain loop.

use abt_kernels::longest_common_subsequence;
use std::alloc::{AllocError, Global};
use std::test::Fail;

// A text of this length, of so many letters.
fn text(alloc: Global, length: usize, letters: u8, seed: u64) -> Result<Vec<u8>, AllocError> {
    let mut state = seed;
    let mut text = Vec::new(alloc);
    for _ in 0..length {
        state = state
            .wrapping_mul(6_364_136_223_846_793_005)
            .wrapping_add(1_442_695_040_888_963_407);
        text.push(b'a'.wrapping_add((state >> 56) as u8 % letters.max(1)))?;
    }
    Ok(text)
}

// The last cell of the table, line by line.
fn plain(alloc: Global, a: &[u8], b: &[u8]) -> Result<u64, AllocError> {
    let mut line: Vec<u64> = Vec::new(alloc);
    for _ in 0..=b.len() {
        line.push(0)?;
    }
    for x in a {
        let mut diagonal: u64 = 0;
        for j in 0..b.len() {
            let above = match line.get(j + 1) {
                Some(n) => *n,
                None => 0
            };
            let left = match line.get(j) {
                Some(n) => *n,
                None => 0
            };
            let y = match b.get(j) {
                Some(y) => *y,
                None => 0
            };
            let next = if *x == y {
                diagonal.wrapping_add(1)
            } else {
                above.max(left)
            };
            if let Some(cell) = line.get_mut(j + 1) {
                *cell = next;
            }
            diagonal = above;
        }
    }
    Ok(match line.last() {
        Some(n) => *n,
        None => 0
    })
}

#[test]
fn short_texts_have_known_lengths(rt: HostRuntime) -> Result<(), Fail> {
    let table: [(&[u8], &[u8], u64); 9] = [
        (b"abcbdab", b"bdcaba", 4),
        (b"AGGTAB", b"GXTXAYB", 4),
        (b"", b"", 0),
        (b"", b"abc", 0),
        (b"abc", b"", 0),
        (b"abc", b"abc", 3),
        (b"aaaa", b"bbbb", 0),
        (b"abcdef", b"acf", 3),
        (b"x", b"yyyx", 1),
    ];
    for (a, b, expected) in table {
        for streams in [1, 4] {
            assert_eq!(rt;
                longest_common_subsequence(&rt, rt.alloc(), a, b, streams)?,
                expected
            );
        }
    }
    Ok(())
}

#[test]
fn tiles_give_the_lengths_of_a_plain_loop(rt: HostRuntime) -> Result<(), Fail> {
    for (m, n, letters) in [
        (63, 64, 4),
        (64, 64, 2),
        (65, 129, 3),
        (1, 300, 4),
        (300, 1, 4),
        (1000, 900, 4),
        (3000, 500, 20),
        (70, 9000, 4),
    ] {
        let a = text(rt.alloc(), m, letters, 1)?;
        let b = text(rt.alloc(), n, letters, 2)?;
        let expected = plain(rt.alloc(), &a, &b)?;
        for streams in [1, 4] {
            assert_eq!(rt;
                longest_common_subsequence(&rt, rt.alloc(), &a, &b, streams)?,
                expected
            );
        }
        assert_eq!(rt;
            longest_common_subsequence(&rt, rt.alloc(), &a, &a, 2)?,
            m as u64
        );
    }
    Ok(())
}
