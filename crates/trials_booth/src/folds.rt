//! Calls of the program of folds, and what they leave.

use abt_callbacks::{Fold, PlainSum, abtfold};
use abt_source::MemorySink;
use std::alloc::{AllocError, Global};
use std::sync::atomic::{AtomicU64, Ordering};
use std::test::Fail;

// Words as strings.
fn strings(alloc: Global, words: &[&str]) -> Result<Vec<String>, AllocError> {
    let mut strings = Vec::new(alloc);
    for word in words {
        strings.push(String::from_str(alloc, word)?)?;
    }
    Ok(strings)
}

// What is said of this status.
fn message(status: u8) -> &'static [u8] {
    match status {
        2 => b"abtfold: bad command line\nusage: abtfold W N\n",
        6 => b"abtfold: cannot write\n",
        _ => b"",
    }
}

const ROWS: [(&[&str], u8, &[u8]); 14] = [
    (&["3", "100"], 0, b"sum 5050\n"),
    (&["8", "4096"], 0, b"sum 8390656\n"),
    (&["1", "1"], 0, b"sum 1\n"),
    (&["8", "1"], 0, b"sum 1\n"),
    (&["003", "0100"], 0, b"sum 5050\n"),
    (&["0", "5"], 2, b""),
    (&["9", "5"], 2, b""),
    (&["5", "0"], 2, b""),
    (&["5", "4097"], 2, b""),
    (&["+5", "5"], 2, b""),
    (&["5", "x"], 2, b""),
    (&["5", ""], 2, b""),
    (&["5"], 2, b""),
    (&["5", "5", "5"], 2, b""),
];

#[test]
fn the_sum_of_each_row_is_written(rt: HostRuntime) -> Result<(), Fail> {
    let alloc = rt.alloc();
    for (words, status, text) in ROWS {
        let words = strings(alloc, words)?;
        let mut out = MemorySink::new(alloc, 64, 7, Vec::new(alloc))?;
        let mut err = MemorySink::new(alloc, 64, 7, Vec::new(alloc))?;
        assert_eq!(rt;
            abtfold(&rt, alloc, &words, &mut out, &mut err, PlainSum),
            status
        );
        assert_eq!(rt; out.bytes(), text);
        assert_eq!(rt; err.bytes(), message(status));
    }
    Ok(())
}

#[test]
fn a_failed_write_leaves_a_prefix(rt: HostRuntime) -> Result<(), Fail> {
    let alloc = rt.alloc();
    let words = strings(alloc, &["2", "9"])?;
    let mut out = MemorySink::new(alloc, 64, 3, vec![in alloc; 2]?)?;
    let mut err = MemorySink::new(alloc, 64, 7, Vec::new(alloc))?;
    assert_eq!(rt;
        abtfold(&rt, alloc, &words, &mut out, &mut err, PlainSum),
        6
    );
    assert_eq!(rt; out.bytes(), b"sum 45".as_slice());
    assert_eq!(rt; err.bytes(), message(6));
    Ok(())
}

// A sum that counts its calls, and the values of the last one.
#[derive(Drop)]
struct Counting<'a> {
    calls: &'a AtomicU64,
    values: &'a AtomicU64,
}

impl Fold for Counting<'_> {
    ghost use Rattle.std.specs.Prelude.{◌≡◌, ◌%◌, ◌^◌, sum};
    ghost use Rattle.abt_callbacks.specs.declared.fold.FoldShape.TheVariants as shape;

    ghost shape = { λ _. shape.Sum };

    ghost may_return = { λ _ list answer. answer ≡ sum list % 2 ^ 64 };

    fn fold(&self, values: &[u64]) -> u64 {
        self.calls.fetch_add(1, Ordering::SeqCst);
        self.values.store(values.len() as u64, Ordering::SeqCst);
        PlainSum.fold(values)
    }
}

#[test]
fn the_fold_is_called_once_over_all_numbers(rt: HostRuntime) -> Result<(), Fail> {
    let alloc = rt.alloc();
    let calls = AtomicU64::new(0);
    let values = AtomicU64::new(0);
    let words = strings(alloc, &["8", "1000"])?;
    let mut out = MemorySink::new(alloc, 64, 64, Vec::new(alloc))?;
    let mut err = MemorySink::new(alloc, 64, 64, Vec::new(alloc))?;
    let fold = Counting {
        calls: &calls,
        values: &values,
    };
    assert_eq!(rt; abtfold(&rt, alloc, &words, &mut out, &mut err, fold), 0);
    assert_eq!(rt; out.bytes(), b"sum 500500\n".as_slice());
    assert!(rt; err.bytes().is_empty());
    assert_eq!(rt; calls.load(Ordering::SeqCst), 1);
    assert_eq!(rt; values.load(Ordering::SeqCst), 1000);
    Ok(())
}
