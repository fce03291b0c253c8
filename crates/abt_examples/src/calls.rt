//! Calls of the program over two files in memory, beside what their rows say.

ghost use Rattle.std.specs.Prelude.{◌<◌};

use crate::list_of;
use crate::rows::Row;
use abt_functions::TextFunctions;
use abt_order::StoredOrder;
use abt_report::journal_text;
use abt_run::{Keep, abtrun};
use abt_source::{MemoryFiles, MemorySink, NamedBytes};
use std::alloc::{AllocError, Global};
use std::process::Abort;
use std::sync::Wait;
use std::test::Fail;
use std::thread::Threads;

// More bytes than any output has.
const ROOM: usize = 100_000;

// The file of that name, whose text has two parts.
fn file(alloc: Global, name: &str, head: &str, lines: &[u8]) -> Result<NamedBytes, AllocError> {
    let name = String::from_str(alloc, name)?;
    let mut bytes = Vec::from_slice(alloc, head.as_bytes())?;
    bytes.extend_from_slice(lines)?;
    Ok(NamedBytes { name, bytes })
}

// The files of a row.
fn files_of(alloc: Global, row: &Row) -> Result<MemoryFiles, AllocError> {
    let f = file(alloc, "f", row.head, row.lines)?;
    let j = file(alloc, "j", row.other.unwrap_or(""), b"")?;
    let named = vec![in alloc; f, j]?;
    Ok(MemoryFiles::new(named, vec![in alloc; row.failing.files]?))
}

// A sink that takes at most `most` bytes in a write, and whose write of the number `failing` fails.
fn sink(alloc: Global, most: usize, failing: u64) -> Result<MemorySink, Fail>
    requires { 0 < most }
{
    Ok(MemorySink::new(alloc, ROOM, most, vec![in alloc; failing]?)?)
}

// Whether a call with these words over these files, which keeps these journals, leaves what the row says.
fn leaves<R: Threads + Wait + Sync>(
    rt: &R,
    alloc: Global,
    words: &[String],
    files: &mut MemoryFiles,
    row: &Row,
    keep: Keep,
) -> Result<bool, Fail> {
    let mut out = sink(alloc, row.most.max(1), row.failing.out)?;
    let mut err = sink(alloc, ROOM, row.failing.err)?;
    let orders = [StoredOrder::rotating(), StoredOrder::mirroring()];
    let answer = abtrun(
        rt,
        alloc,
        words,
        files,
        &mut out,
        &mut err,
        &TextFunctions,
        &orders,
        keep,
    );
    let journal = match &answer.journal {
        Some(journal) => journal_text(alloc, journal)?,
        None => Vec::new(alloc),
    };
    Ok(row.says(answer.status, out.bytes(), err.bytes(), &journal))
}

/// A row's call, which keeps each journal, leaves what the row says.
pub(crate) fn check<R: Threads + Wait + Sync + Abort>(
    rt: &R,
    alloc: Global,
    row: &Row,
) -> Result<(), Fail> {
    check_keeping(rt, alloc, row, Keep::Always)
}

/// A row's call, which keeps these journals, leaves what the row says.
pub(crate) fn check_keeping<R: Threads + Wait + Sync + Abort>(
    rt: &R,
    alloc: Global,
    row: &Row,
    keep: Keep,
) -> Result<(), Fail> {
    let words = list_of(alloc, row.words)?;
    let mut files = files_of(alloc, row)?;
    let is = leaves(rt, alloc, &words, &mut files, row, keep)?;
    assert!(rt; is, "{:?} {}{}", row.other, row.out, row.err);
    Ok(())
}

/// The call of each of these rows leaves what its row says.
pub(crate) fn check_all<R: Threads + Wait + Sync + Abort>(
    rt: &R,
    alloc: Global,
    rows: &[Row],
) -> Result<(), Fail> {
    for row in rows {
        check(rt, alloc, row)?;
    }
    Ok(())
}
