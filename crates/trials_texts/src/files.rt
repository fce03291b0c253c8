//! Whole files read: of the process, and in memory.

use abt_source::{Files, MemoryFiles, NamedBytes, NotFetched, RealFiles, read_all};
use std::alloc::{AllocError, Global};
use std::fs;
use std::test::Fail;

const NAME: &str = "real-files-whole";

// Whether the file is read so, if no more than `most` bytes are asked for.
fn is_read(rt: &HostRuntime, alloc: Global, most: u32, wanted: &[u8]) -> Result<bool, NotFetched> {
    let mut files = RealFiles::new(rt, alloc);
    let read = read_all(alloc, &mut files, NAME, most as usize)?;
    Ok(read.as_slice() == wanted)
}

#[test]
fn a_written_file_is_read_whole(rt: HostRuntime) -> Result<(), Fail> {
    let alloc = rt.alloc();
    // More than one read asks for.
    let written = vec![in alloc; b'x'; 20_000]?;
    fs::write(&rt, NAME, written.as_slice())?;
    let whole = is_read(&rt, alloc, 30_000, &written);
    let prefix = is_read(&rt, alloc, 9_999, &written[..10_000]);
    fs::remove_file(&rt, NAME)?;
    assert!(rt; whole == Ok(true) && prefix == Ok(true));
    Ok(())
}

// Whether that name is not fetched.
fn is_not_fetched(alloc: Global, files: &mut RealFiles<'_, HostRuntime>, name: &str) -> bool {
    matches!(read_all(alloc, files, name, 9), Err(NotFetched::Failed))
}

#[test]
fn an_absent_name_and_a_folder_are_not_fetched(rt: HostRuntime) {
    let mut files = RealFiles::new(&rt, rt.alloc());
    let absent = is_not_fetched(rt.alloc(), &mut files, "real-files-absent");
    let nothing = files.read(&mut [0]) == Ok(0);
    let folder = is_not_fetched(rt.alloc(), &mut files, ".");
    assert!(rt; absent && nothing && folder);
}

// A file in memory whose call of this number fails.
fn failing(alloc: Global, call: u64) -> Result<MemoryFiles, AllocError> {
    let file = NamedBytes {
        name: String::from_str(alloc, "a")?,
        bytes: Vec::from_slice(alloc, b"first")?,
    };
    Ok(MemoryFiles::new(vec![in alloc; file]?, vec![in alloc; call]?))
}

#[test]
fn three_calls_read_a_file(rt: HostRuntime) -> Result<(), Fail> {
    for call in 0..4 {
        let mut files = failing(rt.alloc(), call)?;
        let fault = read_all(rt.alloc(), &mut files, "a", 9).err();
        assert!(rt;
            fault == (call < 3).then_some(NotFetched::Failed),
            "call {call}"
        );
    }
    Ok(())
}
