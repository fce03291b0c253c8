//! Calls of the program of views, and what they leave.

use crate::command_words::list_of;
use abt_source::{MemoryFiles, MemorySink, NamedBytes};
use abt_view::abtview;
use std::alloc::{AllocError, Global};
use std::test::Fail;

const NOTHING: &str = "{\"traceEvents\":[
{\"ph\":\"M\",\"pid\":0,\"name\":\"process_name\",\"args\":{\"name\":\"abtrun\"}}
]}
";

const REFUSED: &str = "{\"traceEvents\":[
{\"ph\":\"M\",\"pid\":0,\"name\":\"process_name\",\"args\":{\"name\":\"abtrun\"}},
{\"ph\":\"M\",\"pid\":0,\"tid\":0,\"name\":\"thread_name\",\"args\":{\"name\":\"stream 0\"}},
{\"ph\":\"M\",\"pid\":0,\"tid\":0,\"name\":\"thread_sort_index\",\"args\":{\"sort_index\":0}},
{\"ph\":\"X\",\"pid\":0,\"tid\":0,\"ts\":1.0,\"dur\":1.8,\"cat\":\"stretch\",\"name\":\"unit 7\",\"args\":{\"unit\":7}},
{\"ph\":\"X\",\"pid\":0,\"tid\":0,\"ts\":1.1,\"dur\":0.6,\"cat\":\"event\",\"name\":\"take\",\"args\":{\"unit\":7}},
{\"ph\":\"X\",\"pid\":0,\"tid\":0,\"ts\":2.1,\"dur\":0.6,\"cat\":\"event\",\"name\":\"refused\",\"args\":{\"unit\":7,\"code\":\"absent\"}},
{\"ph\":\"i\",\"pid\":0,\"tid\":0,\"ts\":2.4,\"s\":\"t\",\"name\":\"refused, unit 7\"}
]}
";

const CALLED: &str = "{\"traceEvents\":[
{\"ph\":\"M\",\"pid\":0,\"name\":\"process_name\",\"args\":{\"name\":\"abtrun\"}},
{\"ph\":\"M\",\"pid\":0,\"tid\":0,\"name\":\"thread_name\",\"args\":{\"name\":\"stream 0\"}},
{\"ph\":\"M\",\"pid\":0,\"tid\":0,\"name\":\"thread_sort_index\",\"args\":{\"sort_index\":0}},
{\"ph\":\"X\",\"pid\":0,\"tid\":0,\"ts\":1.0,\"dur\":1.8,\"cat\":\"stretch\",\"name\":\"unit 7\",\"args\":{\"unit\":7}},
{\"ph\":\"X\",\"pid\":0,\"tid\":0,\"ts\":1.1,\"dur\":0.6,\"cat\":\"event\",\"name\":\"take\",\"args\":{\"unit\":7}},
{\"ph\":\"X\",\"pid\":0,\"tid\":0,\"ts\":2.1,\"dur\":0.6,\"cat\":\"event\",\"name\":\"call\",\"args\":{\"unit\":7,\"value\":\"18446744073709551615\"}},
{\"ph\":\"i\",\"pid\":0,\"tid\":0,\"ts\":2.4,\"s\":\"t\",\"name\":\"call, unit 7, returned 18446744073709551615\"}
]}
";

const EXITED: &str = "{\"traceEvents\":[
{\"ph\":\"M\",\"pid\":0,\"name\":\"process_name\",\"args\":{\"name\":\"abtrun\"}},
{\"ph\":\"M\",\"pid\":0,\"tid\":0,\"name\":\"thread_name\",\"args\":{\"name\":\"stream 0\"}},
{\"ph\":\"M\",\"pid\":0,\"tid\":0,\"name\":\"thread_sort_index\",\"args\":{\"sort_index\":0}},
{\"ph\":\"X\",\"pid\":0,\"tid\":0,\"ts\":1.0,\"dur\":0.8,\"cat\":\"stretch\",\"name\":\"unit 7\",\"args\":{\"unit\":7}},
{\"ph\":\"X\",\"pid\":0,\"tid\":0,\"ts\":1.1,\"dur\":0.6,\"cat\":\"event\",\"name\":\"own\",\"args\":{\"unit\":7}},
{\"ph\":\"i\",\"pid\":0,\"tid\":0,\"ts\":1.4,\"s\":\"t\",\"name\":\"own, unit 7\"}
]}
";

const WOKEN: &str = "{\"traceEvents\":[
{\"ph\":\"M\",\"pid\":0,\"name\":\"process_name\",\"args\":{\"name\":\"abtrun\"}},
{\"ph\":\"M\",\"pid\":0,\"tid\":0,\"name\":\"thread_name\",\"args\":{\"name\":\"stream 0\"}},
{\"ph\":\"M\",\"pid\":0,\"tid\":0,\"name\":\"thread_sort_index\",\"args\":{\"sort_index\":0}},
{\"ph\":\"M\",\"pid\":0,\"tid\":1,\"name\":\"thread_name\",\"args\":{\"name\":\"stream 1\"}},
{\"ph\":\"M\",\"pid\":0,\"tid\":1,\"name\":\"thread_sort_index\",\"args\":{\"sort_index\":1}},
{\"ph\":\"X\",\"pid\":0,\"tid\":0,\"ts\":1.0,\"dur\":0.8,\"cat\":\"stretch\",\"name\":\"unit 7\",\"args\":{\"unit\":7}},
{\"ph\":\"X\",\"pid\":0,\"tid\":1,\"ts\":3.0,\"dur\":0.8,\"cat\":\"stretch\",\"name\":\"unit 8\",\"args\":{\"unit\":8}},
{\"ph\":\"X\",\"pid\":0,\"tid\":0,\"ts\":1.1,\"dur\":0.6,\"cat\":\"event\",\"name\":\"step\",\"args\":{\"unit\":7,\"code\":\"ok\"}},
{\"ph\":\"X\",\"pid\":0,\"tid\":0,\"ts\":2.1,\"dur\":0.6,\"cat\":\"event\",\"name\":\"put\",\"args\":{\"unit\":8}},
{\"ph\":\"X\",\"pid\":0,\"tid\":1,\"ts\":3.1,\"dur\":0.6,\"cat\":\"event\",\"name\":\"take\",\"args\":{\"unit\":8}},
{\"ph\":\"s\",\"pid\":0,\"tid\":0,\"ts\":1.4,\"bp\":\"e\",\"cat\":\"pool\",\"name\":\"unit 8\",\"id\":\"200\"},
{\"ph\":\"t\",\"pid\":0,\"tid\":0,\"ts\":2.4,\"bp\":\"e\",\"cat\":\"pool\",\"name\":\"unit 8\",\"id\":\"200\"},
{\"ph\":\"f\",\"pid\":0,\"tid\":1,\"ts\":3.4,\"bp\":\"e\",\"cat\":\"pool\",\"name\":\"unit 8\",\"id\":\"200\"}
]}
";

// A unit says a word with signs that have a meaning in XML or in JSON, calls a function, and prints what that returned.
const WORKLOAD: &str = "abt 3
streams 1
pool 0 fifo mpmc
sched 0 prio 0
stream 0 main 0
units 1
unit 0 ult at 0
say <\"\\&'>
call 0
print
end
";

const NAMED: &str = "{\"traceEvents\":[
{\"ph\":\"M\",\"pid\":0,\"name\":\"process_name\",\"args\":{\"name\":\"abtrun\"}},
{\"ph\":\"M\",\"pid\":0,\"tid\":0,\"name\":\"thread_name\",\"args\":{\"name\":\"stream 0\"}},
{\"ph\":\"M\",\"pid\":0,\"tid\":0,\"name\":\"thread_sort_index\",\"args\":{\"sort_index\":0}},
{\"ph\":\"X\",\"pid\":0,\"tid\":0,\"ts\":1.0,\"dur\":3.8,\"cat\":\"stretch\",\"name\":\"unit 0\",\"args\":{\"unit\":0}},
{\"ph\":\"X\",\"pid\":0,\"tid\":0,\"ts\":5.0,\"dur\":0.8,\"cat\":\"stretch\",\"name\":\"unit 1\",\"args\":{\"unit\":1}},
{\"ph\":\"X\",\"pid\":0,\"tid\":0,\"ts\":1.1,\"dur\":0.6,\"cat\":\"event\",\"name\":\"look\",\"args\":{\"unit\":0}},
{\"ph\":\"X\",\"pid\":0,\"tid\":0,\"ts\":2.1,\"dur\":0.6,\"cat\":\"event\",\"name\":\"step\",\"args\":{\"unit\":0,\"operation\":\"say <\\\"\\\\&'>\",\"code\":\"ok\"}},
{\"ph\":\"X\",\"pid\":0,\"tid\":0,\"ts\":3.1,\"dur\":0.6,\"cat\":\"event\",\"name\":\"call\",\"args\":{\"unit\":0,\"operation\":\"call 0\",\"value\":\"7\"}},
{\"ph\":\"i\",\"pid\":0,\"tid\":0,\"ts\":3.4,\"s\":\"t\",\"name\":\"call, unit 0, returned 7\"},
{\"ph\":\"X\",\"pid\":0,\"tid\":0,\"ts\":4.1,\"dur\":0.6,\"cat\":\"event\",\"name\":\"step\",\"args\":{\"unit\":0,\"code\":\"ok\"}},
{\"ph\":\"X\",\"pid\":0,\"tid\":0,\"ts\":5.1,\"dur\":0.6,\"cat\":\"event\",\"name\":\"step\",\"args\":{\"unit\":1,\"code\":\"ok\"}}
]}
";

// A run of the workload, with what its steps put out.
const TOLD: &str = "{\"traceEvents\":[
{\"ph\":\"M\",\"pid\":0,\"name\":\"process_name\",\"args\":{\"name\":\"abtrun\"}},
{\"ph\":\"M\",\"pid\":0,\"tid\":0,\"name\":\"thread_name\",\"args\":{\"name\":\"stream 0\"}},
{\"ph\":\"M\",\"pid\":0,\"tid\":0,\"name\":\"thread_sort_index\",\"args\":{\"sort_index\":0}},
{\"ph\":\"X\",\"pid\":0,\"tid\":0,\"ts\":1.0,\"dur\":4.8,\"cat\":\"stretch\",\"name\":\"unit 0\",\"args\":{\"unit\":0}},
{\"ph\":\"X\",\"pid\":0,\"tid\":0,\"ts\":1.1,\"dur\":0.6,\"cat\":\"event\",\"name\":\"take\",\"args\":{\"unit\":0}},
{\"ph\":\"X\",\"pid\":0,\"tid\":0,\"ts\":2.1,\"dur\":0.6,\"cat\":\"event\",\"name\":\"look\",\"args\":{\"unit\":0}},
{\"ph\":\"X\",\"pid\":0,\"tid\":0,\"ts\":3.1,\"dur\":0.6,\"cat\":\"event\",\"name\":\"step\",\"args\":{\"unit\":0,\"operation\":\"say <\\\"\\\\&'>\",\"code\":\"ok\",\"output\":\"<\\\"\\\\&'>\"}},
{\"ph\":\"X\",\"pid\":0,\"tid\":0,\"ts\":4.1,\"dur\":0.6,\"cat\":\"event\",\"name\":\"call\",\"args\":{\"unit\":0,\"operation\":\"call 0\",\"value\":\"7\"}},
{\"ph\":\"i\",\"pid\":0,\"tid\":0,\"ts\":4.4,\"s\":\"t\",\"name\":\"call, unit 0, returned 7\"},
{\"ph\":\"X\",\"pid\":0,\"tid\":0,\"ts\":5.1,\"dur\":0.6,\"cat\":\"event\",\"name\":\"step\",\"args\":{\"unit\":0,\"operation\":\"print\",\"code\":\"ok\",\"output\":\"7\"}}
]}
";

const LONG: &str =
    "<svg xmlns='http://www.w3.org/2000/svg' width='720' height='40'><text x='10' y='25'>a picture has at most 20,000 events and no stamp above 20,000: use abtview trace</text></svg>\n";

// Words with a comma between each two, the text of the file `f` (that of `w` is WORKLOAD), the write of the output that fails, the status, the output and
// the message.
type Row = (
    &'static str,
    &'static str,
    u64,
    u8,
    &'static str,
    &'static str,
);

static ROWS: [Row; 31] = [
    ("trace,f", "", NEVER, 0, NOTHING, ""),
    (
        "trace,f",
        "1 0 take 0 7\n2 0 step 7 0 absent\n",
        NEVER,
        0,
        REFUSED,
        "",
    ),
    ("trace,f", "1 0 end 7 own\n", NEVER, 0, EXITED, ""),
    (
        "trace,f",
        "1 0 take 0 7\n2 0 call 7 0 18446744073709551615\n",
        NEVER,
        0,
        CALLED,
        "",
    ),
    (
        "trace,f",
        "1 0 step 7 0 ok\n2 0 put 8 0\n3 1 take 0 8\n",
        NEVER,
        0,
        WOKEN,
        "",
    ),
    ("svg,f", "20001 0 miss 0\n", NEVER, 8, LONG, ""),
    (
        "svg,f",
        "18446744073709551615 0 miss 0\n",
        NEVER,
        8,
        LONG,
        "",
    ),
    // the operations of a workload: an event may name a position or a unit that it does not have
    (
        "trace,f,w",
        "1 0 look 0\n2 0 step 0 0 ok\n3 0 call 0 1 7\n4 0 step 0 3 ok\n5 0 step 1 0 ok\n",
        NEVER,
        0,
        NAMED,
        "",
    ),
    (
        "trace,f,w",
        "1 0 take 0 0\n2 0 look 0\n3 0 step 0 0 ok\n4 0 call 0 1 7\n5 0 step 0 2 ok\n",
        NEVER,
        0,
        TOLD,
        "",
    ),
    ("svg,f,w", "20001 0 miss 0\n", NEVER, 8, LONG, ""),
    // what the program says of itself, for the only word
    (
        "--help",
        "",
        2,
        6,
        "abtview draws the ",
        "abtview: cannot write\n",
    ),
    (
        "--version",
        "",
        NEVER,
        0,
        "abtview 1, proved by the logic dac8208d650f15bf\n",
        "",
    ),
    (
        "--help,f",
        "",
        NEVER,
        2,
        "",
        "abtview: bad command line\nusage: abtview svg|trace JOURNAL [WORKLOAD]\n",
    ),
    // words that say nothing
    (
        "svg",
        "",
        NEVER,
        2,
        "",
        "abtview: bad command line\nusage: abtview svg|trace JOURNAL [WORKLOAD]\n",
    ),
    (
        "svg,f,w,w",
        "",
        NEVER,
        2,
        "",
        "abtview: bad command line\nusage: abtview svg|trace JOURNAL [WORKLOAD]\n",
    ),
    (
        "svg,f,",
        "",
        NEVER,
        2,
        "",
        "abtview: bad command line\nusage: abtview svg|trace JOURNAL [WORKLOAD]\n",
    ),
    (
        "svg,-,-",
        "",
        NEVER,
        2,
        "",
        "abtview: bad command line\nusage: abtview svg|trace JOURNAL [WORKLOAD]\n",
    ),
    (
        "draw,f",
        "",
        NEVER,
        2,
        "",
        "abtview: bad command line\nusage: abtview svg|trace JOURNAL [WORKLOAD]\n",
    ),
    // texts that are no journal's
    ("svg,f", "\n", NEVER, 3, "", "abtview: line 1: journal\n"),
    (
        "trace,f",
        "1 0 miss 0\n2 0 miss 0",
        NEVER,
        3,
        "",
        "abtview: line 2: journal\n",
    ),
    (
        "trace,f",
        "1 0 miss 0\n2 0 miss 00\n",
        NEVER,
        3,
        "",
        "abtview: line 2: journal\n",
    ),
    (
        "svg,f",
        "1 0 miss 0\n2 0 miss 0\nfinished\n",
        NEVER,
        3,
        "",
        "abtview: line 3: journal\n",
    ),
    // a workload is read first
    ("svg,w,f", "\n", NEVER, 3, "", "abtview: line 2: no-end\n"),
    (
        "trace,f,w",
        "1 0 miss 0\n\n",
        NEVER,
        3,
        "",
        "abtview: line 2: journal\n",
    ),
    (
        "trace,absent,f",
        "abt 1\nstreams\n",
        NEVER,
        3,
        "",
        "abtview: line 2: shape\nform: streams N\n",
    ),
    // numbers that are too large for a journal
    (
        "svg,f",
        "18446744073709551616 0 miss 0\n",
        NEVER,
        3,
        "",
        "abtview: line 1: journal\n",
    ),
    (
        "trace,f",
        "1 0 miss 0\n2 4294967296 miss 0\n",
        NEVER,
        3,
        "",
        "abtview: line 2: journal\n",
    ),
    // a file that is absent, and a write that fails
    (
        "svg,absent",
        "",
        NEVER,
        5,
        "",
        "abtview: cannot read\nabsent: absent\n",
    ),
    (
        "svg,absent,w",
        "",
        NEVER,
        5,
        "",
        "abtview: cannot read\nabsent: absent\n",
    ),
    (
        "svg,f,absent",
        "\n",
        NEVER,
        5,
        "",
        "abtview: cannot read\nabsent: absent\n",
    ),
    (
        "trace,f",
        "",
        2,
        6,
        "{\"traceEvents\":[\n{",
        "abtview: cannot write\n",
    ),
];

// More bytes than any output has.
const ROOM: usize = 10_000;

// More writes than any call makes.
const NEVER: u64 = 1_000_000;

// A file of this name with this text.
fn file_of(alloc: Global, name: &str, text: &str) -> Result<NamedBytes, AllocError> {
    Ok(NamedBytes {
        name: String::from_str(alloc, name)?,
        bytes: Vec::from_slice(alloc, text.as_bytes())?,
    })
}

// The file `f` with this text, and the file `w` with the workload.
fn files_of(alloc: Global, text: &str) -> Result<MemoryFiles, AllocError> {
    let mut files = Vec::new(alloc);
    files.push(file_of(alloc, "f", text)?)?;
    files.push(file_of(alloc, "w", WORKLOAD)?)?;
    Ok(MemoryFiles::new(files, Vec::new(alloc)))
}

// Whether a call with these words over the file leaves what the row says. No write takes more than 9 bytes.
fn leaves(
    alloc: Global,
    words: &[String],
    files: &mut MemoryFiles,
    row: Row,
) -> Result<bool, Fail> {
    let (_, _, failing, status, wanted, message) = row;
    let mut out = MemorySink::new(alloc, ROOM, 9, vec![in alloc; failing]?)?;
    let mut err = MemorySink::new(alloc, ROOM, ROOM, Vec::new(alloc))?;
    Ok(
        abtview(alloc, words, files, &mut out, &mut err) == status
            && out.bytes() == wanted.as_bytes()
            && err.bytes() == message.as_bytes(),
    )
}

// Whether a row's call leaves what the row says.
fn is_left(alloc: Global, row: Row) -> Result<bool, Fail> {
    let words = list_of(alloc, row.0)?;
    let mut files = files_of(alloc, row.1)?;
    leaves(alloc, &words, &mut files, row)
}

#[test]
fn calls_leave_what_their_rows_say(rt: HostRuntime) -> Result<(), Fail> {
    for row in &ROWS {
        let is = is_left(rt.alloc(), *row)?;
        assert!(rt; is, "{}: {}", row.0, row.1);
    }
    Ok(())
}
