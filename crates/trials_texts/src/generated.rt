//! The workloads of one, three and 126 adders, written out, and those of 1 to 126 read again.

ghost use Rattle.std.specs.Prelude.{◌≤◌, ◌<◌};
ghost use Rattle.abt_machine.specs.Limits.{adder_limit};

use crate::writings::is_written;
use abt_generate::generate;
use abt_workload::write;
use std::alloc::Global;
use std::test::Fail;

// The lines before the schedulers.
static POOLS: &str =
    "abt 1\nstreams 4\npool 0 deque mpmc\npool 1 deque mpmc\npool 2 deque mpmc\npool 3 deque mpmc\n";

// The lines between the schedulers and the units.
static STREAMS: &str =
    "stream 0 main 0\nstream 1 main 1\nstream 2 main 2\nstream 3 main 3\nobject 0 mutex\n";

// The lines of the schedulers and those of the units, of one adder and of three.
static ONE: (&str, &str) = (
    "sched 0 randws 1 0 1 2 3\nsched 1 randws 2 1 0 2 3\nsched 2 randws 3 2 0 1 3\nsched 3 randws 4 3 0 1 2\n",
    "units 2\nunit 0 ult at 0\ncreate 1 1\njoin 1\nlock 0\nload 0\nprint\nunlock 0\nunit 1 ult later\nyield\nlock 0\nload 0\nadd 1\nstore 0\nunlock 0\nend\n",
);

static THREE: (&str, &str) = (
    "sched 0 randws 3 0 1 2 3\nsched 1 randws 4 1 0 2 3\nsched 2 randws 5 2 0 1 3\nsched 3 randws 6 3 0 1 2\n",
    "units 4\nunit 0 ult at 0\ncreate 1 1\ncreate 2 2\ncreate 3 3\njoin 1\njoin 2\njoin 3\nlock 0\nload 0\nprint\nunlock 0\nunit 1 ult later\nyield\nlock 0\nload 0\nadd 1\nstore 0\nunlock 0\nunit 2 ult later\nyield\nlock 0\nload 0\nadd 2\nstore 0\nunlock 0\nunit 3 ult later\nyield\nlock 0\nload 0\nadd 3\nstore 0\nunlock 0\nend\n",
);

// Parts of the text for 126 adders.
static PARTS_OF_MOST: [&str; 6] = [
    "sched 3 randws 129 3 0 1 2\n",
    "units 127\nunit 0 ult at 0\ncreate 1 1\ncreate 2 2\ncreate 3 3\ncreate 4 0\n",
    "create 125 1\ncreate 126 2\njoin 1\njoin 2\n",
    "join 125\njoin 126\nlock 0\nload 0\nprint\nunlock 0\nunit 1 ult later\nyield\n",
    "add 125\nstore 0\nunlock 0\nunit 126 ult later\nyield\nlock 0\n",
    "lock 0\nload 0\nadd 126\nstore 0\nunlock 0\nend\n",
];

// The text of the workload of so many adders.
fn text_of(alloc: Global, adders: u32) -> Result<String, Fail>
    requires { (0 < adders) × (adders ≤ adder_limit) }
{
    let w = generate(alloc, adders)?;
    let text = write(alloc, &w)?;
    Ok(String::from_utf8(text)?)
}

// Whether the text of so many adders has these lines of schedulers and of units.
fn has_lines(alloc: Global, adders: u32, lines: (&str, &str)) -> Result<bool, Fail>
    requires { (0 < adders) × (adders ≤ adder_limit) }
{
    let (scheds, units) = lines;
    let text = text_of(alloc, adders)?;
    let wanted = format!(in alloc; "{POOLS}{scheds}{STREAMS}{units}")?;
    Ok(text.as_str() == wanted.as_str())
}

// The first part that the text for 126 adders lacks, if it lacks one.
fn lacking(text: &str) -> Option<&'static str> {
    for part in &PARTS_OF_MOST {
        if !text.contains(*part) {
            return Some(part);
        }
    }
    None
}

#[test]
fn adders_are_written_out(rt: HostRuntime) -> Result<(), Fail> {
    let one = has_lines(rt.alloc(), 1, ONE)?;
    let three = has_lines(rt.alloc(), 3, THREE)?;
    let most = text_of(rt.alloc(), 126)?;
    let lacking = lacking(&most);
    assert!(rt; one && three && lacking.is_none(), "{lacking:?}");
    Ok(())
}

#[test]
fn adders_are_read_again(rt: HostRuntime) -> Result<(), Fail> {
    for adders in 1..127 {
        let text = text_of(rt.alloc(), adders)?;
        let is = is_written(rt.alloc(), text.as_bytes(), text.as_bytes());
        assert!(rt; is, "{adders} adders");
    }
    Ok(())
}
