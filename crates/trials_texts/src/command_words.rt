//! Lists of words, with the command that they say, if they say one.

use abt_machine::Format;
use abt_words::{Command, Schedule, Shows, WordFault, allowed_steps, default_steps, words};
use std::alloc::{AllocError, Global};
use std::test::Fail;

// A command: to run a file, with the steps of each stream, if they are asked for, whether the journal is wanted, and how streams take
// turns; to run it and say what units wait for; to run what is made of so many units; to check the journal of the second file against
// the workload of the first; to show its end or its report; to check an output, and what units wait for or not; to ask for the flow of a
// file; to ask for its ends, in so many states, or for the end of a number, and whether its journal is wanted; and to ask for the words
// and the version.
#[derive(Clone, Copy)]
enum Wanted {
    Run(&'static str, Option<u64>, bool, Schedule),
    Why(&'static str),
    SelfRun(u32),
    Check(&'static str, &'static str),
    Judge(&'static str, &'static str, Shows),
    CheckOutput(&'static str, &'static str, bool),
    Flow(&'static str),
    Explore(&'static str, Option<u64>, Option<u64>, bool),
    Help,
    Version,
}

// Words with a comma between each two, and the command that they say.
static SAID: [(&str, Wanted); 55] = [
    ("run,f", Wanted::Run("f", None, false, Schedule::Threads)),
    (
        "run,run",
        Wanted::Run("run", None, false, Schedule::Threads),
    ),
    ("run,-", Wanted::Run("-", None, false, Schedule::Threads)),
    (
        "run,f,--journal",
        Wanted::Run("f", None, true, Schedule::Threads),
    ),
    (
        "run,--journal,f",
        Wanted::Run("f", None, true, Schedule::Threads),
    ),
    (
        "run,f,--steps,5",
        Wanted::Run("f", Some(5), false, Schedule::Threads),
    ),
    (
        "run,--steps,5,f",
        Wanted::Run("f", Some(5), false, Schedule::Threads),
    ),
    (
        "run,f,--steps=5",
        Wanted::Run("f", Some(5), false, Schedule::Threads),
    ),
    (
        "run,--steps=5,--journal,f",
        Wanted::Run("f", Some(5), true, Schedule::Threads),
    ),
    (
        "run,--journal,f,--steps,5",
        Wanted::Run("f", Some(5), true, Schedule::Threads),
    ),
    (
        "run,f,--steps,1",
        Wanted::Run("f", Some(1), false, Schedule::Threads),
    ),
    (
        "run,f,--steps,100000",
        Wanted::Run("f", Some(100_000), false, Schedule::Threads),
    ),
    (
        "run,f,--steps,100001",
        Wanted::Run("f", Some(100_001), false, Schedule::Threads),
    ),
    (
        "run,f,--steps,16777216",
        Wanted::Run("f", Some(16_777_216), false, Schedule::Threads),
    ),
    (
        "run,f,--steps,000000000000000000000000000007",
        Wanted::Run("f", Some(7), false, Schedule::Threads),
    ),
    ("run,--,f", Wanted::Run("f", None, false, Schedule::Threads)),
    (
        "run,--,-x",
        Wanted::Run("-x", None, false, Schedule::Threads),
    ),
    (
        "run,--journal,--,--steps",
        Wanted::Run("--steps", None, true, Schedule::Threads),
    ),
    (
        "run,--,--",
        Wanted::Run("--", None, false, Schedule::Threads),
    ),
    ("run,f,--", Wanted::Run("f", None, false, Schedule::Threads)),
    (
        "run,f,--steps,7,--",
        Wanted::Run("f", Some(7), false, Schedule::Threads),
    ),
    (
        "run,a b=c",
        Wanted::Run("a b=c", None, false, Schedule::Threads),
    ),
    (
        "run,f,--in-turn",
        Wanted::Run("f", None, false, Schedule::InTurn),
    ),
    (
        "run,--in-turn,--steps,5,f,--journal",
        Wanted::Run("f", Some(5), true, Schedule::InTurn),
    ),
    (
        "run,f,--seed,0",
        Wanted::Run("f", None, false, Schedule::Seed(0)),
    ),
    (
        "run,--seed=007,--steps,5,f,--journal",
        Wanted::Run("f", Some(5), true, Schedule::Seed(7)),
    ),
    (
        "run,f,--seed,18446744073709551615",
        Wanted::Run("f", None, false, Schedule::Seed(u64::MAX)),
    ),
    ("run,--why,f", Wanted::Why("f")),
    ("self,1", Wanted::SelfRun(1)),
    ("self,126", Wanted::SelfRun(126)),
    ("self,007", Wanted::SelfRun(7)),
    ("self,--,9", Wanted::SelfRun(9)),
    ("self,9,--", Wanted::SelfRun(9)),
    ("check,w,j", Wanted::Check("w", "j")),
    ("check,-,j", Wanted::Check("-", "j")),
    ("check,w,-", Wanted::Check("w", "-")),
    ("check,w,w", Wanted::Check("w", "w")),
    ("check,w,--,-j", Wanted::Check("w", "-j")),
    ("check,--end,w,j", Wanted::Judge("w", "j", Shows::End)),
    ("check,w,o,--report", Wanted::CheckOutput("w", "o", false)),
    (
        "check,--why,w,--report,-",
        Wanted::CheckOutput("w", "-", true),
    ),
    (
        "check,--report,--,w,--why",
        Wanted::CheckOutput("w", "--why", false),
    ),
    (
        "run,f,--schedule,j",
        Wanted::Judge("f", "j", Shows::Report { why: false }),
    ),
    (
        "run,--why,--schedule=-,f",
        Wanted::Judge("f", "-", Shows::Report { why: true }),
    ),
    ("flow,f", Wanted::Flow("f")),
    ("flow,-", Wanted::Flow("-")),
    ("flow,--,--", Wanted::Flow("--")),
    ("explore,f", Wanted::Explore("f", None, None, false)),
    ("explore,-", Wanted::Explore("-", None, None, false)),
    (
        "explore,f,--end,3",
        Wanted::Explore("f", None, Some(3), false),
    ),
    (
        "explore,--end=003,f,--journal",
        Wanted::Explore("f", None, Some(3), true),
    ),
    (
        "explore,f,--states,1000000",
        Wanted::Explore("f", Some(1_000_000), None, false),
    ),
    (
        "explore,--states=1,--end,1000000,--,-f",
        Wanted::Explore("-f", Some(1), Some(1_000_000), false),
    ),
    ("--help", Wanted::Help),
    ("--version", Wanted::Version),
];

// Words that spell nothing.
static REFUSED: [&str; 128] = [
    "",
    "walk",
    "Run,f",
    "f,run",
    "--,run,f",
    "--journal,run,f",
    "--help,f",
    "--version,--help",
    "--help,--",
    "help",
    "-h",
    "run",
    "run,",
    "run,f,",
    "run,f,g",
    "run,-,-",
    "run,--journal",
    "run,--journal,f,--journal",
    "run,f,--journal=x",
    "run,f,--journal=",
    "run,f,--journals",
    "run,f,--jour",
    "run,f,-journal",
    "run,f,--steps,0",
    "run,f,--steps,16777217",
    "run,f,--steps,18446744073709551621",
    "run,f,--steps,+5",
    "run,f,--steps,-5",
    "run,f,--steps,-",
    "run,f,--steps,5x",
    "run,f,--steps, 5",
    "run,f,--steps,",
    "run,f,--steps=",
    "run,f,--steps=+5",
    "run,f,--steps=-5",
    "run,f,--steps==5",
    "run,f,--steps",
    "run,--steps,f",
    "run,f,--steps,--journal",
    "run,--steps,--,5,f",
    "run,f,--steps,5,--steps,5",
    "run,f,--steps=5,--steps,6",
    "run,f,--step,5",
    "run,f,--help",
    "run,-h",
    "run,--version",
    "run,-V",
    "run,-x",
    "run,f,--=5",
    "run,--",
    "run,--,f,--journal",
    "run,--,",
    "run,f,--why,--why",
    "run,f,--why=1",
    "run,f,--in-turn,--in-turn",
    "run,f,--in-turn=1",
    "run,f,--in-turns",
    "run,f,--seed",
    "run,f,--seed,",
    "run,f,--seed,+1",
    "run,f,--seed,-1",
    "run,f,--seed,x",
    "run,f,--seed,18446744073709551616",
    "run,f,--seed,1,--seed,1",
    "run,f,--seed,1,--in-turn",
    "self,1,--seed,1",
    "run,f,--schedule",
    "run,f,--schedule,",
    "run,-,--schedule,-",
    "run,f,g,--schedule,j",
    "run,f,--schedule,j,--schedule,j",
    "run,f,--schedule,j,--journal",
    "run,f,--schedule,j,--steps,5",
    "run,f,--schedule,j,--seed,1",
    "run,f,--schedule,j,--in-turn",
    "run,f,--schedule,j,--why,--why",
    "check,w,j,--end,--end",
    "check,w,j,--end=1",
    "check,w,j,--why",
    "check,w,j,--report,--end",
    "check,w,j,--report,--report",
    "check,-,-,--report",
    "check,w,j,--schedule,k",
    "run,f,--end,1",
    "run,f,--states,5",
    "self",
    "self,0",
    "self,127",
    "self,+1",
    "self,-1",
    "self,-",
    "self,1,2",
    "self,1,--journal",
    "self,--steps,1",
    "self,--help",
    "check",
    "check,w",
    "check,w,j,k",
    "check,-,-",
    "check,,j",
    "check,w,",
    "check,,",
    "check,w,j,--journal",
    "check,w,-j",
    "check,--steps,w,j",
    "flow",
    "flow,",
    "flow,f,g",
    "flow,-f",
    "flow,f,--steps,5",
    "explore",
    "explore,",
    "explore,f,1",
    "explore,f,g",
    "explore,f,--end",
    "explore,f,--end,0",
    "explore,f,--end,1000001",
    "explore,f,--end,+1",
    "explore,f,--end,x",
    "explore,f,--end,1,--end,1",
    "explore,f,--end,1,2",
    "explore,f,--states,0",
    "explore,f,--states,1000001",
    "explore,f,--states=1,--states=1",
    "explore,f,--journal",
    "explore,f,--states,5,--journal",
    "explore,f,--end,1,--journal,--journal",
    "explore,f,--steps,5",
];

// The words of a row.
pub(crate) fn list_of(alloc: Global, row: &str) -> Result<Vec<String>, AllocError> {
    let mut list = Vec::new(alloc);
    for word in row.split(',') {
        list.push(String::from_str(alloc, word)?)?;
    }
    Ok(list)
}

// The command that the words of a row say, if they say one. Out of memory is the test's own failure.
fn said(alloc: Global, row: &str) -> Result<Option<Command>, WordFault> {
    let list = list_of(alloc, row)?;
    match words(alloc, &list) {
        Ok(command) => Ok(Some(command)),
        Err(WordFault::Bad) => Ok(None),
        Err(WordFault::Memory) => Err(WordFault::Memory),
    }
}

// Whether the command is this one.
fn is_command(command: &Command, wanted: &Wanted) -> bool {
    match (command, wanted) {
        (Command::Run(run), Wanted::Run(name, asked, wants, turns)) => {
            run.file.as_str() == *name
                && run.steps == *asked
                && run.journal == *wants
                && run.schedule == *turns
                && !run.why
        }
        (Command::Run(run), Wanted::Why(name)) => run.file.as_str() == *name && run.why,
        (Command::SelfRun { units }, Wanted::SelfRun(wanted)) => units == wanted,
        (Command::Check(check), Wanted::Check(first, second)) => {
            check.workload.as_str() == *first
                && check.journal.as_str() == *second
                && check.shows == Shows::Verdict
        }
        (Command::Check(check), Wanted::Judge(first, second, shows)) => {
            check.workload.as_str() == *first
                && check.journal.as_str() == *second
                && check.shows == *shows
        }
        (Command::CheckOutput(check), Wanted::CheckOutput(first, second, why)) => {
            check.workload.as_str() == *first
                && check.output.as_str() == *second
                && check.why == *why
        }
        (Command::Flow { file }, Wanted::Flow(name)) => file.as_str() == *name,
        (Command::Explore(explore), Wanted::Explore(name, most, wanted, wants)) => {
            explore.file.as_str() == *name
                && explore.states == *most
                && explore.end == *wanted
                && explore.journal == *wants
        }
        (Command::Help, Wanted::Help) => true,
        (Command::Version, Wanted::Version) => true,
        _ => false,
    }
}

#[test]
fn words_say_commands(rt: HostRuntime) -> Result<(), Fail> {
    for (row, wanted) in &SAID {
        let is = match said(rt.alloc(), row)? {
            Some(command) => is_command(&command, wanted),
            None => false,
        };
        assert!(rt; is, "{row}");
    }
    Ok(())
}

#[test]
fn other_words_say_nothing(rt: HostRuntime) -> Result<(), Fail> {
    assert!(rt; matches!(words(rt.alloc(), &[]), Err(WordFault::Bad)));
    for row in &REFUSED {
        assert!(rt; said(rt.alloc(), row)?.is_none(), "{row}");
    }
    Ok(())
}

// A format, how many steps each stream may make if no word asks for a number, how many a word may ask for, and one step more.
static LIMITS: [(Format, u64, u64, u64); 3] = [
    (Format::One, 10_000, 100_000, 100_001),
    (Format::Two, 10_000, 100_000, 100_001),
    (Format::Three, 16_777_216, 16_777_216, 16_777_217),
];

#[test]
fn formats_limit_steps(rt: HostRuntime) -> Result<(), Fail> {
    for (format, default, most, beyond) in &LIMITS {
        assert!(rt; default_steps(*format) == *default);
        assert!(rt; allowed_steps(*format, None) == Some(*default));
        assert!(rt; allowed_steps(*format, Some(*most)) == Some(*most));
        assert!(rt; allowed_steps(*format, Some(*beyond)).is_none());
    }
    Ok(())
}
