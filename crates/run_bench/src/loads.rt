//! The workloads that are run.

ghost use Rattle.std.specs.Prelude.{◌<◌};

use abt_machine::Workload;
use abt_workload::{NotRead, read};
use std::alloc::{AllocError, Global};
use std::io;

/// A workload.
#[derive(Clone, Copy)]
pub enum Load {
    /// A stream whose units yield.
    One,
    /// Four streams, each as in `One`.
    Four,
    /// Four streams, of which one is as in `One` and the others have no unit.
    OneOfFour,
    /// Four streams whose units lock one mutex.
    Mutex,
    /// A stream that creates units, and three streams that take them from one pool.
    Pool,
    /// Four streams whose units wait at one barrier.
    Barrier,
    /// Four streams, and the units of all in the deque of one.
    Deque,
    /// A stream whose units yield often.
    Busy,
    /// The same, with one stream without a unit.
    BusyBesideOne,
    /// The same, with seven streams without a unit.
    BusyBesideSeven,
    /// A stream whose units set their accumulators.
    Setting,
    /// A stream whose units call as often.
    Calling,
    /// A stream whose units call once each.
    CallsOfOne,
    /// Two streams that have as many of these units together.
    CallsOfTwo,
    /// Four streams that have as many together.
    CallsOfFour,
}

pub const LOADS: [Load; 15] = [
    Load::One,
    Load::Four,
    Load::OneOfFour,
    Load::Mutex,
    Load::Pool,
    Load::Barrier,
    Load::Deque,
    Load::Busy,
    Load::BusyBesideOne,
    Load::BusyBesideSeven,
    Load::Setting,
    Load::Calling,
    Load::CallsOfOne,
    Load::CallsOfTwo,
    Load::CallsOfFour,
];

const ONE_STREAM: &str = "abt 2
streams 1
pool 0 fifo mpmc
sched 0 prio 0
stream 0 main 0
";

const FOUR_STREAMS: &str = "abt 2
streams 4
pool 0 fifo mpmc
pool 1 fifo mpmc
pool 2 fifo mpmc
pool 3 fifo mpmc
sched 0 prio 0
sched 1 prio 1
sched 2 prio 2
sched 3 prio 3
stream 0 main 0
stream 1 main 1
stream 2 main 2
stream 3 main 3
";

const BUSY_UNITS: &str = "units 200
many 0 200 ult at 0
repeat 250 yield
";

const FEW_UNITS: &str = "units 64
many 0 64 ult at 0
repeat 256 yield
";

static ONE: [&str; 2] = [ONE_STREAM, FEW_UNITS];

static ONE_OF_FOUR: [&str; 2] = [FOUR_STREAMS, FEW_UNITS];

static FOUR: [&str; 2] = [
    FOUR_STREAMS,
    "units 256
many 0 64 ult at 0
repeat 256 yield
many 64 64 ult at 1
repeat 256 yield
many 128 64 ult at 2
repeat 256 yield
many 192 64 ult at 3
repeat 256 yield
",
];

// The units that lock the mutex come after these.
static MUTEX: [&str; 2] = [FOUR_STREAMS, "object 0 mutex\nunits 4000\n"];

// The units that create these come after them.
static POOL: [&str; 1] = [
    "abt 2
streams 4
pool 0 fifo mpmc
pool 1 fifo mpmc
sched 0 prio 0
sched 1 prio 1
sched 2 prio 1
sched 3 prio 1
stream 0 main 0
stream 1 main 1
stream 2 main 2
stream 3 main 3
units 3840
many 0 3825 task later
repeat 8 add 1
",
];

static BARRIER: [&str; 2] = [
    FOUR_STREAMS,
    "object 0 barrier 4000
units 4000
many 0 1000 ult at 0
repeat 16 bwait 0
many 1000 1000 ult at 1
repeat 16 bwait 0
many 2000 1000 ult at 2
repeat 16 bwait 0
many 3000 1000 ult at 3
repeat 16 bwait 0
",
];

static DEQUE: [&str; 1] = [
    "abt 2
streams 4
pool 0 deque mpmc
pool 1 deque mpmc
pool 2 deque mpmc
pool 3 deque mpmc
sched 0 randws 1 0
sched 1 randws 2 1 0
sched 2 randws 3 2 0
sched 3 randws 4 3 0
stream 0 main 0
stream 1 main 1
stream 2 main 2
stream 3 main 3
units 4096
many 0 4096 task at 0
repeat 8 add 1
",
];

static BUSY: [&str; 2] = [ONE_STREAM, BUSY_UNITS];

static BUSY_BESIDE_ONE: [&str; 2] = [
    "abt 2
streams 2
pool 0 fifo mpmc
pool 1 fifo mpmc
sched 0 prio 0
sched 1 prio 1
stream 0 main 0
stream 1 main 1
",
    BUSY_UNITS,
];

static BUSY_BESIDE_SEVEN: [&str; 2] = [
    "abt 2
streams 8
pool 0 fifo mpmc
pool 1 fifo mpmc
pool 2 fifo mpmc
pool 3 fifo mpmc
pool 4 fifo mpmc
pool 5 fifo mpmc
pool 6 fifo mpmc
pool 7 fifo mpmc
sched 0 prio 0
sched 1 prio 1
sched 2 prio 2
sched 3 prio 3
sched 4 prio 4
sched 5 prio 5
sched 6 prio 6
sched 7 prio 7
stream 0 main 0
stream 1 main 1
stream 2 main 2
stream 3 main 3
stream 4 main 4
stream 5 main 5
stream 6 main 6
stream 7 main 7
",
    BUSY_UNITS,
];

static SETTING: [&str; 1] = [
    "abt 3
streams 1
pool 0 fifo mpmc
sched 0 prio 0
stream 0 main 0
units 64
many 0 64 ult at 0
repeat 1000 set 1
",
];

static CALLING: [&str; 1] = [
    "abt 3
streams 1
pool 0 fifo mpmc
sched 0 prio 0
stream 0 main 0
units 64
many 0 64 ult at 0
repeat 1000 call 0
",
];

static CALLS_OF_ONE: [&str; 1] = [
    "abt 3
streams 1
pool 0 fifo mpmc
sched 0 prio 0
stream 0 main 0
units 2048
many 0 2048 task at 0
call 0
",
];

static CALLS_OF_TWO: [&str; 1] = [
    "abt 3
streams 2
pool 0 fifo mpmc
pool 1 fifo mpmc
sched 0 prio 0
sched 1 prio 1
stream 0 main 0
stream 1 main 1
units 2048
many 0 1024 task at 0
call 0
many 1024 1024 task at 1
call 0
",
];

static CALLS_OF_FOUR: [&str; 1] = [
    "abt 3
streams 4
pool 0 fifo mpmc
pool 1 fifo mpmc
pool 2 fifo mpmc
pool 3 fifo mpmc
sched 0 prio 0
sched 1 prio 1
sched 2 prio 2
sched 3 prio 3
stream 0 main 0
stream 1 main 1
stream 2 main 2
stream 3 main 3
units 2048
many 0 512 task at 0
call 0
many 512 512 task at 1
call 0
many 1024 512 task at 2
call 0
many 1536 512 task at 3
call 0
",
];

// How many units of `Load::Pool` create others, and how many each creates.
const CREATORS: u32 = 15;

const CREATED: u32 = 255;

fn not_read(cause: NotRead) -> io::Error {
    io::Error::from(match cause {
        NotRead::Refused { .. } => io::ErrorKind::InvalidData,
        NotRead::Memory => io::ErrorKind::OutOfMemory,
    })
}

impl Load {
    pub fn name(self) -> &'static str {
        match self {
            Load::One => "one stream",
            Load::Four => "four streams",
            Load::OneOfFour => "one stream of four",
            Load::Mutex => "one mutex",
            Load::Pool => "one pool",
            Load::Barrier => "one barrier",
            Load::Deque => "one deque",
            Load::Busy => "a busy stream",
            Load::BusyBesideOne => "a busy stream beside an idle one",
            Load::BusyBesideSeven => "a busy stream beside seven idle ones",
            Load::Setting => "a stream that sets",
            Load::Calling => "a stream that calls",
            Load::CallsOfOne => "one stream of calls",
            Load::CallsOfTwo => "two streams of calls",
            Load::CallsOfFour => "four streams of calls",
        }
    }

    pub fn workload(self, alloc: Global) -> io::Result<Workload> {
        let text = self.text(alloc)?;
        read(alloc, text.as_bytes()).map_err(not_read)
    }

    fn text(self, alloc: Global) -> Result<String, AllocError> {
        let mut text = String::new(alloc);
        for piece in self.pieces() {
            text.push_str(piece)?;
        }
        match self {
            Load::Mutex => add_lockers(alloc, &mut text)?,
            Load::Pool => add_creators(alloc, &mut text)?,
            _ => {}
        }
        text.push_str("end\n")?;
        Ok(text)
    }

    // The pieces of its text, but for the units of `Mutex`, those of `Pool` that create others, and the last line.
    fn pieces(self) -> &'static [&'static str] {
        match self {
            Load::One => &ONE,
            Load::Four => &FOUR,
            Load::OneOfFour => &ONE_OF_FOUR,
            Load::Mutex => &MUTEX,
            Load::Pool => &POOL,
            Load::Barrier => &BARRIER,
            Load::Deque => &DEQUE,
            Load::Busy => &BUSY,
            Load::BusyBesideOne => &BUSY_BESIDE_ONE,
            Load::BusyBesideSeven => &BUSY_BESIDE_SEVEN,
            Load::Setting => &SETTING,
            Load::Calling => &CALLING,
            Load::CallsOfOne => &CALLS_OF_ONE,
            Load::CallsOfTwo => &CALLS_OF_TWO,
            Load::CallsOfFour => &CALLS_OF_FOUR,
        }
    }
}

// A thousand units in each pool, that lock the mutex eight times.
fn add_lockers(alloc: Global, text: &mut String) -> Result<(), AllocError> {
    for pool in 0..4_u32 {
        let unit = pool * 1000;
        text.push_str(&format!(in alloc; "many {unit} 1000 ult at {pool}\n")?)?;
        add_locks(text)?;
    }
    Ok(())
}

// The operations of one of them.
fn add_locks(text: &mut String) -> Result<(), AllocError> {
    for _ in 0..8 {
        text.push_str("lock 0\nunlock 0\n")?;
    }
    Ok(())
}

// The units in pool 0 that create those above.
fn add_creators(alloc: Global, text: &mut String) -> Result<(), AllocError> {
    for creator in 0..CREATORS {
        add_creator(alloc, text, creator)?;
    }
    Ok(())
}

// One of them, and the units that it creates.
fn add_creator(alloc: Global, text: &mut String, creator: u32) -> Result<(), AllocError>
    requires { creator < CREATORS }
{
    let unit = CREATORS * CREATED + creator;
    text.push_str(&format!(in alloc; "unit {unit} ult at 0\n")?)?;
    for created in 0..CREATED {
        let unit = creator * CREATED + created;
        text.push_str(&format!(in alloc; "create {unit} 1\n")?)?;
    }
    Ok(())
}
