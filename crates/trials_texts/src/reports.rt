//! The two reports on one picture, which has a unit at each kind of place and each kind of output.

ghost use Rattle.std.specs.Prelude.{◌≡◌, ◌<◌, [], All, IfOk, length};
ghost use Rattle.abt_report.specs.Pictures.{SaysWordsOf};

use abt_machine::{
    Cause, Code, ObjectNo, Op, Outcome, Output, Piece, PoolNo, Shown, StreamNo, UnitNo, Want,
    Workload,
};
use abt_report::{Picture, Row, report, short_report};
use abt_workload::read;
use std::alloc::{AllocError, Global};
use std::process::Abort;
use std::test::Fail;

// Ten units, the first of which says two words.
static WORKLOAD: &str = "abt 1
streams 2
pool 0 fifo mpmc
pool 1 fifo mpmc
sched 0 prio 0
sched 1 prio 1
sched 2 prio 1
stream 0 main 0
stream 1 main 1
object 0 mutex
object 1 eventual
units 10
unit 0 ult at 0
say hi
say on
unit 1 ult later
unit 2 ult later
unit 3 ult later
unit 4 ult later
unit 5 ult later
unit 6 ult later
unit 7 ult later
unit 8 sched 2 later
unit 9 ult later
end
";

// What unit 0 put out.
static OUTPUT: [Piece; 15] = [
    Piece::Said(1),
    Piece::Number(u64::MAX),
    Piece::Said(0),
    Piece::Refused(Code::PoolAccess),
    Piece::Refused(Code::Exists),
    Piece::Refused(Code::UnitState),
    Piece::Refused(Code::NotMigratable),
    Piece::Refused(Code::Absent),
    Piece::Refused(Code::MutexLocked),
    Piece::Refused(Code::NotOwner),
    Piece::Refused(Code::EventualSet),
    Piece::Refused(Code::FutureFull),
    Piece::Refused(Code::RwHeld),
    Piece::Refused(Code::RwFull),
    Piece::Refused(Code::NotHolder),
];

// The places of the units after unit 0.
static PLACES: [Shown; 9] = [
    Shown::Unborn,
    Shown::Pool(PoolNo(1)),
    Shown::Stream(StreamNo(1)),
    Shown::Suspended,
    Shown::Join(UnitNo(4)),
    Shown::Object(ObjectNo(1)),
    Shown::Ended(Cause::Asked),
    Shown::Ended(Cause::Access),
    Shown::Ended(Cause::Own),
];

static REPORT: &str =
    "unit 0 done: on 18446744073709551615 hi !pool-access !exists !unit-state !not-migratable !absent !mutex-locked !not-owner !eventual-set !future-full !rw-held !rw-full !not-holder
unit 1 unborn:
unit 2 pool 1:
unit 3 stream 1:
unit 4 suspended:
unit 5 join 4:
unit 6 object 1:
unit 7 asked:
unit 8 access:
unit 9 exited:
tally units 10 unborn 1 pool 1 stream 1 blocked 3 done 2 asked 1 access 1 steps 12
stuck
";

static SHORT: &str =
    "unit 0 done: on 18446744073709551615 hi !pool-access !exists !unit-state !not-migratable !absent !mutex-locked !not-owner !eventual-set !future-full !rw-held !rw-full !not-holder
tally units 10 unborn 1 pool 1 stream 1 blocked 3 done 2 asked 1 access 1 steps 18446744073709551615
budget 1
";

// The workload has two words.
fn check_words(rt: &impl Abort, w: &Workload)
    ensures { 1 < length w.now.words }
{
    assert!(rt; 0 < w.units());
    let Some(Op::Say(1)) = w.op(UnitNo(0), 1) else {
        panic!(rt; "unit 0 says two words");
    };
    w.known();
}

// A unit there that put out nothing.
fn silent(alloc: Global, shown: Shown) -> Row
    ensures { result.output ≡ [] }
{
    Row {
        shown,
        output: Output::new(Vec::new(alloc)),
    }
}

// Unit 0 with its output, and the others at their places.
fn picture(alloc: Global, w: &Workload) -> Result<Picture, AllocError>
    requires { 1 < length w.now.words }
    ensures { IfOk result (All (SaysWordsOf w.now)) }
{
    let first = Row {
        shown: Shown::Ended(Cause::Done),
        output: Output::new(Vec::from_slice(alloc, &OUTPUT)?),
    };
    let mut rows = vec![in alloc; first]?;
    for shown in &PLACES {
        rows.push(silent(alloc, *shown))?;
    }
    Ok(Picture::new(rows))
}

// Whether both reports are these.
fn are_written(rt: &impl Abort, alloc: Global, w: &Workload) -> Result<bool, Want> {
    check_words(rt, w);
    let picture = picture(alloc, w)?;
    assert!(rt; !picture.items().is_empty());
    let long = match report(alloc, w, &picture, Outcome::Stuck, 12) {
        Ok(text) => text.as_slice() == REPORT.as_bytes(),
        Err(Want) => false,
    };
    let end = Outcome::Budget(StreamNo(1));
    let short = match short_report(alloc, w, &picture, end, u64::MAX) {
        Ok(text) => text.as_slice() == SHORT.as_bytes(),
        Err(Want) => false,
    };
    Ok(long && short)
}

// Whether they are, of the workload here.
fn are_reports(rt: &impl Abort, alloc: Global) -> Result<bool, Fail> {
    let w = read(alloc, WORKLOAD.as_bytes())?;
    Ok(are_written(rt, alloc, &w)?)
}

#[test]
fn reports_are_written_out(rt: HostRuntime) -> Result<(), Fail> {
    let they_are = are_reports(&rt, rt.alloc())?;
    assert!(rt; they_are);
    Ok(())
}
