//! The local operations of a unit, and its other calls.

ghost use Rattle.std.specs.Prelude.{◌<◌, length};
ghost use Rattle.abt_unit.specs.Fits.{Fits};

use abt_machine::{Code, Op, Piece, PoolNo, UnitNo, Workload};
use abt_unit::Unit;
use abt_workload::read;
use std::alloc::Global;
use std::process::Abort;
use std::test::Fail;

// One unit, which does each local operation.
const LOCAL: &str = "abt 1
streams 1
keys 1
pool 0 fifo mpmc
sched 0 prio 0
stream 0 main 0
units 1
unit 0 ult at 0
set 7
kset 0
add 18446744073709551614
say hi
print
kget 0
print
end
";

fn step(rt: &impl Abort, unit: &mut Unit, w: &Workload)
    requires { Fits w.now unit.old.owned }
    ensures { Fits w.now unit.new.owned }
{
    assert!(rt; unit.reserve_output().is_ok());
    match w.op(unit.number(), unit.position()) {
        Some(Op::Set(_) | Op::Add(_) | Op::Say(_) | Op::Print | Op::KeySet(_) | Op::KeyGet(_)) => {
            unit.step_local(w)
        }
        _ => panic!(rt; "no local operation"),
    }
}

// All of its operations, and what they leave.
fn does_all(rt: &impl Abort, unit: &mut Unit, w: &Workload)
    requires { Fits w.now unit.old.owned }
{
    for _ in 0..7 {
        step(rt, unit, w);
    }
    assert_eq!(rt; unit.position(), 7);
    assert_eq!(rt; unit.acc(), 7);
    assert_eq!(rt; first_key(rt, unit, w), 7);
    assert_eq!(rt; unit.home(), PoolNo(0));
    assert_eq!(rt;
        unit.output(),
        [Piece::Said(0), Piece::Number(5), Piece::Number(7)].as_slice()
    );
}

fn first_key(rt: &impl Abort, unit: &Unit, w: &Workload) -> u64
    requires { Fits w.now unit.now.owned }
{
    assert!(rt; w.keys() > 0);
    unit.key(0)
}

// The first unit does all of its operations.
fn first_does_all(rt: &impl Abort, alloc: Global, w: &Workload) -> Result<(), Fail>
    requires { 0 < length w.now.units }
{
    let mut unit = Unit::make(alloc, w, UnitNo(0))?;
    does_all(rt, &mut unit, w);
    Ok(())
}

// The first unit begins a further life after a step that is refused and one that is taken back.
fn first_begins_anew(rt: &impl Abort, alloc: Global, w: &Workload) -> Result<(), Fail>
    requires { 0 < length w.now.units }
{
    let mut unit = Unit::make(alloc, w, UnitNo(0))?;
    lives_on(rt, &mut unit);
    assert_eq!(rt;
        (unit.position(), unit.acc(), unit.home()),
        (0, 0, PoolNo(2))
    );
    assert_eq!(rt; unit.output(), [Piece::Refused(Code::NotOwner)].as_slice());
    Ok(())
}

fn lives_on(rt: &impl Abort, unit: &mut Unit) {
    assert!(rt; unit.reserve_output().is_ok());
    unit.note(Code::NotOwner);
    assert_eq!(rt; unit.position(), 0);
    unit.advance();
    assert_eq!(rt; unit.position(), 1);
    unit.retreat();
    assert_eq!(rt; unit.position(), 0);
    unit.advance();
    unit.receive(9);
    unit.set_home(PoolNo(1));
    assert_eq!(rt;
        (unit.position(), unit.acc(), unit.home()),
        (1, 9, PoolNo(1))
    );
    unit.begin_life(PoolNo(2));
}

#[test]
fn local_operations_do_their_rows(rt: HostRuntime) -> Result<(), Fail> {
    let w = read(rt.alloc(), LOCAL.as_bytes())?;
    assert_eq!(rt; w.units(), 1);
    first_does_all(&rt, rt.alloc(), &w)
}

#[test]
fn calls_change_what_a_unit_carries(rt: HostRuntime) -> Result<(), Fail> {
    let w = read(rt.alloc(), LOCAL.as_bytes())?;
    assert_eq!(rt; w.units(), 1);
    first_begins_anew(&rt, rt.alloc(), &w)
}
