//! Confluent workloads and their flows, and workloads that miss one condition of confluence each.

ghost use Rattle.std.specs.Prelude.{◌≤◌};
ghost use Rattle.abt_machine.specs.Limits.{function_limit};

use abt_flow::{Flow, Violation, find_flow, first_violation};
use abt_functions::TextFunctions;
use abt_machine::{Piece, Want, Workload};
use abt_work::{AnyWork, Work};
use abt_workload::read;
use std::alloc::{AllocError, Global};
use std::test::Fail;

// What stands before the access of the pool, and what between that and the number of units.
static HEAD: &str = "abt 3\nstreams 1\nkeys 1\npool 0 fifo ";

static OBJECTS: &str =
    "\nsched 0 basic 0\nstream 0 main 0\nobject 0 eventual\nobject 1 eventual\nobject 2 mutex\nobject 3 rwlock\n";

// So many units, of which the first starts.
static TWO: &str = "units 2\nunit 0 ult at 0\n";

static THREE: &str = "units 3\nunit 0 ult at 0\n";

// An open pool.
const OPEN: &str = "mpmc";

// Unit 1 sets eventual 0, and starts or is created.
const SETS: &str = "unit 1 ult at 0\nset 1\neset 0\n";

const SETS_LATER: &str = "unit 1 ult later\nset 1\neset 0\n";

// The access of the pool, unit 0's operations, unit 1, and the unit and the position of the first operation by which the workload
// is not confluent.
static CONFLUENCE: [(&str, &str, &str, Option<(u32, u32)>); 13] = [
    (OPEN, "ewait 0\n", SETS, None),
    (OPEN, "create 1 0\n", SETS_LATER, None),
    ("mpsc to 0", "create 1 0\n", SETS_LATER, None),
    (OPEN, "call 0\ncalc gcd 0\n", SETS, None),
    (OPEN, "trylock 2\n", SETS, Some((0, 0))),
    (OPEN, "add 1\nrdlock 3\nrdlock 3\n", SETS, Some((0, 1))),
    // the second operation that sets or creates is the one that is named
    (OPEN, "eset 0\n", SETS, Some((1, 1))),
    (OPEN, "eset 0\neset 1\neset 0\n", SETS, Some((0, 2))),
    (
        OPEN,
        "create 1 0\n",
        "unit 1 ult later\ncreate 1 0\n",
        Some((1, 0)),
    ),
    (OPEN, "create 1 0\n", SETS, Some((0, 0))),
    ("priv of 0", "create 1 0\n", SETS_LATER, Some((0, 0))),
    // one that depends on the schedule comes before or after a second one that sets
    (
        OPEN,
        "eset 0\n",
        "unit 1 ult at 0\neset 0\nexit\n",
        Some((1, 0)),
    ),
    (OPEN, "eset 0\nexit\n", SETS, Some((0, 1))),
];

// It calls a function, and computes with what that returns.
const CALLS: &str = "set 27\ncall 0\nkset 0\nset 18\ncalc gcd 0\nprint\neset 0\n";

// Unit 0's operations, two more units, and what each puts out, if there is a flow.
static FLOWS: [(&str, &str, Option<[&[Piece]; 3]>); 7] = [
    (
        "set 9\nkset 0\newait 0\nprint\nkget 0\nprint\n",
        "unit 1 ult at 0\nset 4\nadd 1\neset 0\nprint\nunit 2 ult later\nset 4\n",
        Some([
            &[Piece::Number(5), Piece::Number(9)],
            &[Piece::Number(5)],
            &[],
        ]),
    ),
    // a unit waits before it creates who sets
    (
        "ewait 0\nprint\ncreate 1 0\n",
        "unit 1 ult later\nset 3\neset 0\nunit 2 ult later\n",
        Some([&[Piece::Number(3)], &[], &[]]),
    ),
    (
        "",
        "unit 1 ult at 0\nunit 2 ult later\n",
        Some([&[], &[], &[]]),
    ),
    // Collatz's sequence from 27 has 112 terms, and 2 is the greatest that divides 112 and 18
    (
        CALLS,
        "unit 1 ult at 0\newait 0\nprint\nunit 2 ult later\n",
        Some([&[Piece::Number(2)], &[Piece::Number(2)], &[]]),
    ),
    // it waits for itself, for one that waits for it, and for one that is not reached
    (
        "ewait 0\neset 0\n",
        "unit 1 ult later\nunit 2 ult later\n",
        None,
    ),
    (
        "ewait 0\neset 1\n",
        "unit 1 ult at 0\newait 1\neset 0\nunit 2 ult later\n",
        None,
    ),
    (
        "ewait 0\n",
        "unit 1 ult later\neset 0\nunit 2 ult later\n",
        None,
    ),
];

// Appends these parts.
fn push_all(text: &mut String, parts: &[&str]) -> Result<(), AllocError> {
    for part in parts {
        text.push_str(part)?;
    }
    Ok(())
}

// One stream with one pool, two eventuals, a mutex and a reader-writer lock, and so many units, which have one key each.
fn workload(
    alloc: Global,
    access: &str,
    units: &str,
    first: &str,
    others: &str,
) -> Result<Workload, Fail> {
    let mut text = String::from_str(alloc, HEAD)?;
    push_all(&mut text, &[access, OBJECTS, units, first, others, "end\n"])?;
    Ok(read(alloc, text.as_bytes())?)
}

// The first operation by which the workload of two units is not confluent.
fn violation_in(
    alloc: Global,
    access: &str,
    first: &str,
    second: &str,
) -> Result<Option<Violation>, Fail> {
    let w = workload(alloc, access, TWO, first, second)?;
    Ok(first_violation(alloc, &w)?)
}

#[test]
fn each_condition_is_asked(rt: HostRuntime) -> Result<(), Fail> {
    for (access, first, second, wanted) in &CONFLUENCE {
        let found = violation_in(rt.alloc(), access, first, second)?;
        let at = found.map(|violation| (violation.unit.0, violation.position));
        assert!(rt; at == *wanted, "{first}{second}");
    }
    Ok(())
}

// Whether the units put this out.
fn puts_out(flow: &Flow, wanted: &[&[Piece]]) -> bool {
    flow.items().len() == wanted.len()
        && flow
            .items()
            .iter()
            .zip(wanted)
            .all(|(row, output)| row.items() == *output)
}

// Whether the workload is confluent, and its units put this out by its flow with these functions or have no flow.
#[tactic(auto, using(crate::proofs::Storing::stores_calls))]
fn has_flow<P: Work>(
    alloc: Global,
    w: &Workload,
    work: &P,
    wanted: Option<[&[Piece]; 3]>,
) -> Result<bool, Want>
    requires calls { function_limit ≤ P.count work.now }
{
    if first_violation(alloc, w)?.is_some() {
        return Ok(false);
    }
    w.known();
    Ok(match (find_flow(alloc, w, work)?, wanted) {
        (Some(flow), Some(outputs)) => puts_out(&flow, &outputs),
        (None, None) => true,
        _ => false,
    })
}

// So it is of three units, which call the functions of texts.
fn flows(
    alloc: Global,
    first: &str,
    others: &str,
    wanted: Option<[&[Piece]; 3]>,
) -> Result<bool, Fail> {
    let w = workload(alloc, OPEN, THREE, first, others)?;
    Ok(has_flow(alloc, &w, &TextFunctions, wanted)?)
}

// Whether two units of which the first calls a function that may return any word have no flow.
fn has_none(alloc: Global) -> Result<bool, Fail> {
    let w = workload(alloc, OPEN, TWO, CALLS, "unit 1 ult later\n")?;
    Ok(has_flow(alloc, &w, &AnyWork, None)?)
}

#[test]
fn free_functions_have_no_flow(rt: HostRuntime) -> Result<(), Fail> {
    let has = has_none(rt.alloc())?;
    assert!(rt; has);
    Ok(())
}

#[test]
fn values_flow_from_sets_to_waits(rt: HostRuntime) -> Result<(), Fail> {
    for (first, others, wanted) in &FLOWS {
        let is = flows(rt.alloc(), first, others, *wanted)?;
        assert!(rt; is, "{first}{others}");
    }
    Ok(())
}
