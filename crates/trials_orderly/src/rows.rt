//! Worked rows: small workloads, and whether each is orderly.

use abt_flow::first_violation;
use abt_machine::Workload;
use abt_orderly::is_orderly;
use abt_workload::read;
use std::alloc::{AllocError, Global};
use std::test::Fail;

// One stream, whose main scheduler lists pool 0 and not pool 1, two eventuals and a barrier.
static HEAD: &str =
    "abt 3\nstreams 1\nkeys 1\npool 0 fifo mpmc\npool 1 fifo mpmc\nsched 0 basic 0\nstream 0 main 0\nobject 0 eventual\nobject 1 eventual\nobject 2 barrier 1\n";

// The units, and whether the workload is orderly.
static ROWS: [(&str, bool); 18] = [
    ("units 1\nunit 0 ult at 0\n", true),
    // who waits first waits until it is set
    (
        "units 2\nunit 0 ult at 0\newait 0\nunit 1 ult at 0\neset 0\n",
        true,
    ),
    // it waits before it sets, and each waits for the other
    ("units 1\nunit 0 ult at 0\newait 0\neset 0\n", false),
    ("units 1\nunit 0 ult at 0\neset 0\newait 0\n", true),
    (
        "units 2\nunit 0 ult at 0\newait 0\neset 1\nunit 1 ult at 0\newait 1\neset 0\n",
        false,
    ),
    (
        "units 2\nunit 0 ult at 0\neset 1\newait 0\nunit 1 ult at 0\newait 1\neset 0\n",
        true,
    ),
    // nobody sets it, or only a unit that is not reached
    ("units 1\nunit 0 ult at 0\newait 0\n", false),
    (
        "units 2\nunit 0 ult at 0\newait 0\nunit 1 ult later\neset 0\n",
        false,
    ),
    // joins: of another, of each other, of itself, of a unit that is not reached
    ("units 2\nunit 0 ult at 0\njoin 1\nunit 1 ult at 0\n", true),
    (
        "units 2\nunit 0 ult at 0\njoin 1\nunit 1 ult at 0\njoin 0\n",
        false,
    ),
    ("units 1\nunit 0 ult at 0\njoin 0\n", false),
    (
        "units 2\nunit 0 ult at 0\njoin 1\nunit 1 ult later\n",
        false,
    ),
    // a pool that no main scheduler lists, at a start and at a creation
    ("units 1\nunit 0 ult at 1\n", false),
    (
        "units 2\nunit 0 ult at 0\ncreate 1 1\nunit 1 ult later\n",
        false,
    ),
    // a barrier, even of one party
    ("units 1\nunit 0 ult at 0\nbwait 2\n", false),
    // a chain of creates, whose last unit sets what the first waits for
    (
        "units 3\nunit 0 ult at 0\ncreate 1 0\newait 0\njoin 2\nunit 1 ult later\ncreate 2 0\nunit 2 ult later\neset 0\n",
        true,
    ),
    // a unit waits before it creates who sets
    (
        "units 2\nunit 0 ult at 0\newait 0\ncreate 1 0\nunit 1 ult later\neset 0\n",
        false,
    ),
    // units that are not reached create each other
    (
        "units 3\nunit 0 ult at 0\nunit 1 ult later\ncreate 2 0\nunit 2 ult later\ncreate 1 0\n",
        false,
    ),
];

// The workload of these units.
fn workload(alloc: Global, units: &str) -> Result<Workload, Fail> {
    let mut text = String::from_str(alloc, HEAD)?;
    push_all(&mut text, &[units, "end\n"])?;
    Ok(read(alloc, text.as_bytes())?)
}

// Appends these parts.
fn push_all(text: &mut String, parts: &[&str]) -> Result<(), AllocError> {
    for part in parts {
        text.push_str(part)?;
    }
    Ok(())
}

// Whether the workload is confluent, and is orderly or not, as is wanted.
fn is_as_wanted(alloc: Global, w: &Workload, wanted: bool) -> Result<bool, Fail> {
    if first_violation(alloc, w)?.is_some() {
        return Ok(false);
    }
    Ok(is_orderly(alloc, w)? == wanted)
}

#[test]
fn each_condition_is_asked(rt: HostRuntime) -> Result<(), Fail> {
    for (units, wanted) in &ROWS {
        let w = workload(rt.alloc(), units)?;
        let is = is_as_wanted(rt.alloc(), &w, *wanted)?;
        assert!(rt; is, "{units}");
    }
    Ok(())
}
