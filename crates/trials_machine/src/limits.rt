//! Parts with as much of one kind as a workload may have, and with one more.

use crate::parts::{Role, scheds, texts, units};
use abt_machine::{
    Access, Kind, Mains, Op, Parts, PoolNo, PoolPart, PoolParts, Rule, SchedNo, Thing, Things,
};
use std::alloc::{AllocError, Global};
use std::test::Fail;

// How many there are of what is declared without a line of its own below it.
#[derive(Clone, Copy)]
struct Counts {
    streams: u32,
    pools: usize,
    scheds: usize,
    objects: usize,
}

// One of each, and no object.
const FEW: Counts = Counts {
    streams: 1,
    pools: 1,
    scheds: 1,
    objects: 0,
};

// So many streams, pools that all may reach, schedulers of the first pool and eventuals, with these units and these words.
fn wide(
    alloc: Global,
    counts: Counts,
    rows: &[(Role, Option<PoolNo>)],
    words: &[&str],
) -> Result<Parts, AllocError> {
    let pool = PoolPart {
        kind: Kind::Fifo,
        access: Access::Mpmc,
    };
    let listed = [PoolNo(0)];
    let rule = (Rule::Basic, listed.as_slice());
    let mut mains = Vec::new(alloc);
    for s in 0..counts.streams {
        mains.push(SchedNo(s))?;
    }
    Ok(Parts {
        streams: counts.streams,
        keys: 0,
        pools: PoolParts::new(vec![in alloc; pool; counts.pools]?),
        scheds: scheds(alloc, &vec![in alloc; rule; counts.scheds]?)?,
        mains: Mains::new(mains),
        objects: Things::new(vec![in alloc; Thing::Eventual; counts.objects]?),
        units: units(alloc, rows)?,
        words: texts(alloc, words)?,
    })
}

// A word of 64 bytes.
const LONG: &str = "1234567890123456789012345678901234567890123456789012345678901234";

// Whether so many of each may be declared.
fn are_counts(alloc: Global, counts: Counts) -> Result<bool, AllocError> {
    Ok(wide(alloc, counts, &[], &[])?.is_valid())
}

// Whether this many streams may be declared, with a scheduler for each.
fn are_streams(alloc: Global, streams: u32) -> Result<bool, AllocError> {
    let scheds = streams as usize;
    are_counts(
        alloc,
        Counts {
            streams,
            scheds,
            ..FEW
        },
    )
}

// Whether this many units may be declared that do nothing.
fn are_units(alloc: Global, units: usize) -> Result<bool, AllocError> {
    let rows = vec![in alloc; (Role::Ult(&[]), None); units]?;
    Ok(wide(alloc, FEW, &rows, &[])?.is_valid())
}

// Whether a unit may have this many operations.
fn are_operations(alloc: Global, ops: usize) -> Result<bool, AllocError> {
    let ops = vec![in alloc; Op::Print; ops]?;
    Ok(wide(alloc, FEW, &[(Role::Ult(&ops), None)], &[])?.is_valid())
}

// Whether units may have this many operations in all, 4,096 each.
fn are_in_all(alloc: Global, ops: usize) -> Result<bool, AllocError> {
    let ops = vec![in alloc; Op::Print; ops]?;
    let mut rows = Vec::new(alloc);
    for printed in ops.chunks(4096) {
        rows.push((Role::Ult(printed), None))?;
    }
    Ok(wide(alloc, FEW, &rows, &[])?.is_valid())
}

// Whether units may say this many words in all, 256 each. Each operation says a word of its own, so that the text is longer
// than one of format 1 may be.
fn are_said(alloc: Global, words: u32) -> Result<bool, AllocError> {
    let mut ops = Vec::new(alloc);
    for word in 0..words {
        ops.push(Op::Say(word))?;
    }
    let mut rows = Vec::new(alloc);
    for said in ops.chunks(256) {
        rows.push((Role::Ult(said), Some(PoolNo(0))))?;
    }
    let words = vec![in alloc; LONG; words as usize]?;
    Ok(wide(alloc, FEW, &rows, &words)?.is_valid())
}

// What has a limit.
#[derive(Clone, Copy)]
enum Limit {
    Streams,
    Pools,
    Scheds,
    Objects,
    Units,
    OperationsOfAUnit,
    Operations,
    Words,
}

static ROWS: [(Limit, u32, bool); 20] = [
    (Limit::Streams, 17, true),
    (Limit::Streams, 64, true),
    (Limit::Streams, 65, false),
    (Limit::Pools, 65, true),
    (Limit::Pools, 1024, true),
    (Limit::Pools, 1025, false),
    (Limit::Scheds, 65, true),
    (Limit::Scheds, 1024, true),
    (Limit::Scheds, 1025, false),
    (Limit::Objects, 257, true),
    (Limit::Objects, 65536, true),
    (Limit::Objects, 65537, false),
    (Limit::Units, 4097, true),
    (Limit::Units, 65536, true),
    (Limit::Units, 65537, false),
    (Limit::OperationsOfAUnit, 4096, true),
    (Limit::OperationsOfAUnit, 4097, false),
    (Limit::Operations, 1_048_576, true),
    (Limit::Operations, 1_048_577, false),
    (Limit::Words, 65537, true),
];

// Whether parts with this much of it are valid.
fn are_valid(alloc: Global, limit: Limit, n: u32) -> Result<bool, AllocError> {
    let count = n as usize;
    match limit {
        Limit::Streams => are_streams(alloc, n),
        Limit::Pools => are_counts(
            alloc,
            Counts {
                pools: count,
                ..FEW
            },
        ),
        Limit::Scheds => are_counts(
            alloc,
            Counts {
                scheds: count,
                ..FEW
            },
        ),
        Limit::Objects => are_counts(
            alloc,
            Counts {
                objects: count,
                ..FEW
            },
        ),
        Limit::Units => are_units(alloc, count),
        Limit::OperationsOfAUnit => are_operations(alloc, count),
        Limit::Operations => are_in_all(alloc, count),
        Limit::Words => are_said(alloc, n),
    }
}

#[test]
fn parts_are_valid_up_to_each_limit(rt: HostRuntime) -> Result<(), Fail> {
    for (at, (limit, n, valid)) in ROWS.iter().enumerate() {
        let are_valid = are_valid(rt.alloc(), *limit, *n)?;
        assert!(rt; are_valid == *valid, "row {at}");
    }
    Ok(())
}
