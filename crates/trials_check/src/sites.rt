//! The object that each operation touches.

use abt_machine::{ObjectNo, PoolNo, Site, StreamNo, UnitNo};
use abt_plans::step_site;
use abt_workload::read;
use std::alloc::{AllocError, Global};
use std::test::Fail;

const HEAD: &str =
    "abt 3\nstreams 2\nkeys 1\npool 0 fifo spsc from 0 to 1\npool 1 deque priv of 1\npool 2 fifo mpmc\nsched 0 basic 1 0\nsched 1 prio 2\nstream 0 main 1\nstream 1 main 0\nobject 0 mutex\nobject 1 mutex\nobject 2 cond 1\nobject 3 cond 0\nobject 4 eventual\nobject 5 future 2 sum\nobject 6 barrier 3\nobject 7 rwlock\nunits 3\nunit 0 ult at 2\n";

const TAIL: &str = "unit 1 ult later\nunit 2 ult later\nend\n";

const DESK_2: Option<Site> = Some(Site::Desk(UnitNo(2)));

// The operations of unit 0, each with its site if stream 0 makes it and if stream 1 does.
static SITES: [(&str, Option<Site>, Option<Site>); 19] = [
    ("say a", None, None),
    ("calc add 0", None, None),
    ("call 0", None, None),
    ("yield", None, None),
    ("yieldto 1 0", None, Some(Site::Pool(PoolNo(0)))),
    (
        "suspend",
        Some(Site::Desk(UnitNo(0))),
        Some(Site::Desk(UnitNo(0))),
    ),
    ("exit", None, None),
    ("create 2 1", None, DESK_2),
    ("join 2", DESK_2, DESK_2),
    ("migrate 2 1", None, DESK_2),
    ("migrateto 2 1", None, DESK_2),
    (
        "lock 1",
        Some(Site::Monitor(ObjectNo(1))),
        Some(Site::Monitor(ObjectNo(1))),
    ),
    (
        "cwait 2",
        Some(Site::Monitor(ObjectNo(1))),
        Some(Site::Monitor(ObjectNo(1))),
    ),
    (
        "signal 3",
        Some(Site::Monitor(ObjectNo(0))),
        Some(Site::Monitor(ObjectNo(0))),
    ),
    (
        "ewait 4",
        Some(Site::Eventual(ObjectNo(4))),
        Some(Site::Eventual(ObjectNo(4))),
    ),
    (
        "fset 5",
        Some(Site::Future(ObjectNo(5))),
        Some(Site::Future(ObjectNo(5))),
    ),
    (
        "bwait 6",
        Some(Site::Barrier(ObjectNo(6))),
        Some(Site::Barrier(ObjectNo(6))),
    ),
    (
        "rwstore 7",
        Some(Site::Rw(ObjectNo(7))),
        Some(Site::Rw(ObjectNo(7))),
    ),
    ("set 1", None, None),
];

// The workload whose unit 0 has these operations.
fn text(alloc: Global) -> Result<String, AllocError> {
    let mut text = String::new(alloc);
    text.push_str(HEAD)?;
    for (line, _, _) in &SITES {
        writeln!(text, "{line}")?;
    }
    text.push_str(TAIL)?;
    Ok(text)
}

#[test]
fn operations_touch_sites(rt: HostRuntime) -> Result<(), Fail> {
    let text = text(rt.alloc())?;
    let w = read(rt.alloc(), text.as_bytes())?;
    assert!(rt; w.streams() == 2 && w.units() == 3);
    for (at, (line, by_first, by_second)) in SITES.iter().enumerate() {
        let at = at as u32;
        assert!(rt;
            step_site(&w, StreamNo(0), UnitNo(0), at) == *by_first,
            "{line}"
        );
        assert!(rt;
            step_site(&w, StreamNo(1), UnitNo(0), at) == *by_second,
            "{line}"
        );
    }
    // behind the last operation
    assert!(rt; step_site(&w, StreamNo(1), UnitNo(0), 19) == None);
    Ok(())
}
