//! Worked rows of the lines that only format 2 has, and of the same lines in format 1.

use crate::rows::ONE_POOL;

pub(crate) const ONE_POOL_OF_TWO: &str =
    "abt 2\nstreams 1\npool 0 fifo mpmc\nsched 0 prio 0\nstream 0 main 0\n";

pub(crate) const ONE_POOL_OF_THREE: &str =
    "abt 3\nstreams 1\npool 0 fifo mpmc\nsched 0 prio 0\nstream 0 main 0\n";

const TWO_SCHEDS_OF_TWO: &str =
    "abt 2\nstreams 1\npool 0 fifo mpmc\nsched 0 prio 0\nsched 1 prio 0\nstream 0 main 0\n";

/// The lines of texts that finish, below the head of one pool in format 2, and their reports.
pub(crate) static FINISHED: [(&[u8], &str); 4] = [
    // repeat
    (
        b"units 1\nunit 0 ult at 0\nrepeat 3 add 2\nprint\nend\n",
        "unit 0 done: 6\ntally units 1 unborn 0 pool 0 stream 0 blocked 0 done 1 asked 0 access 0 steps 4\nfinished\n",
    ),
    // many that say words, and one more
    (
        b"units 4\nmany 0 3 ult at 0\nsay hi\nrepeat 2 say ho\nunit 3 task at 0\nsay on\nend\n",
        "unit 0 done: hi ho ho\nunit 1 done: hi ho ho\nunit 2 done: hi ho ho\nunit 3 done: on\ntally units 4 unborn 0 pool 0 stream 0 blocked 0 done 4 asked 0 access 0 steps 10\nfinished\n",
    ),
    // many later
    (
        b"units 3\nmany 0 2 ult later\nprint\nunit 2 ult at 0\ncreate 1 0\nend\n",
        "unit 0 unborn:\nunit 1 done: 0\nunit 2 done:\ntally units 3 unborn 1 pool 0 stream 0 blocked 0 done 2 asked 0 access 0 steps 2\nfinished\n",
    ),
    // the most operations of a unit
    (
        b"units 1\nunit 0 ult at 0\nrepeat 255 add 2\nprint\nend\n",
        "unit 0 done: 510\ntally units 1 unborn 0 pool 0 stream 0 blocked 0 done 1 asked 0 access 0 steps 256\nfinished\n",
    ),
];

/// Heads and lines of texts that are refused, and their messages.
pub(crate) static REFUSED: [(&str, &[u8], &str); 15] = [
    // repeat in format 1
    (
        ONE_POOL,
        b"units 1\nunit 0 ult at 0\nrepeat 3 add 2\nprint\nend\n",
        "abtrun: line 8: unknown\n",
    ),
    // many in format 1
    (
        ONE_POOL,
        b"units 2\nmany 0 2 ult at 0\nend\n",
        "abtrun: line 7: unknown\n",
    ),
    // no format
    ("abt 4\nstreams 1\n", b"", "abtrun: line 1: version\n"),
    // many before units
    (
        ONE_POOL_OF_TWO,
        b"many 0 2 ult at 0\nend\n",
        "abtrun: line 6: shape\na line of this form must not stand here\n",
    ),
    // repeat of repeat
    (
        ONE_POOL_OF_TWO,
        b"units 1\nunit 0 ult at 0\nrepeat 2 repeat 2 print\nend\n",
        "abtrun: line 8: shape\nform: repeat N OP\n",
    ),
    // repeat before any unit
    (
        ONE_POOL_OF_TWO,
        b"units 1\nrepeat 2 print\nend\n",
        "abtrun: line 7: shape\na line of this form must not stand here\n",
    ),
    // repeat of no number
    (
        ONE_POOL_OF_TWO,
        b"units 1\nunit 0 ult at 0\nrepeat two print\nend\n",
        "abtrun: line 8: number\n",
    ),
    // two units of one scheduler
    (
        TWO_SCHEDS_OF_TWO,
        b"units 2\nmany 0 2 sched 1 at 0\nend\n",
        "abtrun: line 8: twice\n",
    ),
    // declared already
    (
        ONE_POOL_OF_TWO,
        b"units 3\nmany 0 2 ult at 0\nmany 1 2 ult at 0\nend\n",
        "abtrun: line 8: twice\n",
    ),
    // more than there are
    (
        ONE_POOL_OF_TWO,
        b"units 3\nmany 0 4 ult at 0\nend\n",
        "abtrun: line 7: undeclared\n",
    ),
    // none
    (
        ONE_POOL_OF_TWO,
        b"units 3\nmany 0 0 ult at 0\nend\n",
        "abtrun: line 7: limit\n",
    ),
    // too many operations
    (
        ONE_POOL_OF_TWO,
        b"units 1\nunit 0 ult at 0\nrepeat 257 add 2\nprint\nend\n",
        "abtrun: line 8: limit\n",
    ),
    // too many operations of all units
    (
        ONE_POOL_OF_TWO,
        b"units 4096\nmany 0 4096 ult at 0\nrepeat 16 print\nprint\nend\n",
        "abtrun: line 9: limit\n",
    ),
    // more units than format 1 has
    (ONE_POOL, b"units 257\nend\n", "abtrun: line 6: limit\n"),
    // a task that would yield
    (
        ONE_POOL_OF_TWO,
        b"units 1\nunit 0 task at 0\nrepeat 2 yield\nend\n",
        "abtrun: line 8: task-blocks\n",
    ),
];
