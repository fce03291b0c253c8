//! When streams live.

use abt_machine::{Items, ObjectNo, StreamNo};

/// When a stream lives: in each wave at whose start `begins` is ready and `ends` is not.
#[derive(Clone, Copy, Debug, PartialEq, Eq)]
pub struct Life {
    pub stream: StreamNo,
    pub begins: ObjectNo,
    pub ends: ObjectNo,
}

/// The lives of some of the streams of a workload. A stream without one lives all the time.
pub type Lives = Items<Life>;
