//! Logs and histories grow by one turn of a stream.

ghost use Rattle.abt_interleave.specs.Laws.{CourseGrows, GatheredGrows, LegalGrows, MatchedGrows};

use crate::machine::AnyMachine;

/// A log stays one with one more deed of its stream, which has a later stamp.
pub fn course_grows<M: AnyMachine>()
    ensures { CourseGrows M.machine }
{}

/// A history stays legal with one more entry, which has a later stamp.
pub fn legal_grows<M: AnyMachine>()
    ensures { LegalGrows M.machine }
{}

/// Logs and histories that fit each other still do with one more deed and its entry.
pub fn matched_grows<M: AnyMachine>()
    ensures { MatchedGrows M.machine }
{}

/// Gathered logs and histories stay gathered with one more turn of a stream.
pub fn gathered_grows<M: AnyMachine>()
    ensures { GatheredGrows M.machine }
{}
