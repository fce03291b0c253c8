//! The logs and histories of one wave of streams behind those of another.

ghost use Rattle.abt_interleave.specs.Laws.{CoursesJoin, GatheredJoin, HistoriesJoin, MatchedJoin};

use crate::machine::AnyMachine;

/// Two logs of a stream, one after the other, are one log if the later stamps are greater.
pub fn courses_join<M: AnyMachine>()
    ensures { CoursesJoin M.machine }
{}

/// Two histories of an object, one after the other, are one history if the later stamps are greater.
pub fn histories_join<M: AnyMachine>()
    ensures { HistoriesJoin M.machine }
{}

/// Logs and histories of two waves that fit each other still do when they are joined.
pub fn matched_join<M: AnyMachine>()
    ensures { MatchedJoin M.machine }
{}

/// The gathered logs and histories of two waves are gathered when they are joined.
pub fn gathered_join<M: AnyMachine>()
    ensures { GatheredJoin M.machine }
{}
