//! A call of a booth, as a stream sees it.

ghost use Rattle.abt_weave.specs.Laws.{AnswersShow, WornShows};

use abt_booth::Object;
use abt_interleave::AnyMachine;

/// A call that a booth answered is a deed that stands at the end of what its stream now sees.
pub fn answers_show<M: AnyMachine, B: Object, L>()
    ensures { AnswersShow M.machine B.does L }
{}

/// A call that found the clock worn lets the stream see more, and nothing else.
pub fn worn_shows<M: AnyMachine, B: Object, L>()
    ensures { WornShows M.machine B.does L }
{}
