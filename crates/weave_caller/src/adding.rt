//! Two streams add to one sum behind a booth.

ghost use Rattle.std.specs.Prelude.{IfSome};
ghost use Rattle.weave_caller.specs.Sums.{AreAdded};

use abt_booth::{Booth, Called, Closed};
use booth_caller::Counter;
use std::alloc::Global;
use std::sync::Wait;

/// Stream 0 adds 5 to a sum, stream 1 adds 2, and the booth is closed: what they did is one wave. None means out
/// of memory, or a worn clock.
pub fn add_twice<R: Wait>(rt: &R, alloc: Global) -> Option<u64>
    ensures { IfSome result AreAdded }
{
    let Ok((booth, mut seats)) = Booth::make(alloc, Counter { sum: 0 }, 2) else {
        return None;
    };
    let Some(mut second) = seats.pop() else {
        unreachable!()
    };
    let Some(mut first) = seats.pop() else {
        unreachable!()
    };
    let Called::Done {
        stamp: _,
        answer: _,
    } = booth.call(rt, &mut first, 0, 5)
    else {
        return None;
    };
    let Called::Done {
        stamp: _,
        answer: _,
    } = booth.call(rt, &mut second, 0, 2)
    else {
        return None;
    };
    let mut gathered = second.retire();
    booth.gather(&mut gathered, first);
    let Closed { object, clock: _ } = booth.finish(gathered);
    Some(object.sum)
}
