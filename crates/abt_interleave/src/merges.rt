//! The one list of what all streams made.

ghost use Rattle.abt_interleave.specs.MergeLaws.{EventsSort, MembersMakeMerges, MergesAreOne, MergesCountEach, MergesExist, MergesHaveMembers, MergesLengthen, MergesSum, MergingBegins, MergingEnds, MergingGoesOn, SortedAsIsMerge, SortedIsMerge};

use crate::machine::AnyMachine;

/// Logs of finitely many streams have exactly one merge.
pub fn merges_exist<E>()
    ensures exist { MergesExist E }
    ensures one { MergesAreOne E }
{}

/// The merge is the list in order with the items of all logs.
pub fn merges_have_members<E>()
    ensures have { MergesHaveMembers E }
    ensures make { MembersMakeMerges E }
{}

/// What is counted over the merge is counted over the logs.
pub fn merges_count<E>()
    ensures each { MergesCountEach E }
    ensures sum { MergesSum E }
    ensures length { MergesLengthen E }
{}

/// Logs are merged item by item.
pub fn merging_goes_on<E>()
    ensures begin { MergingBegins E }
    ensures go { MergingGoesOn E }
    ensures end { MergingEnds E }
{}

/// The sorted list of all deeds is the merge of their logs.
pub fn sorted_is_merge<M: AnyMachine>()
    ensures { SortedIsMerge M.machine }
{}

/// The sorted list of their events is the merge of the events' logs.
pub fn sorted_as_is_merge<M: AnyMachine, E>()
    ensures merge { SortedAsIsMerge M.machine E }
    ensures sort { EventsSort M.machine E }
{}
