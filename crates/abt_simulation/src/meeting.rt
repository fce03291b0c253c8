//! A workload that meets what the laws suppose.

ghost use Rattle.abt_simulation.specs.Meeting.{MeetingMerges};

/// Two streams meet at a barrier.
pub fn meeting_merges()
    ensures { MeetingMerges }
{}
