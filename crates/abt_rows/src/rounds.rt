//! Rows on pools and the order in which schedulers visit them.

ghost use Rattle.abt_rows.specs.Rows.{IsReported, IsWorked, stored};
ghost use Rattle.abt_rows.specs.Rounds.{prio_text, prio_journal, prio_report, basic_text, basic_journal, basic_report, randws_of_two_text, randws_of_two_journal, randws_of_two_report, randws_of_four_text, randws_of_four_journal, randws_of_four_report, user_order_text, user_order_journal, user_order_report, mirror_order_text, mirror_order_journal, mirror_order_report, unlisted_pool_text, unlisted_pool_report, deque_text, deque_journal, deque_report, deque_again_text, deque_again_journal, deque_again_report, deque_listed_second_text, deque_listed_second_journal, deque_listed_second_report, basic_classes_text, basic_classes_journal, basic_classes_report, rotation_of_three_text, rotation_of_three_journal, rotation_of_three_report, yieldto_keeps_the_round_text, yieldto_keeps_the_round_journal, yieldto_keeps_the_round_report, mirror_of_three_text, mirror_of_three_journal, mirror_of_three_report};

/// PRIO visits its pools as they are listed.
pub fn prio()
    ensures { IsWorked stored 10000 prio_text prio_journal prio_report }
{}

/// BASIC visits a pool of one stream before a pool of all.
pub fn basic()
    ensures { IsWorked stored 10000 basic_text basic_journal basic_report }
{}

/// RANDWS visits two pools as PRIO does.
pub fn randws_of_two()
    ensures { IsWorked stored 10000 randws_of_two_text randws_of_two_journal randws_of_two_report }
{}

/// RANDWS visits its first pool, and then the others from one that the words of its generator
/// choose: in the first rounds the fourth, the second and the second.
pub fn randws_of_four()
    ensures { IsWorked stored 10000 randws_of_four_text randws_of_four_journal randws_of_four_report }
{}

/// A rotated order begins one pool later in each round.
pub fn user_order()
    ensures { IsWorked stored 10000 user_order_text user_order_journal user_order_report }
{}

/// A mirrored order begins at the last pool.
pub fn mirror_order()
    ensures { IsWorked stored 10000 mirror_order_text mirror_order_journal mirror_order_report }
{}

/// A unit in a pool that no scheduler lists is not taken.
pub fn unlisted_pool()
    ensures { IsReported stored 10000 unlisted_pool_text unlisted_pool_report }
{}

/// A stream takes at the back of a deque that its main scheduler lists first.
pub fn deque()
    ensures { IsWorked stored 10000 deque_text deque_journal deque_report }
{}

/// A unit that comes back to a deque is the first to be taken by its owner.
pub fn deque_again()
    ensures { IsWorked stored 10000 deque_again_text deque_again_journal deque_again_report }
{}

/// A stream takes at the front of a deque that its main scheduler does not list first.
pub fn deque_listed_second()
    ensures { IsWorked stored 10000 deque_listed_second_text deque_listed_second_journal deque_listed_second_report }
{}

/// BASIC visits first the pools that one stream has alone, then those that one stream takes from,
/// then the rest, and each class as it is listed.
pub fn basic_classes()
    ensures { IsWorked stored 10000 basic_classes_text basic_classes_journal basic_classes_report }
{}

/// A rotated order of three begins at the next pool in each round.
pub fn rotation_of_three()
    ensures { IsWorked stored 10000 rotation_of_three_text rotation_of_three_journal rotation_of_three_report }
{}

/// A unit that is yielded to ends no round.
pub fn yieldto_keeps_the_round()
    ensures { IsWorked stored 10000 yieldto_keeps_the_round_text yieldto_keeps_the_round_journal yieldto_keeps_the_round_report }
{}

/// A mirrored order of three goes from the last pool to the first.
pub fn mirror_of_three()
    ensures { IsWorked stored 10000 mirror_of_three_text mirror_of_three_journal mirror_of_three_report }
{}
