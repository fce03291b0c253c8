//! Rows on orders of three pools.

ghost use Rattle.abt_rows.specs.Rows.{IsWorked, stored};
ghost use Rattle.abt_rows.specs.ThreePools.{rotation_comes_round_text, rotation_comes_round_journal, rotation_comes_round_report, mirror_in_each_round_text, mirror_in_each_round_journal, mirror_in_each_round_report, randws_of_three_text, randws_of_three_journal, randws_of_three_report, free_order_text, free_order_journal, free_order_report, free_alone};

/// A rotated order of three begins at the first pool again in its fourth round.
pub fn rotation_comes_round()
    ensures { IsWorked stored 10000 rotation_comes_round_text rotation_comes_round_journal rotation_comes_round_report }
{}

/// A mirrored order of three begins at the last pool in each round.
pub fn mirror_in_each_round()
    ensures { IsWorked stored 10000 mirror_in_each_round_text mirror_in_each_round_journal mirror_in_each_round_report }
{}

/// RANDWS visits its first of three pools, and then the others from one that the words of its generator
/// choose: in the first rounds the second, the third and the third.
pub fn randws_of_three()
    ensures { IsWorked stored 10000 randws_of_three_text randws_of_three_journal randws_of_three_report }
{}

/// A free order may visit the pools in any order, and in another one in the next round.
pub fn free_order()
    ensures { IsWorked free_alone 10000 free_order_text free_order_journal free_order_report }
{}
