//! The order of places that a stored order chooses for a round.

ghost use Rattle.std.specs.Prelude.{◌≡◌, ◌<◌, ◌≤◌, All, EachIndex, IsPermutation, IsTrue, length, slice_index};
ghost use Rattle.std.specs.List.{range_with_len};
ghost use Rattle.abt_machine.specs.Limits.{listed_limit};
ghost use Rattle.abt_order.specs.Places.{HasNearestAnswer, distance};
ghost use Rattle.abt_order.specs.Shapes.{fits_shape};
ghost use Rattle.abt_order.specs.Stored.{answers_of};

use crate::stored::StoredOrder;

/// Puts the places into the order of a round. The place that comes at i is the first, counted cyclically from the order's
/// answer for i, that stands at no earlier place.
pub(crate) fn arrange(order: &StoredOrder, round: u64, places: &mut [u32])
    requires count { (0 < length places.old) × (length places.old ≤ listed_limit) }
    requires each { places.old ≡ range_with_len 0 (length places.old) }
    ensures permutes { IsPermutation places.old places.new }
    ensures fits { EachIndex places.new (λ i. IsTrue (fits_shape order.now.shape round (length places.new) i (slice_index places.new i))) }
    ensures asked { EachIndex places.new (HasNearestAnswer (answers_of order.now round) (length places.new) places.new) }
{
    let n = places.len() as u32;
    for i in 0..places.len() {
        let answer = order.answer(round, n, i as u32);
        let at = i + nearest(&places[i..], n, answer);
        places.swap(i, at);
    }
}

/// Where among the places that are left the first stands, counted cyclically from the answer.
fn nearest(left: &[u32], n: u32, answer: u32) -> usize
    requires some { 0 < length left.now }
    requires count { n ≤ listed_limit }
    requires answer { answer < n }
    requires left { All (λ place. place < n) left.now }
    ensures among { result < length left.now }
    ensures nearest { EachIndex left.now (λ k. distance n answer (slice_index left.now result) ≤ distance n answer (slice_index left.now k)) }
{
    let mut best = 0;
    for (k, place) in left.iter().enumerate() {
        if distance(n, answer, *place) < distance(n, answer, left[best]) {
            best = k;
        }
    }
    best
}

/// How far it is from one of n places up to another, where the first place follows the last.
fn distance(n: u32, from: u32, to: u32) -> u32
    requires count { n ≤ listed_limit }
    requires from { from < n }
    requires to { to < n }
    ensures { result ≡ distance n from to }
{
    (to + (n - from)) % n
}
