//! All interleavings of a workload.

ghost use Rattle.std.specs.Prelude.{◌≤◌, IfOk, None, length};
ghost use Rattle.abt_explore.specs.Explored.{IsExplored};
ghost use Rattle.abt_explore.specs.Orders.{KeepsOrder};
ghost use Rattle.abt_explore.specs.Searches.{IsFinished};
ghost use Rattle.abt_machine.specs.Stored.{CallsStored};
ghost use Rattle.abt_model.specs.Stored.{stored_with};
ghost use Rattle.abt_order.specs.Stored.{shapes_of, stored_of};

use crate::exploration::Exploration;
use crate::named::named_units;
use crate::search::Search;
use abt_machine::{OrderShape, Want, Workload};
use abt_model::shapes;
use abt_order::StoredOrder;
use abt_work::Work;
use std::alloc::Global;

// The most bytes that the keys of all states may have: a state of units that put out words for ever has ever more.
const MOST_BYTES: u64 = 1 << 30;

/// Searches all interleavings of a workload, breadth first, of at most `most` states, whose keys have at most 2^30 bytes, for
/// the ways in which it ends. Two states are one if they differ in the numbers of rounds alone, so each scheduler has to have
/// the same order in each of its rounds. Of the stored orders only the shapes count: a round by a free order may visit its pools
/// in any order. Each function is called, with the arguments that come up, any number of times. Out of memory is the only error.
pub fn explore<P: Work>(
    alloc: Global,
    w: &Workload,
    orders: &[StoredOrder],
    work: &P,
    most: u64,
) -> Result<Exploration, Want>
    requires orders { 2 ≤ length orders.now }
    requires calls { CallsStored w.now (P.count work.now) }
    requires keeps_order { KeepsOrder w.now (shapes_of orders.now) }
    ensures { IfOk result (IsExplored w.now (stored_of orders.now (P.returns work.now)) most) }
{
    let shapes = shapes(alloc, orders)?;
    search_all(alloc, w, &shapes, work, most)
}

// Searches all interleavings. `z` has the shapes of the stored orders.
fn search_all<P: Work>(
    alloc: Global,
    w: &Workload,
    z: &[OrderShape],
    work: &P,
    most: u64,
) -> Result<Exploration, Want>
    requires orders { 2 ≤ length z.now }
    requires calls { CallsStored w.now (P.count work.now) }
    requires keeps_order { KeepsOrder w.now z.now }
    ensures { IfOk result (IsExplored w.now (stored_with z.now (P.returns work.now)) most) }
{
    w.known();
    let named = named_units(alloc, w)?;
    let mut search = Search::start(alloc, w)?;
    for states in 0..most {
        match search.take() {
            None => {
                let ends = search.into_ends();
                return Ok(Exploration::Whole { states, ends });
            }
            Some(found) => {
                match search.expand(alloc, w, z, work, &named, &found)? {
                    Some(function) => return Ok(Exploration::AnyWord { function }),
                    None => {}
                }
                if search.seen.bytes() > MOST_BYTES {
                    return Ok(Exploration::TooMany);
                }
            }
        }
    }
    Ok(finished(search, most))
}

// What a search found that has expanded this many models and is to expand no more.
fn finished(search: Search, states: u64) -> Exploration
    ensures { IsFinished search states result }
{
    if !search.waiting.is_empty() {
        return Exploration::TooMany;
    }
    let ends = search.into_ends();
    Exploration::Whole { states, ends }
}
