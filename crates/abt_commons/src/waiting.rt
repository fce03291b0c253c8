//! Units by number in one object.

ghost use Rattle.std.specs.Prelude.{◌≡◌, ◌++◌};
ghost use Rattle.std.specs.List.{find};
ghost use Rattle.abt_machine.specs.declared.events.Shown.TheVariants as shows;
ghost use Rattle.abt_machine.specs.declared.events.Site.TheVariants as site;
ghost use Rattle.abt_machine.specs.Pools.{is_unit};
ghost use Rattle.abt_chain.specs.Results.{unit_found};
ghost use Rattle.abt_calls.specs.Showing.{rows_as, rows_at_desk, rows_of_object};
ghost use Rattle.abt_commons.specs.Reading.{HasCondition, IsDesk, IsPool, is_row_of, row_found, waiters_as, waiters_of_condition};

use crate::one::One;
use crate::shared::Shared;
use abt_desk::Desk;
use abt_machine::{PoolNo, Shown, Thing, UnitNo};
use abt_unit::Unit;

impl<'w> One<'w> {
    // The first unit of that number in pool p, and what a report shows of it.
    pub(crate) fn in_pool(&self, p: PoolNo, u: UnitNo) -> Option<(Shown, &Unit)>
        requires { IsPool self.now.object }
        ensures { find (is_row_of u.0) (rows_of_object self.now.workload (site.Pool p) self.now.object) ≡ row_found result }
    {
        match &*self.shared {
            Shared::Pool(pool) => match pool.find(u) {
                Some(unit) => Some((Shown::Pool(p), unit)),
                None => None,
            },
            _ => unreachable!(),
        }
    }

    // The first unit of that number at the desk of unit v, and what a report shows of it.
    pub(crate) fn at_desk(&self, v: UnitNo, u: UnitNo) -> Option<(Shown, &Unit)>
        requires { IsDesk self.now.object }
        ensures { find (is_row_of u.0) (rows_of_object self.now.workload (site.Desk v) self.now.object) ≡ row_found result }
    {
        match &*self.shared {
            Shared::Desk(desk) => found_at_desk(desk, v, u),
            _ => unreachable!(),
        }
    }
}

fn found_at_desk(desk: &Desk, v: UnitNo, u: UnitNo) -> Option<(Shown, &Unit)>
    ensures { find (is_row_of u.0) (rows_at_desk desk.now.phase ++ rows_as (shows.Join v) desk.now.joiners) ≡ row_found result }
{
    match own_unit(desk, u) {
        Some(found) => Some(found),
        None => match desk.joiner(u) {
            Some(unit) => Some((Shown::Join(v), unit)),
            None => None,
        },
    }
}

// The desk's own unit, if the desk holds it and it has that number, and what a report shows of it.
fn own_unit(desk: &Desk, u: UnitNo) -> Option<(Shown, &Unit)>
    ensures { find (is_row_of u.0) (rows_at_desk desk.now.phase) ≡ row_found result }
{
    match (desk.held(), desk.shown()) {
        (Some(unit), Some(shown)) => {
            if unit.number() == u {
                Some((shown, unit))
            } else {
                None
            }
        }
        _ => None,
    }
}

impl<'w> One<'w> {
    // The first unit of that number that waits for the object itself, if it is of the thing's kind.
    pub(crate) fn waiter(&self, thing: Thing, u: UnitNo) -> Option<&Unit>
        ensures { find (is_unit u.0) (waiters_as thing self.now.object) ≡ unit_found result }
    {
        match (thing, &*self.shared) {
            (Thing::Mutex, Shared::Monitor(monitor)) => monitor.waiter(None, u),
            (Thing::Eventual, Shared::Eventual(eventual)) => eventual.waiter(u),
            (Thing::Future(_, _), Shared::Future(future)) => future.waiter(u),
            (Thing::Barrier(_), Shared::Barrier(barrier)) => barrier.waiter(u),
            (Thing::RwLock, Shared::RwLock(rwlock)) => rwlock.waiter(u),
            (
                Thing::Mutex
                | Thing::Cond(_)
                | Thing::Eventual
                | Thing::Future(_, _)
                | Thing::Barrier(_)
                | Thing::RwLock,
                _,
            ) => None,
        }
    }

    // The first unit of that number that waits at the condition of that place.
    pub(crate) fn condition_waiter(&self, cond: u32, u: UnitNo) -> Option<&Unit>
        requires { HasCondition cond self.now.object }
        ensures { find (is_unit u.0) (waiters_of_condition cond self.now.object) ≡ unit_found result }
    {
        match &*self.shared {
            Shared::Monitor(monitor) => monitor.waiter(Some(cond), u),
            _ => unreachable!(),
        }
    }
}
