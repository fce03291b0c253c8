//! Units that objects give out, in groups that a report shows alike.

ghost use Rattle.std.specs.Prelude.{◌≡◌, ◌++◌, IfOk, IfSome, OnOk, option_map};
ghost use Rattle.std.specs.List.{All};
ghost use Rattle.abt_machine.specs.declared.events.Shown.TheVariants as shows;
ghost use Rattle.abt_machine.specs.Values.{conditions_of};
ghost use Rattle.abt_unit.specs.Units.{IsFree};
ghost use Rattle.abt_desk.specs.Phases.{shown_unit};
ghost use Rattle.abt_calls.specs.Showing.{rows_as, rows_at, rows_at_desk, rows_of_object};
ghost use Rattle.abt_commons.specs.Groups.{FitsRow, all_rows, row_of, rows_by, rows_in};
ghost use Rattle.abt_commons.specs.Kinds.{object_in};

use crate::objects::Objects;
use crate::one::One;
use crate::shared::Shared;
use crate::sites::site_at;
use abt_chain::Chain;
use abt_desk::Desk;
use abt_machine::{ObjectNo, Shown, Site, UnitNo, Want, Workload};
use abt_monitor::Monitor;
use abt_unit::Unit;
use std::alloc::Global;

/// Units that a report shows alike.
#[derive(Drop)]
pub struct Group {
    pub shown: Shown,
    pub units: Chain,
}

impl<'w> Objects<'w> {
    /// All units that the objects hold, each with those that a report shows alike: those of pools first, then those at desks,
    /// then those that wait at what the workload declares as objects.
    pub fn into_groups(self, alloc: Global) -> Result<Vec<Group>, Want>
        ensures rows { IfOk result (λ groups. rows_in groups.items ≡ all_rows self.entry) }
        ensures fits { IfOk result (λ groups. All (FitsRow self.entry.workload) (rows_in groups.items)) }
    {
        let Objects { w, ones, clocks: _ } = self;
        let mut groups = Vec::new(alloc);
        let mut number = 0;
        for one in ones {
            one.give(site_at(w, number), &mut groups)?;
            number += 1;
        }
        Ok(groups)
    }
}

impl<'w> One<'w> {
    // Appends the units of the object, which stands at that site.
    fn give(self, site: Option<Site>, groups: &mut Vec<Group>) -> Result<(), Want>
        ensures rows { OnOk result (rows_in groups.new.items ≡ rows_in groups.old.items ++ rows_by self.entry.workload site self.entry.object) }
        ensures fits { All (FitsRow self.entry.workload) (rows_by self.entry.workload site self.entry.object) }
    {
        match site {
            Some(site) => give_shared(self.w, site, Box::into_inner(self.shared), groups),
            None => Ok(()),
        }
    }
}

// Appends the units of an object. It is of the site's kind.
fn give_shared(
    w: &Workload,
    site: Site,
    shared: Shared,
    groups: &mut Vec<Group>,
) -> Result<(), Want>
    ensures { OnOk result (rows_in groups.new.items ≡ rows_in groups.old.items ++ rows_of_object w.now site (object_in shared)) }
{
    match site {
        Site::Pool(p) => match shared {
            Shared::Pool(pool) => give_alike(Shown::Pool(p), pool.into_units(), groups),
            _ => Ok(()),
        },
        Site::Desk(u) => match shared {
            Shared::Desk(desk) => give_desk(u, desk, groups),
            _ => Ok(()),
        },
        Site::Monitor(x) => match shared {
            Shared::Monitor(monitor) => give_monitor(w, x, monitor, groups),
            _ => Ok(()),
        },
        Site::Eventual(x) => match shared {
            Shared::Eventual(eventual) => {
                give_alike(Shown::Object(x), eventual.into_units(), groups)
            }
            _ => Ok(()),
        },
        Site::Future(x) => match shared {
            Shared::Future(future) => give_alike(Shown::Object(x), future.into_units(), groups),
            _ => Ok(()),
        },
        Site::Barrier(x) => match shared {
            Shared::Barrier(barrier) => give_alike(Shown::Object(x), barrier.into_units(), groups),
            _ => Ok(()),
        },
        Site::Rw(x) => match shared {
            Shared::RwLock(rwlock) => give_alike(Shown::Object(x), rwlock.into_units(), groups),
            _ => Ok(()),
        },
    }
}

// Appends one group, if it has a unit.
fn give_alike(shown: Shown, units: Chain, groups: &mut Vec<Group>) -> Result<(), Want>
    ensures { OnOk result (rows_in groups.new.items ≡ rows_in groups.old.items ++ rows_as shown units.units) }
{
    if units.is_empty() {
        return Ok(());
    }
    groups.push(Group { shown, units })?;
    Ok(())
}

// Appends the unit of a desk, if it is there, and its joiners.
fn give_desk(u: UnitNo, desk: Desk, groups: &mut Vec<Group>) -> Result<(), Want>
    ensures { OnOk result (rows_in groups.new.items ≡ rows_in groups.old.items ++ (rows_at_desk desk.phase ++ rows_as (shows.Join u) desk.joiners)) }
{
    let (own, joiners) = desk.into_units();
    give_own(own, groups)?;
    give_alike(Shown::Join(u), joiners, groups)
}

// Appends one unit, if there is one.
fn give_own(own: Option<(Shown, Box<Unit>)>, groups: &mut Vec<Group>) -> Result<(), Want>
    requires { IfSome own (λ held. IsFree held.1.value) }
    ensures { OnOk result (rows_in groups.new.items ≡ rows_in groups.old.items ++ row_of (option_map shown_unit own)) }
{
    match own {
        Some((shown, unit)) => {
            let mut units = Chain::new();
            units.push_back(unit);
            give_alike(shown, units, groups)
        }
        None => Ok(()),
    }
}

// Appends the units that wait for a mutex, and those that wait at its conditions.
fn give_monitor(
    w: &Workload,
    x: ObjectNo,
    mut monitor: Monitor,
    groups: &mut Vec<Group>,
) -> Result<(), Want>
    ensures { OnOk result (rows_in groups.new.items ≡ rows_in groups.old.items ++ (rows_as (shows.Object x) monitor.waiters ++ rows_at (conditions_of w.now x.0) monitor.conds)) }
{
    give_alike(Shown::Object(x), monitor.take_waiters(None), groups)?;
    give_conditions(w, x, &mut monitor, groups)
}

// Appends the units that wait at the conditions of a mutex.
fn give_conditions(
    w: &Workload,
    x: ObjectNo,
    monitor: &mut Monitor,
    groups: &mut Vec<Group>,
) -> Result<(), Want>
    ensures { OnOk result (rows_in groups.new.items ≡ rows_in groups.old.items ++ rows_at (conditions_of w.now x.0) monitor.old.conds) }
{
    let mut cond = 0;
    for number in 0..w.objects() {
        if !monitor.has_condition(cond) {
            return Ok(());
        }
        let y = ObjectNo(number);
        if !w.thing(y).is_condition_of(x) {
            continue;
        }
        give_alike(Shown::Object(y), monitor.take_waiters(Some(cond)), groups)?;
        cond += 1;
    }
    Ok(())
}
