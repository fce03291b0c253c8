//! Readers of all objects.

ghost use Rattle.std.specs.Prelude.{ℕ, ◌≡◌, ◌<◌, ◌==◌, ◌⊎◌, length, not, None, Some, IfNone, IfSome};
ghost use Rattle.std.specs.List.{find};
ghost use Rattle.abt_machine.specs.declared.events.Site.TheVariants as site;
ghost use Rattle.abt_machine.specs.declared.numbers.PoolNo.{PoolNo};
ghost use Rattle.abt_machine.specs.declared.numbers.UnitNo.{UnitNo};
ghost use Rattle.abt_machine.specs.Desks.{is_living};
ghost use Rattle.abt_machine.specs.Operations.{IsEventual, IsFuture};
ghost use Rattle.abt_machine.specs.Workloads.{IsCondition};
ghost use Rattle.abt_machine.specs.Pools.{is_unit};
ghost use Rattle.abt_machine.specs.Values.{Owned};
ghost use Rattle.abt_chain.specs.Results.{unit_found};
ghost use Rattle.abt_calls.specs.Keeps.{contents_of};
ghost use Rattle.abt_commons.specs.Held.{object_at};
ghost use Rattle.abt_calls.specs.Showing.{Row};
ghost use Rattle.abt_commons.specs.Reading.{HoldNone, IsHeldAs, IsPool, is_over, is_ready, is_row_of, row_found, rows_at_site, waiters_at_thing};

use crate::objects::Objects;
use crate::one::One;
use crate::shared::Shared;
use crate::sites::{site_number, thing_number};
use abt_desk::Desk;
use abt_machine::{ObjectNo, Piece, PoolNo, Shown, Site, Thing, UnitNo};
use abt_unit::Unit;

impl<'w> Objects<'w> {
    /// Whether the pool has no unit.
    pub fn pool_is_empty(&self, p: PoolNo) -> bool
        requires { p.0 < length self.now.workload.pools }
        ensures empty { result ≡ (length (contents_of (object_at self.now (site.Pool p))).units == 0) }
        ensures pool { IsPool (object_at self.now (site.Pool p)) }
    {
        self.ones[site_number(self.w, Site::Pool(p))].is_empty_pool()
    }

    /// Whether the unit is at its desk, unborn or ended.
    pub fn is_over(&self, u: UnitNo) -> bool
        requires { u.0 < length self.now.workload.units }
        ensures { result ≡ is_over (object_at self.now (site.Desk u)) }
    {
        self.ones[site_number(self.w, Site::Desk(u))].is_over()
    }

    // Whether the eventual is ready.
    fn eventual_is_ready(&self, x: ObjectNo) -> bool
        requires { IsEventual self.now.workload x.0 }
        ensures { result ≡ is_ready (object_at self.now (site.Eventual x)) }
    {
        self.ones[site_number(self.w, Site::Eventual(x))].is_ready()
    }

    // Whether the future is ready.
    fn future_is_ready(&self, x: ObjectNo) -> bool
        requires { IsFuture self.now.workload x.0 }
        ensures { result ≡ is_ready (object_at self.now (site.Future x)) }
    {
        self.ones[site_number(self.w, Site::Future(x))].is_ready()
    }

    /// Whether the eventual or the future is ready.
    pub fn is_ready(&self, x: ObjectNo) -> bool
        requires { IsEventual self.now.workload x.0 ⊎ IsFuture self.now.workload x.0 }
        ensures eventual { IsEventual self.now.workload x.0 → result ≡ is_ready (object_at self.now (site.Eventual x)) }
        ensures future { IsFuture self.now.workload x.0 → result ≡ is_ready (object_at self.now (site.Future x)) }
    {
        match self.w.thing(x) {
            Thing::Eventual => self.eventual_is_ready(x),
            Thing::Future(_, _) => self.future_is_ready(x),
            _ => unreachable!(),
        }
    }
}

impl<'w> One<'w> {
    // Whether the pool has no unit.
    fn is_empty_pool(&self) -> bool
        requires { IsPool self.now.object }
        ensures { result ≡ (length (contents_of self.now.object).units == 0) }
    {
        match &*self.shared {
            Shared::Pool(pool) => pool.is_empty(),
            _ => unreachable!(),
        }
    }

    // Whether it is a desk whose unit is there, unborn or ended.
    fn is_over(&self) -> bool
        ensures { result ≡ is_over self.now.object }
    {
        match &*self.shared {
            Shared::Desk(desk) => is_over(desk),
            _ => false,
        }
    }

    // Whether the eventual or the future is ready.
    fn is_ready(&self) -> bool
        ensures { result ≡ is_ready self.now.object }
    {
        match &*self.shared {
            Shared::Eventual(eventual) => eventual.test(),
            Shared::Future(future) => future.test(),
            _ => false,
        }
    }
}

impl<'w> Objects<'w> {
    /// What a report shows of the unit of that number. None exactly if the objects hold no such unit. The time is that of a
    /// walk over all objects and all units that they hold, and for each condition over the objects declared before it.
    pub fn shown(&self, u: UnitNo) -> Option<Shown>
        ensures none { IfNone result (HoldNone self.now u.0) }
        ensures held { IfSome result (λ shown. (o : Owned) × IsHeldAs self.now u.0 (shown, o)) }
    {
        let (shown, _) = self.find(u)?;
        Some(shown)
    }

    /// The output of the unit of that number. None exactly if the objects hold no such unit. The time is that of `shown`.
    pub fn output(&self, u: UnitNo) -> Option<&[Piece]>
        ensures none { IfNone result (HoldNone self.now u.0) }
        ensures held { IfSome result (λ pieces. (row : Row) × IsHeldAs self.now u.0 row × (row.1.carried.output ≡ pieces.now)) }
    {
        let (_, unit) = self.find(u)?;
        Some(unit.output())
    }

    // A unit of that number, and what a report shows of it.
    fn find(&self, u: UnitNo) -> Option<(Shown, &Unit)>
        ensures none { IfNone result (HoldNone self.now u.0) }
        ensures held { IfSome result (λ found. IsHeldAs self.now u.0 (found.0, found.1.now.owned)) }
    {
        self.w.known();
        match self.in_pools(u) {
            Some(found) => Some(found),
            None => match self.at_desks(u) {
                Some(found) => Some(found),
                None => match self.at_things(u) {
                    Some((x, unit)) => Some((Shown::Object(x), unit)),
                    None => None,
                },
            },
        }
    }

    // A unit of that number in a pool.
    fn in_pools(&self, u: UnitNo) -> Option<(Shown, &Unit)>
        ensures none { IfNone result ((p : PoolNo) → p.0 < length self.now.workload.pools → find (is_row_of u.0) (rows_at_site self.now (site.Pool p)) ≡ None) }
        ensures found { IfSome result (λ found. (p : PoolNo) × (p.0 < length self.now.workload.pools) × (find (is_row_of u.0) (rows_at_site self.now (site.Pool p)) ≡ Some (found.0, found.1.now.owned))) }
    {
        for p in 0..self.w.pools() {
            if let Some(found) = self.in_pool(PoolNo(p), u) {
                return Some(found);
            }
        }
        None
    }

    fn in_pool(&self, p: PoolNo, u: UnitNo) -> Option<(Shown, &Unit)>
        requires { p.0 < length self.now.workload.pools }
        ensures { find (is_row_of u.0) (rows_at_site self.now (site.Pool p)) ≡ row_found result }
    {
        self.ones[site_number(self.w, Site::Pool(p))].in_pool(p, u)
    }

    // A unit of that number at a desk.
    fn at_desks(&self, u: UnitNo) -> Option<(Shown, &Unit)>
        ensures none { IfNone result ((v : UnitNo) → v.0 < length self.now.workload.units → find (is_row_of u.0) (rows_at_site self.now (site.Desk v)) ≡ None) }
        ensures found { IfSome result (λ found. (v : UnitNo) × (v.0 < length self.now.workload.units) × (find (is_row_of u.0) (rows_at_site self.now (site.Desk v)) ≡ Some (found.0, found.1.now.owned))) }
    {
        for v in 0..self.w.units() {
            if let Some(found) = self.at_desk(UnitNo(v), u) {
                return Some(found);
            }
        }
        None
    }

    fn at_desk(&self, v: UnitNo, u: UnitNo) -> Option<(Shown, &Unit)>
        requires { v.0 < length self.now.workload.units }
        ensures { find (is_row_of u.0) (rows_at_site self.now (site.Desk v)) ≡ row_found result }
    {
        self.ones[site_number(self.w, Site::Desk(v))].at_desk(v, u)
    }

    // A unit of that number that waits at a thing.
    fn at_things(&self, u: UnitNo) -> Option<(ObjectNo, &Unit)>
        ensures none { IfNone result ((x : ℕ) → x < length self.now.workload.objects → find (is_unit u.0) (waiters_at_thing self.now x) ≡ None) }
        ensures found { IfSome result (λ found. (found.0.0 < length self.now.workload.objects) × (find (is_unit u.0) (waiters_at_thing self.now found.0.0) ≡ Some found.1.now.owned)) }
    {
        for x in 0..self.w.objects() {
            if let Some(unit) = self.at_thing(ObjectNo(x), u) {
                return Some((ObjectNo(x), unit));
            }
        }
        None
    }

    fn at_thing(&self, x: ObjectNo, u: UnitNo) -> Option<&Unit>
        requires { x.0 < length self.now.workload.objects }
        ensures { find (is_unit u.0) (waiters_at_thing self.now x.0) ≡ unit_found result }
    {
        match self.w.thing(x) {
            Thing::Cond(_) => self.at_condition(x, u),
            thing => self.ones[thing_number(self.w, x)].waiter(thing, u),
        }
    }

    fn at_condition(&self, x: ObjectNo, u: UnitNo) -> Option<&Unit>
        requires { IsCondition self.now.workload x.0 }
        ensures { find (is_unit u.0) (waiters_at_thing self.now x.0) ≡ unit_found result }
    {
        self.w.known();
        let (mutex, cond) = self.w.cond(x);
        self.ones[thing_number(self.w, mutex)].condition_waiter(cond, u)
    }
}

// Whether the unit is at its desk, unborn or ended.
fn is_over(desk: &Desk) -> bool
    ensures { result ≡ not (is_living desk.now.phase) }
{
    matches!(desk.shown(), Some(Shown::Unborn | Shown::Ended(_)))
}
