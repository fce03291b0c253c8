//! The numbers of sites.

ghost use Rattle.std.specs.Prelude.{◌≡◌, ◌<◌, Some, length};
ghost use Rattle.abt_machine.specs.Workloads.{thing_at};
ghost use Rattle.abt_calls.specs.Asking.{IsSite};
ghost use Rattle.abt_commons.specs.Sites.{site_numbered, site_number, site_of, sites, thing_number};

use abt_machine::{ObjectNo, PoolNo, Site, Thing, UnitNo, Workload};

/// The number of a site: pools come first, then desks, then the things that the workload declares as objects.
#[inline(always)]
pub(crate) fn site_number(w: &Workload, site: Site) -> usize
    requires { IsSite w.now site }
    ensures { site_number w.now site ≡ Some result }
{
    let pools = w.pools() as usize;
    let things = pools + w.units() as usize;
    match site {
        Site::Pool(p) => p.0 as usize,
        Site::Desk(u) => pools + u.0 as usize,
        Site::Monitor(x) | Site::Eventual(x) | Site::Future(x) | Site::Barrier(x) | Site::Rw(x) =>
            things + x.0 as usize,
    }
}

/// The number of a thing that the workload declares as an object. That of a condition is no site's.
pub(crate) fn thing_number(w: &Workload, x: ObjectNo) -> usize
    requires { x.0 < length w.now.objects }
    ensures { result ≡ thing_number w.now x.0 }
{
    w.pools() as usize + w.units() as usize + x.0 as usize
}

/// The site of a number. That of a condition is no site's.
pub(crate) fn site_at(w: &Workload, number: usize) -> Option<Site>
    requires { number < sites w.now }
    ensures { result ≡ site_numbered w.now number }
{
    w.known();
    let pools = w.pools() as usize;
    if number < pools {
        return Some(Site::Pool(PoolNo(number as u32)));
    }
    let things = pools + w.units() as usize;
    if number < things {
        return Some(Site::Desk(UnitNo((number - pools) as u32)));
    }
    site_of(w, ObjectNo((number - things) as u32))
}

// The site of a thing, by its kind.
fn site_of(w: &Workload, x: ObjectNo) -> Option<Site>
    requires { x.0 < length w.now.objects }
    ensures { result ≡ site_of x.0 (thing_at w.now x.0) }
{
    match w.thing(x) {
        Thing::Mutex => Some(Site::Monitor(x)),
        Thing::Cond(_) => None,
        Thing::Eventual => Some(Site::Eventual(x)),
        Thing::Future(_, _) => Some(Site::Future(x)),
        Thing::Barrier(_) => Some(Site::Barrier(x)),
        Thing::RwLock => Some(Site::Rw(x)),
    }
}
