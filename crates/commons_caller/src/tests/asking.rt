//! Which acts may be asked at a site.

ghost use Rattle.std.specs.Prelude.{◌<◌, length, IsTrue};
ghost use Rattle.std.specs.List.{All};
ghost use Rattle.abt_machine.specs.Pools.{HasSide};
ghost use Rattle.abt_machine.specs.State.{State};
ghost use Rattle.abt_machine.specs.Values.{conditions_of, object_of};
ghost use Rattle.abt_machine.specs.Workloads.{IsCondition};
ghost use Rattle.abt_unit.specs.Fits.{Fits};
ghost use Rattle.abt_chain.specs.Keeping.{IsPoolOf, contents_asked};
ghost use Rattle.abt_calls.specs.Allowed.{Allows, BarrierAllows, DeskAllows, EventualAllows, MonitorAllows, PoolAllows, RwLockAllows};
ghost use Rattle.abt_calls.specs.Asking.{IsSite, MayCall};
ghost use Rattle.abt_commons.specs.Acts.{act_of};

use abt_commons::Act;
use abt_machine::{Kind, ObjectNo, Side, Site, Thing, Workload};

// Whether the object at the site may be asked the act, whose unit is the workload's.
pub fn may_ask(w: &Workload, site: Site, act: &Act) -> bool
    requires { All (Fits w.now) (contents_asked (act_of act.now)).units }
    ensures { IsTrue result → MayCall w.now site (act_of act.now) }
{
    is_site(w, site) && answers(w, site, act)
}

// Whether an object of the site's kind is declared.
fn is_site(w: &Workload, site: Site) -> bool
    ensures { IsTrue result → IsSite w.now site }
{
    match site {
        Site::Pool(p) => p.0 < w.pools(),
        Site::Desk(u) => u.0 < w.units(),
        Site::Monitor(x) => x.0 < w.objects() && matches!(w.thing(x), Thing::Mutex),
        Site::Eventual(x) => x.0 < w.objects() && matches!(w.thing(x), Thing::Eventual),
        Site::Future(x) => x.0 < w.objects() && matches!(w.thing(x), Thing::Future(_, _)),
        Site::Barrier(x) => x.0 < w.objects() && matches!(w.thing(x), Thing::Barrier(_)),
        Site::Rw(x) => x.0 < w.objects() && matches!(w.thing(x), Thing::RwLock),
    }
}

// What the object at a site answers, and those of each kind, if each pool that the act names is declared.

fn answers(w: &Workload, site: Site, act: &Act) -> bool
    requires { IsSite w.now site }
    ensures allows { IsTrue result → (S : State) → Allows (object_of w.now S site) (act_of act.now) }
    ensures pools { IsTrue result → All (IsPoolOf w.now) (contents_asked (act_of act.now)).pools }
{
    match site {
        Site::Pool(p) => pool_answers(w, w.pool(p).kind, act),
        Site::Desk(_) => desk_answers(w, act),
        Site::Monitor(x) => monitor_answers(w, x, act),
        Site::Eventual(_) => eventual_answers(w, act),
        Site::Future(_) => eventual_answers(w, act),
        Site::Barrier(_) => barrier_answers(w, act),
        Site::Rw(_) => rwlock_answers(w, act),
    }
}

fn pool_answers(w: &Workload, kind: Kind, act: &Act) -> bool
    ensures allows { IsTrue result → PoolAllows kind (act_of act.now) }
    ensures pools { IsTrue result → All (IsPoolOf w.now) (contents_asked (act_of act.now)).pools }
{
    match act {
        Act::Put(_) | Act::Remove(_) => true,
        Act::Take(side) => has_side(kind, *side),
        _ => false,
    }
}

fn has_side(kind: Kind, side: Side) -> bool
    ensures { IsTrue result → HasSide kind side }
{
    match kind {
        Kind::Deque => true,
        Kind::Fifo => match side {
            Side::Front => true,
            Side::Back => false,
        },
    }
}

fn desk_answers(w: &Workload, act: &Act) -> bool
    ensures allows { IsTrue result → DeskAllows (act_of act.now) }
    ensures pools { IsTrue result → All (IsPoolOf w.now) (contents_asked (act_of act.now)).pools }
{
    match act {
        Act::Create(p) | Act::AskMigrate(p) | Act::Revive(p) => p.0 < w.pools(),
        Act::End(_, _)
        | Act::Join(_)
        | Act::AskCancel
        | Act::Look
        | Act::Suspend(_)
        | Act::Resume
        | Act::SetMigratable(_) => true,
        _ => false,
    }
}

fn monitor_answers(w: &Workload, x: ObjectNo, act: &Act) -> bool
    ensures allows { IsTrue result → MonitorAllows (length (conditions_of w.now x.0)) (act_of act.now) }
    ensures pools { IsTrue result → All (IsPoolOf w.now) (contents_asked (act_of act.now)).pools }
{
    match act {
        Act::Lock(_) | Act::TryLock(_) | Act::Unlock(_) | Act::Load(_) | Act::Store(_, _) => true,
        Act::Wait(k, _) | Act::Signal(k) | Act::Broadcast(k) => has_condition(w, x, *k),
        _ => false,
    }
}

fn eventual_answers(w: &Workload, act: &Act) -> bool
    ensures allows { IsTrue result → EventualAllows (act_of act.now) }
    ensures pools { IsTrue result → All (IsPoolOf w.now) (contents_asked (act_of act.now)).pools }
{
    matches!(act, Act::Await(_) | Act::Fill(_) | Act::Reset | Act::Test)
}

fn barrier_answers(w: &Workload, act: &Act) -> bool
    ensures allows { IsTrue result → BarrierAllows (act_of act.now) }
    ensures pools { IsTrue result → All (IsPoolOf w.now) (contents_asked (act_of act.now)).pools }
{
    matches!(act, Act::Arrive(_))
}

fn rwlock_answers(w: &Workload, act: &Act) -> bool
    ensures allows { IsTrue result → RwLockAllows (act_of act.now) }
    ensures pools { IsTrue result → All (IsPoolOf w.now) (contents_asked (act_of act.now)).pools }
{
    matches!(
        act,
        Act::ReadLock(_) | Act::WriteLock(_) | Act::RwUnlock(_) | Act::Load(_) | Act::Store(_, _)
    )
}

// Whether the mutex has a condition of that place.
fn has_condition(w: &Workload, x: ObjectNo, k: u32) -> bool
    ensures { IsTrue result → k < length (conditions_of w.now x.0) }
{
    for c in 0..w.objects() {
        if is_condition(w, x, k, ObjectNo(c)) {
            return true;
        }
    }
    false
}

// Whether thing c is the condition of that place at the mutex.
fn is_condition(w: &Workload, x: ObjectNo, k: u32, c: ObjectNo) -> bool
    requires { c.0 < length w.now.objects }
    ensures { IsTrue result → k < length (conditions_of w.now x.0) }
{
    match w.thing(c) {
        Thing::Cond(_) => is_place(w, x, k, c),
        _ => false,
    }
}

fn is_place(w: &Workload, x: ObjectNo, k: u32, c: ObjectNo) -> bool
    requires { IsCondition w.now c.0 }
    ensures { IsTrue result → k < length (conditions_of w.now x.0) }
{
    let (mutex, place) = w.cond(c);
    mutex.0 == x.0 && place == k
}
