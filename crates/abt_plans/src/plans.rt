//! What a stream does at an operation, by the shape of the call that it makes.

ghost use Rattle.std.specs.Prelude.{◌≡◌, ◌<◌, length};
ghost use Rattle.abt_machine.specs.EventSites.{step_site};
ghost use Rattle.abt_machine.specs.Operations.{IsDeclared};
ghost use Rattle.abt_machine.specs.Valid.{IsValid};
ghost use Rattle.abt_plans.specs.Shapes.{PlansFor, called_site};

use crate::acts::{Asking, Giving};
use crate::pools::first_pool;
use abt_machine::{Op, Site, StreamNo, UnitNo, Workload};

/// What an operation asks of the stream: a local step, a yield, an exit, a refusal without a call, a call that leaves the unit
/// to the stream, or a call that takes the unit with it.
#[derive(Clone, Copy, Debug, PartialEq, Eq)]
pub enum Plan {
    Own,
    Yield,
    Exit,
    Deny,
    Ask(Site, Asking),
    Give(Site, Giving),
}

impl Plan {
    // The object that it calls, if it calls one.
    fn site(self) -> Option<Site>
        ensures { result ≡ called_site self }
    {
        match self {
            Plan::Own | Plan::Yield | Plan::Exit | Plan::Deny => None,
            Plan::Ask(x, _) | Plan::Give(x, _) => Some(x),
        }
    }
}

/// The object that the step of unit `u` at position `at` touches when stream `s` makes it, if it touches one.
pub fn step_site(w: &Workload, s: StreamNo, u: UnitNo, at: u32) -> Option<Site>
    requires stream { s.0 < w.now.streams }
    requires unit { u.0 < length w.now.units }
    ensures { result ≡ step_site w.now s.0 u.0 at }
{
    w.known();
    let op = w.op(u, at)?;
    planned(w, s, op, u, 0).site()
}

/// What stream `s` does at operation `op` of the unit in its hand, which has this number and accumulator.
#[inline(always)]
pub fn planned(w: &Workload, s: StreamNo, op: Op, unit: UnitNo, acc: u64) -> Plan
    requires valid { IsValid w.now }
    requires stream { s.0 < w.now.streams }
    requires declared { IsDeclared w.now op }
    ensures { PlansFor w.now s.0 op unit.0 acc result }
{
    match op {
        Op::Set(_) | Op::Add(_) | Op::Say(_) | Op::Print => Plan::Own,
        Op::KeySet(_) | Op::KeyGet(_) | Op::Calc(_, _) | Op::Call(_) => Plan::Own,
        Op::Yield => Plan::Yield,
        Op::YieldTo(v, p) => {
            if w.may_take(s, p) {
                Plan::Ask(Site::Pool(p), Asking::Remove(v))
            } else {
                Plan::Deny
            }
        }
        Op::Suspend => Plan::Give(Site::Desk(unit), Giving::Suspend),
        Op::Exit => Plan::Exit,
        Op::Resume(v) => Plan::Ask(Site::Desk(v), Asking::Resume),
        Op::Create(v, p) => {
            if w.may_put(s, p) {
                Plan::Ask(Site::Desk(v), Asking::Create(p))
            } else {
                Plan::Deny
            }
        }
        Op::Join(v) => Plan::Give(Site::Desk(v), Giving::Join),
        Op::Cancel(v) => Plan::Ask(Site::Desk(v), Asking::AskCancel),
        Op::Migrate(v, p) => {
            if w.may_put(s, p) {
                Plan::Ask(Site::Desk(v), Asking::AskMigrate(p))
            } else {
                Plan::Deny
            }
        }
        Op::MigrateTo(v, r) => {
            let p = first_pool(w, r);
            if w.may_put(s, p) {
                Plan::Ask(Site::Desk(v), Asking::AskMigrate(p))
            } else {
                Plan::Deny
            }
        }
        Op::Migratable(v, yes) => Plan::Ask(Site::Desk(v), Asking::SetMigratable(yes)),
        Op::Revive(v, p) => {
            if w.may_put(s, p) {
                Plan::Ask(Site::Desk(v), Asking::Revive(p))
            } else {
                Plan::Deny
            }
        }
        Op::Lock(x) => Plan::Give(Site::Monitor(x), Giving::Lock),
        Op::TryLock(x) => Plan::Ask(Site::Monitor(x), Asking::TryLock(unit)),
        Op::Unlock(x) => Plan::Ask(Site::Monitor(x), Asking::Unlock(unit)),
        Op::Load(x) => Plan::Ask(Site::Monitor(x), Asking::Load(unit)),
        Op::Store(x) => Plan::Ask(Site::Monitor(x), Asking::Store(unit, acc)),
        Op::CondWait(x) => {
            let (m, k) = w.cond(x);
            Plan::Give(Site::Monitor(m), Giving::Wait(k))
        }
        Op::Signal(x) => {
            let (m, k) = w.cond(x);
            Plan::Ask(Site::Monitor(m), Asking::Signal(k))
        }
        Op::Broadcast(x) => {
            let (m, k) = w.cond(x);
            Plan::Ask(Site::Monitor(m), Asking::Broadcast(k))
        }
        Op::EvWait(x) => Plan::Give(Site::Eventual(x), Giving::Await),
        Op::EvSet(x) => Plan::Ask(Site::Eventual(x), Asking::Fill(acc)),
        Op::EvReset(x) => Plan::Ask(Site::Eventual(x), Asking::Reset),
        Op::EvTest(x) => Plan::Ask(Site::Eventual(x), Asking::Test),
        Op::FuWait(x) => Plan::Give(Site::Future(x), Giving::Await),
        Op::FuSet(x) => Plan::Ask(Site::Future(x), Asking::Fill(acc)),
        Op::FuReset(x) => Plan::Ask(Site::Future(x), Asking::Reset),
        Op::FuTest(x) => Plan::Ask(Site::Future(x), Asking::Test),
        Op::BarWait(x) => Plan::Give(Site::Barrier(x), Giving::Arrive),
        Op::ReadLock(x) => Plan::Give(Site::Rw(x), Giving::ReadLock),
        Op::WriteLock(x) => Plan::Give(Site::Rw(x), Giving::WriteLock),
        Op::RwUnlock(x) => Plan::Ask(Site::Rw(x), Asking::RwUnlock(unit)),
        Op::RwLoad(x) => Plan::Ask(Site::Rw(x), Asking::Load(unit)),
        Op::RwStore(x) => Plan::Ask(Site::Rw(x), Asking::Store(unit, acc)),
    }
}
