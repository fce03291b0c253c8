//! Requests from a table, played over the objects in any form.

ghost use Rattle.std.specs.Prelude.{◌≡◌, IfSome};
ghost use Rattle.std.specs.List.{All};
ghost use Rattle.abt_unit.specs.Fits.{Fits};
ghost use Rattle.abt_unit.specs.Units.{IsFree};
ghost use Rattle.abt_chain.specs.Keeping.{contents_answered, contents_asked};
ghost use Rattle.abt_commons.specs.Acts.{IsFreeAct, IsFreeAnswer, act_of, answer_of};

use super::asking::may_ask;
use abt_chain::Chain;
use abt_commons::{Act, Answer, Commons, Reply};
use abt_machine::{Cause, Code, PoolNo, Side, Site, UnitNo, Workload};
use abt_unit::Unit;
use std::process::Abort;

// What is asked of an object. A unit that goes along is the first in hand.
#[derive(Clone, Copy)]
pub enum Request {
    Put,
    Take(Side),
    Remove(u32),
    Create(u32),
    End,
    Join,
    AskCancel,
    AskMigrate(u32),
    Look,
    Suspend,
    Resume,
    Revive(u32),
    SetMigratable(bool),
    Lock,
    TryLock(u32),
    Unlock(u32),
    Load(u32),
    Store(u32, u64),
    Wait(u32),
    Signal(u32),
    Broadcast(u32),
    Await,
    Fill(u64),
    Reset,
    Test,
    Arrive,
    ReadLock,
    WriteLock,
    RwUnlock(u32),
}

// What is heard: units by number, and of a chain the first, if it has any. Units that come out go last in hand.
#[derive(Clone, Copy, Debug, PartialEq)]
pub enum Heard {
    Given(u32),
    Through(u32, Option<u32>),
    Woke(Option<u32>),
    Rested,
    Miss,
    Number(u64),
    Asks(bool, Option<PoolNo>),
    Code(Code),
    Back(u32, Code),
}

// The first unit in hand.
fn first(w: &Workload, hand: &mut Chain) -> Option<Box<Unit>>
    requires { All (Fits w.now) hand.old.units }
    ensures hand { All (Fits w.now) hand.new.units }
    ensures free { IfSome result (λ unit. IsFree unit.value) }
    ensures fits { IfSome result (λ unit. Fits w.now unit.value.owned) }
{
    hand.take_front()
}

// The act of a request. None: there is no unit in hand to go along.
fn act_for(w: &Workload, hand: &mut Chain, request: Request) -> Option<Act>
    requires { All (Fits w.now) hand.old.units }
    ensures hand { All (Fits w.now) hand.new.units }
    ensures free { IfSome result (λ act. IsFreeAct act) }
    ensures fits { IfSome result (λ act. All (Fits w.now) (contents_asked (act_of act)).units) }
{
    match request {
        Request::Put => Some(Act::Put(first(w, hand)?)),
        Request::Take(side) => Some(Act::Take(side)),
        Request::Remove(u) => Some(Act::Remove(UnitNo(u))),
        Request::Create(p) => Some(Act::Create(PoolNo(p))),
        Request::End => Some(Act::End(first(w, hand)?, Cause::Done)),
        Request::Join => Some(Act::Join(first(w, hand)?)),
        Request::AskCancel => Some(Act::AskCancel),
        Request::AskMigrate(p) => Some(Act::AskMigrate(PoolNo(p))),
        Request::Look => Some(Act::Look),
        Request::Suspend => Some(Act::Suspend(first(w, hand)?)),
        Request::Resume => Some(Act::Resume),
        Request::Revive(p) => Some(Act::Revive(PoolNo(p))),
        Request::SetMigratable(allowed) => Some(Act::SetMigratable(allowed)),
        Request::Lock => Some(Act::Lock(first(w, hand)?)),
        Request::TryLock(u) => Some(Act::TryLock(UnitNo(u))),
        Request::Unlock(u) => Some(Act::Unlock(UnitNo(u))),
        Request::Load(u) => Some(Act::Load(UnitNo(u))),
        Request::Store(u, n) => Some(Act::Store(UnitNo(u), n)),
        Request::Wait(k) => Some(Act::Wait(k, first(w, hand)?)),
        Request::Signal(k) => Some(Act::Signal(k)),
        Request::Broadcast(k) => Some(Act::Broadcast(k)),
        Request::Await => Some(Act::Await(first(w, hand)?)),
        Request::Fill(n) => Some(Act::Fill(n)),
        Request::Reset => Some(Act::Reset),
        Request::Test => Some(Act::Test),
        Request::Arrive => Some(Act::Arrive(first(w, hand)?)),
        Request::ReadLock => Some(Act::ReadLock(first(w, hand)?)),
        Request::WriteLock => Some(Act::WriteLock(first(w, hand)?)),
        Request::RwUnlock(u) => Some(Act::RwUnlock(UnitNo(u))),
    }
}

// The number of the unit, which goes last in hand.
fn kept(w: &Workload, hand: &mut Chain, unit: Box<Unit>) -> u32
    requires hand { All (Fits w.now) hand.old.units }
    requires free { IsFree unit.value }
    requires fits { Fits w.now unit.value.owned }
    ensures { All (Fits w.now) hand.new.units }
{
    let number = unit.number().0;
    hand.push_back(unit);
    number
}

// The number of the first of these units, which go last in hand.
fn all_kept(w: &Workload, hand: &mut Chain, mut units: Chain) -> Option<u32>
    requires hand { All (Fits w.now) hand.old.units }
    requires fits { All (Fits w.now) units.units }
    ensures { All (Fits w.now) hand.new.units }
{
    let unit = first(w, &mut units)?;
    let number = kept(w, hand, unit);
    units.drain_into(hand);
    Some(number)
}

// What an answer says, whose units go last in hand.
fn hear(w: &Workload, hand: &mut Chain, answer: Answer) -> Heard
    requires hand { All (Fits w.now) hand.old.units }
    requires free { IsFreeAnswer answer }
    requires fits { All (Fits w.now) (contents_answered (answer_of answer)).units }
    ensures { All (Fits w.now) hand.new.units }
{
    match answer {
        Answer::Given(unit) => Heard::Given(kept(w, hand, unit)),
        Answer::Through(unit, others) => {
            let number = kept(w, hand, unit);
            Heard::Through(number, all_kept(w, hand, others))
        }
        Answer::Woke(units) => Heard::Woke(all_kept(w, hand, units)),
        Answer::Rested => Heard::Rested,
        Answer::Miss => Heard::Miss,
        Answer::Number(n) => Heard::Number(n),
        Answer::Asks(asks) => Heard::Asks(asks.cancel, asks.migrate),
        Answer::Code(code) => Heard::Code(code),
        Answer::Back(unit, code) => Heard::Back(kept(w, hand, unit), code),
    }
}

/// Asks the object at the site. None: it must not be asked, or there is no unit in hand, or the clock is worn.
pub fn play<'w, C: Commons<'w>>(
    commons: &C,
    pass: &mut C::Pass,
    w: &Workload,
    hand: &mut Chain,
    site: Site,
    request: Request,
) -> Option<Heard>
    requires workload { C.workload commons.now ≡ w.now }
    requires pass { C.is_of commons.now pass.old }
    requires hand { All (Fits w.now) hand.old.units }
    ensures pass { C.is_of commons.now pass.new }
    ensures number { C.number pass.new ≡ C.number pass.old }
    ensures hand { All (Fits w.now) hand.new.units }
{
    let act = act_for(w, hand, request)?;
    if !may_ask(w, site, &act) {
        return None;
    }
    match commons.call(pass, site, 0, act) {
        Reply::Done { stamp: _, answer } => Some(hear(w, hand, answer)),
        Reply::Worn(_) => None,
    }
}

/// A request, the site where it is asked, and what is to be heard.
pub type Row = (Site, Request, Option<Heard>);

// Plays a row. Whether what is heard is what is to be heard.
fn is_heard<'w, C: Commons<'w>>(
    commons: &C,
    pass: &mut C::Pass,
    w: &Workload,
    hand: &mut Chain,
    row: Row,
) -> bool
    requires workload { C.workload commons.now ≡ w.now }
    requires pass { C.is_of commons.now pass.old }
    requires hand { All (Fits w.now) hand.old.units }
    ensures pass { C.is_of commons.now pass.new }
    ensures hand { All (Fits w.now) hand.new.units }
{
    let (site, request, wanted) = row;
    play(commons, pass, w, hand, site, request) == wanted
}

/// Plays all rows in order.
pub fn play_all<'w, C: Commons<'w>>(
    rt: &impl Abort,
    commons: &C,
    pass: &mut C::Pass,
    w: &Workload,
    hand: &mut Chain,
    rows: &[Row],
)
    requires workload { C.workload commons.now ≡ w.now }
    requires pass { C.is_of commons.now pass.old }
    requires hand { All (Fits w.now) hand.old.units }
    ensures pass { C.is_of commons.now pass.new }
    ensures hand { All (Fits w.now) hand.new.units }
{
    for row in rows {
        assert!(rt; is_heard(commons, pass, w, hand, *row));
    }
}
