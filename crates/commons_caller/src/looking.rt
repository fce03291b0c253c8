//! A look at a unit's desk.

ghost use Rattle.std.specs.Prelude.{ℕ, ◌≡◌, ◌≢◌, ◌<◌, ◌≤◌, ◌^◌, length, option_map, IfNone, IfOk, IfSome};
ghost use Rattle.abt_machine.specs.declared.events.Site.{Site};
ghost use Rattle.abt_machine.specs.declared.events.Site.TheVariants as site;
ghost use Rattle.abt_machine.specs.declared.numbers.PoolNo.{PoolNo};
ghost use Rattle.abt_machine.specs.Acts as asked;
ghost use Rattle.abt_machine.specs.Start.{start};
ghost use Rattle.abt_machine.specs.Values.{object_of};
ghost use Rattle.abt_calls.specs.Asking.{MayCall};
ghost use Rattle.abt_commons.specs.Held.{object_at};
ghost use Rattle.abt_commons.specs.Replies.{Done, Worn};

use abt_commons::{Act, Answer, Commons, Objects, Plain, Reply};
use abt_desk::Asks;
use abt_machine::{Site, UnitNo, Want, Workload};
use std::alloc::Global;

/// What is asked of the unit; after that nothing is asked of it. None: the clock of the desk's lock is worn.
pub fn look<'w, C: Commons<'w>>(commons: &C, pass: &mut C::Pass, u: UnitNo, at: u64) -> Option<Asks>
    requires pass { C.is_of commons.now pass.old }
    requires may { MayCall (C.workload commons.now) (site.Desk u) asked.Look }
    requires at { at ≤ 2 ^ 62 }
    ensures pass { C.is_of commons.now pass.new }
    ensures number { C.number pass.new ≡ C.number pass.old }
    ensures answered { IfSome result (λ asks. (stamp : ℕ)
        × C.moves commons.now pass.old (site.Desk u) at asked.Look (Done stamp (asked.Asks asks.cancel (option_map (λ (p : PoolNo). p.0) asks.migrate))) pass.new) }
    ensures worn { IfNone result (C.moves commons.now pass.old (site.Desk u) at asked.Look Worn pass.new) }
{
    match commons.call(pass, Site::Desk(u), at, Act::Look) {
        Reply::Done { stamp: _, answer } => match answer {
            Answer::Asks(asks) => Some(asks),
            _ => unreachable!(),
        },
        Reply::Worn(_) => None,
    }
}

/// The objects of a new run, after one look at the unit's desk. Err: out of memory.
pub fn looked<'w>(alloc: Global, w: &'w Workload, u: UnitNo) -> Result<Objects<'w>, Want>
    requires { u.0 < length w.now.units }
    ensures workload { IfOk result (λ held. held.workload ≡ w.now) }
    ensures others { IfOk result (λ held. (y : Site) → site.Desk u ≢ y → object_at held y ≡ object_of w.now (start w.now) y) }
{
    let objects = Objects::place(alloc, w)?;
    let (plain, mut pass) = Plain::make(objects);
    look(&plain, &mut pass, u, 0);
    let passes = vec![in alloc; pass]?;
    Ok(plain.close(passes))
}
