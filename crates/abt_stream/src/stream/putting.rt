//! Units in the tray go home.

ghost use Rattle.std.specs.Prelude.{◌≡◌, ◌<◌, ◌∷◌};
ghost use Rattle.abt_stream.specs.Heeding.{Heeds};
ghost use Rattle.abt_unit.specs.Units.{IsFree};
ghost use Rattle.abt_unit.specs.Fits.{Fits};
ghost use Rattle.abt_stream.specs.Events.{IfFirst, PutBy, holding};

use super::Stream;
use crate::turns::Turn;
use crate::units::{home, name};
use abt_chain::Chain;
use abt_commons::{Act, Commons, Reply};
use abt_machine::{Site, What};
use abt_unit::Unit;

impl Stream {
    // The tray's first goes home.
    #[tactic(auto, using(crate::proofs::Calls::put_may))]
    #[inline(always)]
    pub(super) fn put<'w, C: Commons<'w>>(&mut self, commons: &C, pass: &mut C::Pass) -> Turn
        requires pass { C.is_of commons.now pass.old }
        requires fits { IfFirst self.old.held.tray (λ o os. Fits (C.workload commons.now) o) }
        requires room { 0 < self.old.rooms.events }
        ensures put { IfFirst self.old.held.tray (PutBy (Heeds (C.moves commons.now) (C.workload commons.now)) self.old pass.old result self.new pass.new) }
        ensures pass { C.is_of commons.now pass.new }
        ensures number { C.number pass.new ≡ C.number pass.old }
    {
        match self.tray.take_front() {
            None => unreachable!(),
            Some(unit) => {
                let to = home(&unit);
                let what = What::Put(name(&unit), to);
                match commons.call(pass, Site::Pool(to), self.clock, Act::Put(unit)) {
                    Reply::Done { stamp, answer: _ } => {
                        self.write(stamp, what);
                        Turn::Moved
                    }
                    Reply::Worn(act) => {
                        match act {
                            Act::Put(unit) => self.put_back(unit),
                            _ => unreachable!(),
                        }
                        Turn::Worn
                    }
                }
            }
        }
    }

    // Puts a unit back before the tray's first.
    fn put_back(&mut self, unit: Box<Unit>)
        requires free { IsFree unit.value }
        ensures { self.new ≡ holding self.old (record self.old.held { tray = unit.value.owned ∷ self.old.held.tray }) }
    {
        let mut tray = Chain::new();
        tray.push_back(unit);
        self.tray.drain_into(&mut tray);
        self.tray = tray;
    }
}
