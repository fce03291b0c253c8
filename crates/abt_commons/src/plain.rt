//! All objects in the hands of one caller.

ghost use Rattle.std.specs.Prelude.{◌≡◌, ◌≤◌, ◌^◌, [], ◌∷◌};
ghost use Rattle.abt_calls.specs.Asking.{MayCall};
ghost use Rattle.abt_commons.specs.Acts.{IsFreeAct, act_of};
ghost use Rattle.abt_commons.specs.AllPasses.{AreAll};
ghost use Rattle.abt_commons.specs.Held.{ObjectsValue};
ghost use Rattle.abt_commons.specs.Replies.{Replies, told_by};
ghost use Rattle.abt_commons.specs.Plains.{PlainMoves};

use crate::acts::{Act, Reply};
use crate::commons::Commons;
use crate::objects::Objects;
use crate::sites::site_number;
use abt_booth::{LAST_STAMP, Object};
use abt_machine::{Site, Workload};
use std::marker::Model;

/// The objects for a caller on one thread, who has them in its pass. It is seen as the workload for which they were placed.
#[derive(Drop)]
pub struct Plain<'w> {
    w: &'w Workload,
}

impl<'w> Model for Plain<'w> {
    ghost use Rattle.abt_machine.specs.declared.workload.Parts.{Parts};

    ghost Value = { Parts };

    ghost view = { λ plain. plain.w.now };
}

/// The right to call, which holds the objects and is seen as these.
#[derive(Drop)]
pub struct PlainPass<'w> {
    objects: Objects<'w>,
}

impl<'w> Model for PlainPass<'w> {
    ghost use Rattle.abt_commons.specs.Held.{ObjectsValue};

    ghost Value = { ObjectsValue };

    ghost view = { λ pass. pass.objects };
}

impl<'w> Plain<'w> {
    /// The one pass has the objects.
    pub fn make(objects: Objects<'w>) -> (Plain<'w>, PlainPass<'w>)
        ensures workload { result.0 ≡ objects.entry.workload }
        ensures pass { result.1 ≡ objects.entry }
    {
        (Plain { w: objects.w }, PlainPass { objects })
    }

    /// The objects of the one pass.
    pub fn close(self, mut passes: Vec<PlainPass<'w>>) -> Objects<'w>
        requires passes { AreAll (λ (pass : ObjectsValue). pass.workload ≡ self) (λ (pass : ObjectsValue). 0) 1 passes.items }
        ensures leaves { passes.entry.items ≡ result ∷ [] }
    {
        let Some(pass) = passes.pop() else {
            unreachable!()
        };
        pass.objects
    }
}

impl<'w> Commons<'w> for Plain<'w> {
    ghost use Rattle.std.specs.Prelude.{◌≡◌};
    ghost use Rattle.abt_commons.specs.Plains.{PlainMoves};

    type Pass = PlainPass<'w>;

    ghost workload = { λ plain. plain };

    ghost is_of = { λ plain pass. pass.workload ≡ plain };

    ghost number = { λ pass. 0 };

    ghost moves = { λ plain old x at act told new. PlainMoves old x at act told new };

    #[inline(always)]
    fn call(&self, pass: &mut PlainPass<'w>, site: Site, at: u64, act: Act) -> Reply {
        pass.objects.call(site, at, act)
    }

    fn rest(&self, _pass: &mut PlainPass<'w>) {}
}

impl<'w> Objects<'w> {
    // One call of one object.
    #[inline(always)]
    fn call(&mut self, site: Site, at: u64, act: Act) -> Reply
        requires free { IsFreeAct act }
        requires may { MayCall self.old.workload site (act_of act) }
        requires at { at ≤ 2 ^ 62 }
        ensures workload { self.new.workload ≡ self.old.workload }
        ensures replies { Replies self.old.workload at act result }
        ensures moves { PlainMoves self.old site at (act_of act) (told_by result) self.new }
    {
        let number = site_number(self.w, site);
        let greater = at.max(self.clocks[number]);
        if greater == LAST_STAMP {
            return Reply::Worn(act);
        }
        let stamp = greater + 1;
        let answer = self.ones[number].run(act);
        self.clocks[number] = stamp;
        Reply::Done { stamp, answer }
    }
}

impl<'w> PlainPass<'w> {
    /// The objects.
    pub fn objects(&self) -> &Objects<'w>
        ensures { result.now ≡ self.now }
    {
        &self.objects
    }
}
