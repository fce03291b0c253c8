//! The pools into which a stream puts units, as it calls the objects.

ghost use Rattle.std.specs.Prelude.{◌≡◌};
ghost use Rattle.abt_machine.specs.Stored.{CallsStored, Stored};
ghost use Rattle.abt_stream.specs.Answers.{Follows};
ghost use Rattle.abt_stream.specs.Heeding.{Heeds};
ghost use Rattle.abt_stream.specs.Streams.{FitsShapes, FitsStream};
ghost use Rattle.abt_stream.specs.Turned.{IsReady, Turned};

use abt_commons::{Act, Commons, Reply};
use abt_machine::{PoolNo, Site, Workload};
use abt_stream::{Stream, Turn};
use abt_work::Work;
use std::cell::Cell;
use std::marker::Model;

/// Where a stream notes the pool into which it puts a unit.
#[derive(Drop)]
pub struct Puts {
    pool: Cell<Option<PoolNo>>,
}

impl Puts {
    /// No pool is noted.
    pub(crate) fn new() -> Puts {
        Puts {
            pool: Cell::new(None),
        }
    }

    // A unit goes into the pool.
    #[inline(always)]
    fn note(&self, p: PoolNo) {
        self.pool.set(Some(p));
    }

    /// The pool that was noted, which is forgotten.
    #[inline(always)]
    pub(crate) fn take(&self) -> Option<PoolNo> {
        self.pool.replace(None)
    }
}

// The objects, lent to a stream that notes what it puts.
#[derive(Drop)]
struct Noting<'a, C> {
    commons: &'a C,
    puts: &'a Puts,
}

impl<'a, C> Model for Noting<'a, C> {
    ghost Value = { C };

    ghost view = { λ noting. noting.commons.now };
}

impl<'w, 'a, X: Drop, C: Commons<'w, Pass = X>> Commons<'w> for Noting<'a, C> {
    type Pass = X;

    ghost workload = { λ noting. C.workload noting };

    ghost is_of = { λ noting pass. C.is_of noting pass };

    ghost number = { λ pass. C.number pass };

    ghost moves = { λ noting old x at act told new. C.moves noting old x at act told new };

    #[inline(always)]
    fn call(&self, pass: &mut X, site: Site, at: u64, act: Act) -> Reply {
        if let (Site::Pool(p), Act::Put(_)) = (site, &act) {
            self.puts.note(p);
        }
        self.commons.call(pass, site, at, act)
    }

    #[inline(always)]
    fn rest(&self, pass: &mut X) {
        self.commons.rest(pass)
    }
}

/// One turn of a stream, which notes the pool into which it puts a unit.
#[inline(always)]
pub fn noted_turn<'w, X: Drop, C: Commons<'w, Pass = X>, P: Work>(
    commons: &C,
    puts: &Puts,
    stream: &mut Stream,
    pass: &mut X,
    w: &Workload,
    work: &P,
) -> Turn
    requires pass { C.is_of commons.now pass.old }
    requires w { C.workload commons.now ≡ w.now }
    requires fits { FitsStream w.now stream.old }
    requires ready { IsReady w.now stream.old }
    requires stored { CallsStored w.now (P.count work.now) }
    ensures turned { (Z : Stored) → FitsShapes w.now Z stream.old → Z.returns ≡ P.returns work.now → Turned (Heeds (C.moves commons.now) (C.workload commons.now)) w.now Z stream.old pass.old result stream.new pass.new }
    ensures stream { stream.new.number ≡ stream.old.number }
    ensures keeps { stream.new.keeps ≡ stream.old.keeps }
    ensures budget { stream.new.budget ≡ stream.old.budget }
    ensures fits { FitsStream w.now stream.new }
    ensures shapes { (Z : Stored) → FitsShapes w.now Z stream.old → FitsShapes w.now Z stream.new }
    ensures follows { Follows w.now stream.old stream.new }
    ensures pass { C.is_of commons.now pass.new }
    ensures number { C.number pass.new ≡ C.number pass.old }
{
    stream.turn(&Noting { commons, puts }, pass, w, work)
}
