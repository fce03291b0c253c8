//! What each step on the table ensures.

use crate::object::Object;
use crate::rule::{Lot, View};
use atomic_table::{Join, Play, Split};
use std::marker::PhantomData;

pub(crate) struct Take<O> {
    of: PhantomData<O>,
}

impl<O: Object> Play<Option<Lot<O, O::Act, O::Answer>>, View<O, O::Act, O::Answer>> for Take<O> {
    ghost use Rattle.abt_booth.specs.Rule.{took};

    ghost then = { took O.does };
}

/// Gives the turn back, after the calls that were made in it.
pub(crate) struct Release;

impl<O, A, R> Play<Option<Lot<O, A, R>>, View<O, A, R>> for Release {
    ghost use Rattle.abt_booth.specs.Rule.{released};

    ghost then = { released };
}

/// The lowest number goes to a new seat.
pub(crate) struct Deal;

impl<O, A, R> Split<View<O, A, R>> for Deal {
    ghost use Rattle.abt_booth.specs.Rule.{left, dealt};

    ghost left = { left };

    ghost right = { dealt };
}

/// A seat takes another in.
pub(crate) struct Gather;

impl<O, A, R> Join<View<O, A, R>> for Gather {
    ghost use Rattle.abt_booth.specs.Rule.{gathered, spent};

    ghost both = { gathered };

    ghost spent = { spent };
}
