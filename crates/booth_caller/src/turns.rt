//! A letter that goes into a tray and out again in one turn.
ghost use Rattle.std.specs.Prelude.{◌≡◌};
ghost use Rattle.abt_booth.specs.Holders.{holder_number, holder_seen, IsHolderOf, Rests};
ghost use Rattle.booth_caller.specs.Turns.{GoesThrough};

use crate::letters::{Ask, Letter, Tray};
use abt_booth::{Booth, Called, Holder};
use std::sync::Wait;

/// Puts a letter into the tray and takes a letter out, in one turn. Returns the answer to each call.
///
/// No other seat's call stands between the two. So a letter that was stored is the one that comes out, and this is known at once:
/// the booth need not be closed for it.
pub fn put_and_take<R: Wait>(
    rt: &R,
    booth: &Booth<Tray>,
    holder: &mut Holder<Tray>,
    letter: Box<Letter>,
) -> (Called<Tray>, Called<Tray>)
    requires holder { IsHolderOf booth.now holder.old }
    requires rests { Rests holder.old }
    ensures holder { IsHolderOf booth.now holder.new × (holder_number holder.new ≡ holder_number holder.old) }
    ensures rests { Rests holder.new }
    ensures through { GoesThrough booth.now (holder_number holder.old) (holder_seen holder.old) (holder_seen holder.new) letter result.0 result.1 }
{
    booth.hold(rt, holder);
    let put = booth.call_held(holder, 0, Ask::Put(letter));
    let taken = booth.call_held(holder, 0, Ask::Take);
    booth.give_back(holder);
    (put, taken)
}
