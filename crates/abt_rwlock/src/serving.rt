//! How a lock that was given up goes to its waiters.

ghost use Rattle.std.specs.Prelude.{◌≡◌, ℕ};
ghost use Rattle.abt_machine.specs.RwLocks.{after_readers, all_reading, first_readers, passed_on, woken};
ghost use Rattle.abt_rwlock.specs.Parts.{lock_of};

use crate::holders::Holders;
use crate::waiters::Waiters;
use abt_chain::Chain;

/// If nobody holds the lock, it goes to the first waiter, if this one wants to write, and else to all before the first that
/// wants to write. They come out in order.
pub fn pass_on(holders: &mut Holders, waiters: &mut Waiters) -> Chain
    ensures woken { (n : ℕ) → result.units ≡ woken (lock_of holders.old waiters.old n) }
    ensures left { (n : ℕ) → lock_of holders.new waiters.new n ≡ passed_on (lock_of holders.old waiters.old n) }
{
    if !holders.are_none() {
        return Chain::new();
    }
    let mut readers = take_readers(holders, waiters);
    if readers.is_empty()
        && let Some(unit) = waiters.take_first()
    {
        holders.set_writer(Some(unit.number()));
        readers.push_back(unit);
    }
    readers
}

// All waiters before the first that wants to write come out in order, and each reads once.
#[tactic(auto, using(crate::proofs::Readers::taking))]
fn take_readers(holders: &mut Holders, waiters: &mut Waiters) -> Chain
    ensures readers { result.units ≡ first_readers waiters.old.wishes waiters.old.units }
    ensures counts { holders.new.counts ≡ all_reading result.units holders.old.counts }
    ensures writer { holders.new.writer ≡ holders.old.writer }
    ensures others { waiters.new.units ≡ after_readers waiters.old.wishes waiters.old.units }
    ensures wishes { waiters.new.wishes ≡ waiters.old.wishes }
{
    let mut readers = Chain::new();
    while let Some(unit) = waiters.take_reader() {
        holders.set_count(unit.number(), 1);
        readers.push_back(unit);
    }
    readers
}
