//! Frames: schedulers that run, each with its round.

ghost use Rattle.std.specs.Prelude.{◌≡◌, ◌++◌, ◌<◌, ◌+◌, ◌-◌, ◌^◌, suc, false, IfOk, length, map};
ghost use Rattle.abt_machine.specs.Frames.{frame_at, frame_missed};
ghost use Rattle.abt_order.specs.Schedulers.{pool_numbers};
ghost use Rattle.abt_replay.specs.Keys.{list_key, number_key};
ghost use Rattle.abt_replay.specs.Unnumbered.{unnumbered_frame};

use crate::keys::{Keyed, write_list};
use abt_machine::{PoolNo, SchedNo, Want, Workload};
use std::alloc::{AllocError, Global};
use std::marker::Model;

/// A scheduler that runs: its round, the pools that were missed in this round, and whether its last round ended empty.
#[derive(Drop)]
pub struct Frame {
    pub sched: SchedNo,
    pub round: u64,
    pub seen: Vec<PoolNo>,
    pub empty: bool,
}

impl Model for Frame {
    ghost use Rattle.abt_machine.specs.State as state;
    ghost use Rattle.abt_order.specs.Schedulers.{pool_numbers};

    ghost Value = { state.Frame };

    ghost view = { λ f. record { sched = f.sched.0; round = f.round; seen = pool_numbers f.seen.items; empty = f.empty } };
}

impl Clone for Frame {
    ghost is_clone = { λ frame copy. copy ≡ frame };

    fn clone(&self) -> Result<Frame, AllocError> {
        Ok(Frame {
            sched: self.sched,
            round: self.round,
            seen: Vec::from_slice(*self.seen.allocator(), self.seen.as_slice())?,
            empty: self.empty,
        })
    }
}

impl Keyed for Frame {
    ghost use Rattle.abt_replay.specs.Keys.{frame_key};

    ghost key = { frame_key };

    #[tactic(auto, unfolding(crate::specs::Keys::frame_key))]
    fn write(&self, out: &mut Vec<u8>) -> Result<(), Want> {
        self.sched.0.write(out)?;
        self.round.write(out)?;
        write_pools(self.seen.as_slice(), out)?;
        self.empty.write(out)
    }
}

impl Frame {
    /// The frame of a scheduler at its first round.
    pub(crate) fn new(alloc: Global, sched: SchedNo) -> Frame
        ensures { result ≡ frame_at sched.0 0 false }
    {
        Frame {
            sched,
            round: 0,
            seen: Vec::new(alloc),
            empty: false,
        }
    }

    /// A taken unit ends the round.
    pub(crate) fn take(&mut self)
        requires { self.old.round < 2 ^ 64 - 1 }
        ensures { self.new ≡ frame_at self.old.sched (suc self.old.round) false }
    {
        self.round += 1;
        self.seen.clear();
        self.empty = false;
    }

    /// A missed pool is seen, and the last one ends the round empty.
    pub(crate) fn miss(&mut self, w: &Workload, p: PoolNo) -> Result<(), Want>
        requires sched { self.old.sched < length w.now.scheds }
        requires round { self.old.round < 2 ^ 64 - 1 }
        ensures { IfOk result (λ _. self.new ≡ frame_missed w.now self.old p.0) }
    {
        if w.sched(self.sched).pools.items().len() == self.seen.len() + 1 {
            self.round += 1;
            self.seen.clear();
            self.empty = true;
            return Ok(());
        }
        self.seen.push(p)?;
        self.empty = false;
        Ok(())
    }

    /// The round becomes 0.
    pub(crate) fn forget_round(&mut self)
        ensures { self.new ≡ unnumbered_frame self.old }
    {
        self.round = 0;
    }
}

// Appends the bytes of the pools' numbers.
#[tactic(auto, using(crate::proofs::Written::written))]
fn write_pools(pools: &[PoolNo], out: &mut Vec<u8>) -> Result<(), Want>
    ensures { IfOk result (λ _. out.new.items ≡ out.old.items ++ list_key number_key (pool_numbers pools.now)) }
{
    write_list(pools, out)
}

/// The round of each frame becomes 0.
#[tactic(auto, using(crate::proofs::Forgetting::forgetting))]
pub(crate) fn forget_rounds(frames: &mut Vec<Frame>)
    ensures { frames.new.items ≡ map unnumbered_frame frames.old.items }
{
    for frame in frames.iter_mut() {
        frame.forget_round();
    }
}
