//! When a stream keeps the turns of locks, and when it gives them back: a guess, on which no clause depends.

use std::alloc::{AllocError, Global};
use std::marker::Model;

// How many turns a stream keeps at most.
const MOST: usize = 1024;

// How often a stream gives all back because another one wants a turn, before it no longer keeps any.
const PATIENCE: u32 = 8;

/// Which turns a stream keeps, by the numbers of their locks, and what it has heard of others.
#[derive(Drop)]
pub struct Habits {
    kept: Vec<usize>,
    // How many turns had been wanted when the stream last looked.
    heard: u64,
    // How often it still gives all back before it no longer keeps any.
    patience: u32,
}

impl Model for Habits {
    ghost Value = { Unit {0} };

    ghost view = { λ h. tt };
}

impl Habits {
    /// Of a stream that shares that many locks, and keeps none.
    pub(crate) fn new(alloc: Global, locks: usize) -> Result<Habits, AllocError> {
        Ok(Habits {
            kept: Vec::with_capacity(alloc, locks.min(MOST))?,
            heard: 0,
            patience: PATIENCE,
        })
    }

    /// Whether the stream is to give all back, now that so many turns have been wanted.
    #[inline(always)]
    pub(crate) fn hears(&mut self, wanted: u64) -> bool {
        wanted != self.heard && self.hears_more(wanted)
    }

    // Whether it keeps any.
    #[inline(never)]
    fn hears_more(&mut self, wanted: u64) -> bool {
        self.heard = wanted;
        if self.kept.is_empty() {
            return false;
        }
        if self.patience > 0 {
            self.patience -= 1;
        }
        true
    }

    /// Whether the stream keeps the turn of this lock, which is its own. Its number is noted then.
    pub(crate) fn keeps(&mut self, number: usize) -> bool {
        if self.patience == 0 || self.kept.len() == self.kept.capacity() {
            return false;
        }
        self.kept.push_reserved(number);
        true
    }

    /// How many turns are kept.
    pub(crate) fn count(&self) -> usize {
        self.kept.len()
    }

    /// One of the locks whose turns are kept, which is then noted no more.
    pub(crate) fn next(&mut self) -> Option<usize> {
        self.kept.pop()
    }
}
